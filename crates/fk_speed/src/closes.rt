use fk_base::{Moment, NoMemory, Purpose};
use fk_cycle::Machine;
use std::alloc::Global;

/// The second at which the closes are due.
const DUE: u64 = 1000;

/// Keeps so many records whose closes are due at one second, and attempts in each of so many turns at that moment all that
/// are due; answers how many were attempted.
pub fn closes_attempted(
    alloc: Global,
    records: u64,
    turns: u64,
    moment: Moment,
) -> Result<u64, NoMemory> {
    let mut machine = Machine::new(alloc);
    for id in 0..records {
        machine.reserve()?;
        if !machine.keeps(id) {
            machine.opened(id, DUE);
        }
    }
    let mut attempted: u64 = 0;
    for _ in 0..turns {
        machine.turn();
        attempted = attempted.saturating_add(attempted_in_turn(&mut machine, records, moment));
    }
    Ok(attempted)
}

/// Attempts the closes that are due, and no more than so many.
fn attempted_in_turn(machine: &mut Machine, most: u64, moment: Moment) -> u64 {
    for attempted in 0..most {
        match machine.due(moment) {
            Some(id) => machine.not_begun(Purpose::Close(id)),
            None => return attempted,
        }
    }
    most
}
