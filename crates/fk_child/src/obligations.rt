//! The obligations of a crew: their places, and the machine that is told of each.
ghost use Rattle.std.specs.Prelude.{◌≡◌, ℕ, ◌<◌, ◌≤◌, [], IfOk, length, vec_len, vec_capacity, insert, slice_get, Some};
ghost use Rattle.std.specs.List.{Contains};
ghost use Rattle.fk_trace.specs.Ledger.{IsLedger};
ghost use Rattle.fk_cycle.specs.Stands.{Stands};
ghost use Rattle.fk_ledger.specs.Book.{live_ids};
ghost use Rattle.fk_child.specs.Crew.{obligations_but};

use fk_base::NoMemory;
use fk_cycle::Machine;
use fk_ledger::{Ledger, Owed};
use std::alloc::Global;

/// A machine for what the live records of a ledger owe, of which nothing was attempted.
pub(crate) fn machine_for(
    alloc: Global,
    ledger: &Ledger,
    owed: &[Owed],
) -> Result<Machine, NoMemory>
    requires owed { owed.now ≡ live_ids ledger.now.changes }
    requires follow { IsLedger ledger.now.changes }
    ensures { IfOk result (λ machine. Stands machine.kept [] [] (obligations_but [] ledger.now.changes)) }
{
    let mut machine = Machine::new(alloc);
    for owed in owed {
        let Some(item) = ledger.get(owed.id()) else {
            unreachable!()
        };
        machine.reserve()?;
        machine.opened(item.id, item.due);
    }
    Ok(machine)
}

/// Where the obligation of this record stands.
pub(crate) fn index_of(owed: &[Owed], id: u64) -> usize
    requires { Contains owed.now id }
    ensures { slice_get owed.now result ≡ Some id }
{
    for (i, other) in owed.iter().enumerate() {
        if other.id() == id {
            return i;
        }
    }
    unreachable!()
}

/// Puts an obligation back to the place from which it was taken.
pub(crate) fn put_back(owed: &mut Vec<Owed>, index: usize, back: Owed)
    requires place { index ≤ vec_len owed.old }
    requires room { vec_len owed.old < vec_capacity owed.old }
    ensures items { owed.new.items ≡ insert owed.old.items index back }
    ensures room { vec_capacity owed.new ≡ vec_capacity owed.old }
{
    match owed.insert(index, back) {
        Ok(()) => {}
        Err(_) => unreachable!(),
    }
}
