//! The calls of fk_timer: one timer over several rows.
use crate::showing::put_number_if;
use fk_row_text::{Answer, Arguments, RowFault};
use fk_timer::Timer;
use std::alloc::Global;

/// Makes the call of this name, where it is one of these.
pub(crate) fn call(
    alloc: Global,
    name: &[u8],
    timer: &mut Option<Timer>,
    arguments: &mut Arguments<'_>,
    answer: &mut Answer,
) -> bool {
    if name == b"timer".as_slice() {
        *timer = Some(Timer::new(alloc));
        return true;
    }
    match timer {
        Some(timer) => call_timer(name, timer, arguments, answer),
        None => false,
    }
}

fn call_timer(
    name: &[u8],
    timer: &mut Timer,
    arguments: &mut Arguments<'_>,
    answer: &mut Answer,
) -> bool {
    match name {
        b"put" => call_put(timer, arguments),
        b"holds" => answer.flag(timer.holds(arguments.number(u64::MAX))),
        b"take_due" => put_number_if(timer.take_due(arguments.number(u64::MAX)), answer),
        b"drop_id" => timer.drop_id(arguments.number(u64::MAX)),
        _ => return false,
    }
    true
}

/// `put ID MOMENT`, of a number that does not wait.
fn call_put(timer: &mut Timer, arguments: &mut Arguments<'_>) {
    let id = arguments.number(u64::MAX);
    let moment = arguments.number(u64::MAX);
    if timer.reserve().is_err() {
        arguments.refuse(RowFault::NoMemory);
    } else if timer.holds(id) {
        arguments.refuse(RowFault::Barred);
    } else {
        timer.put(id, moment);
    }
}
