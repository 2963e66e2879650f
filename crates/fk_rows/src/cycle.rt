//! The calls of fk_cycle: one machine over several rows.
use crate::reading::{choice, moment, purpose};
use crate::showing::put_number_if;
use fk_cycle::{Act, Machine};
use fk_row_text::{Answer, Arguments, RowFault};
use std::alloc::Global;

/// Makes the call of this name, where it is one of these.
pub(crate) fn call(
    alloc: Global,
    name: &[u8],
    machine: &mut Option<Machine>,
    arguments: &mut Arguments<'_>,
    answer: &mut Answer,
) -> bool {
    if name == b"machine".as_slice() {
        *machine = Some(Machine::new(alloc));
        return true;
    }
    match machine {
        Some(machine) => {
            call_change(name, machine, arguments, answer)
                || call_question(name, machine, arguments, answer)
        }
        None => false,
    }
}

fn call_change(
    name: &[u8],
    machine: &mut Machine,
    arguments: &mut Arguments<'_>,
    answer: &mut Answer,
) -> bool {
    match name {
        b"opened" => call_opened(machine, arguments),
        b"turn" => machine.turn(),
        b"begun" => call_begun(machine, arguments),
        b"not_begun" => machine.not_begun(purpose(arguments)),
        b"ended" => call_ended(machine, arguments, answer),
        b"due" => call_due(machine, arguments, answer),
        _ => return false,
    }
    true
}

fn call_question(
    name: &[u8],
    machine: &Machine,
    arguments: &mut Arguments<'_>,
    answer: &mut Answer,
) -> bool {
    match name {
        b"keeps" => answer.flag(machine.keeps(arguments.number(u64::MAX))),
        b"may_begin" => answer.flag(machine.may_begin(purpose(arguments))),
        b"has_running" => answer.flag(machine.has_running(purpose(arguments))),
        b"count" => answer.number(machine.count() as u64),
        _ => return false,
    }
    true
}

/// `opened ID DUE`, of a record that is not kept.
fn call_opened(machine: &mut Machine, arguments: &mut Arguments<'_>) {
    let id = arguments.number(u64::MAX);
    let due = arguments.number(u64::MAX);
    if machine.reserve().is_err() {
        arguments.refuse(RowFault::NoMemory);
    } else if machine.keeps(id) {
        arguments.refuse(RowFault::Barred);
    } else {
        machine.opened(id, due);
    }
}

fn call_begun(machine: &mut Machine, arguments: &mut Arguments<'_>) {
    let purpose = purpose(arguments);
    if machine.may_begin(purpose) {
        machine.begun(purpose);
    } else {
        arguments.refuse(RowFault::Barred);
    }
}

fn call_due(machine: &mut Machine, arguments: &mut Arguments<'_>, answer: &mut Answer) {
    if let Some(moment) = moment(arguments) {
        put_number_if(machine.due(moment), answer);
    }
}

/// `ended PURPOSE good MOMENT` or `ended PURPOSE bad MOMENT`, of a child that runs.
fn call_ended(machine: &mut Machine, arguments: &mut Arguments<'_>, answer: &mut Answer) {
    let purpose = purpose(arguments);
    let good = choice(arguments, b"good", b"bad");
    let Some(moment) = moment(arguments) else {
        return;
    };
    if !machine.has_running(purpose) {
        arguments.refuse(RowFault::Barred);
        return;
    }
    match machine.ended(purpose, good, moment) {
        Act::Nothing => answer.word(b"Nothing"),
        Act::Wait => answer.word(b"Wait"),
        Act::Settle(end) => {
            answer.word(b"Settle");
            answer.number(end.id());
        }
    }
}
