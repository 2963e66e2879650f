use crate::log::Log;
use crate::{
    access, admit, aes, base, cbc, client, codec, conf, cycle, fields, input, lines, log, mac,
    packet, subst, text, timer, values, words,
};
use fk_cycle::Machine;
use fk_row_text::{Answer, Arguments, Calls};
use fk_timer::Timer;
use std::alloc::Global;

/// All calls, and what the rows of a file have begun.
#[derive(Drop)]
pub(crate) struct RowCalls {
    timer: Option<Timer>,
    machine: Option<Machine>,
    log: Option<Log>,
}

impl RowCalls {
    pub(crate) fn new() -> Self {
        RowCalls {
            timer: None,
            machine: None,
            log: None,
        }
    }
}

impl Calls for RowCalls {
    fn begin(&mut self) {
        *self = RowCalls::new();
    }

    fn call(
        &mut self,
        alloc: Global,
        name: &[u8],
        arguments: &mut Arguments<'_>,
        answer: &mut Answer,
    ) -> bool {
        base::call(alloc, name, arguments, answer)
            || text::call(alloc, name, arguments, answer)
            || mac::call(alloc, name, arguments, answer)
            || aes::call(name, arguments, answer)
            || cbc::call(alloc, name, arguments, answer)
            || fields::call(alloc, name, arguments, answer)
            || codec::call(alloc, name, arguments, answer)
            || packet::call(alloc, name, arguments, answer)
            || admit::call(alloc, name, arguments, answer)
            || client::call(alloc, name, arguments, answer)
            || lines::call(name, arguments, answer)
            || values::call(alloc, name, arguments, answer)
            || subst::call(alloc, name, arguments, answer)
            || access::call(alloc, name, arguments, answer)
            || conf::call(alloc, name, arguments, answer)
            || words::call(alloc, name, arguments, answer)
            || input::call(alloc, name, arguments, answer)
            || timer::call(alloc, name, &mut self.timer, arguments, answer)
            || cycle::call(alloc, name, &mut self.machine, arguments, answer)
            || log::call(alloc, name, &mut self.log, arguments, answer)
    }
}
