//! The calls of fk_subst: command templates.
ghost use Rattle.std.specs.Prelude.{IsTrue};
ghost use Rattle.std.specs.List.{list_all};
ghost use Rattle.fk_base.specs.Characters.{is_line_byte};

use crate::reading::{address, is_line, pairs};
use crate::showing::put_words;
use fk_base::{Grant, Words};
use fk_row_text::{Answer, Arguments, RowFault};
use fk_subst::{CommandFault, fill, is_template, split};
use std::alloc::Global;

/// Makes the call of this name, where it is one of these.
pub(crate) fn call(
    alloc: Global,
    name: &[u8],
    arguments: &mut Arguments<'_>,
    answer: &mut Answer,
) -> bool {
    match name {
        b"is_template" => answer.flag(is_template(arguments.text())),
        b"split" => call_split(alloc, arguments, answer),
        b"fill" => call_fill(alloc, arguments, answer),
        _ => return false,
    }
    true
}

fn call_split(alloc: Global, arguments: &mut Arguments<'_>, answer: &mut Answer) {
    let text = arguments.text();
    if !is_line(text) {
        arguments.refuse(RowFault::Barred);
        return;
    }
    match split(alloc, text) {
        Ok(_template) => answer.word(b"Ok"),
        Err(fault) => answer.name(&fault),
    }
}

/// `fill TEXT ADDRESS SOURCE SECONDS PAIR ..`: the words of the command, filled in for such a grant.
fn call_fill(alloc: Global, arguments: &mut Arguments<'_>, answer: &mut Answer) {
    let text = arguments.text();
    let Some(grant) = grant(arguments) else {
        return;
    };
    if !is_line(text) {
        arguments.refuse(RowFault::Barred);
        return;
    }
    match filled(alloc, text, &grant) {
        Ok(words) => put_words(&words, answer),
        Err(fault) => answer.name(&fault),
    }
}

fn filled(alloc: Global, text: &[u8], grant: &Grant) -> Result<Words, CommandFault>
    requires { IsTrue (list_all is_line_byte text.now) }
{
    let template = split(alloc, text)?;
    Ok(fill(alloc, &template, grant)?)
}

fn grant(arguments: &mut Arguments<'_>) -> Option<Grant> {
    let ip = address(arguments);
    let src = address(arguments);
    let seconds = arguments.number(u32::MAX as u64) as u32;
    let pairs = pairs(arguments)?;
    Some(Grant {
        stanza: 1,
        ip,
        src,
        seconds,
        pairs,
        stamp: 1_700_000_000,
    })
}
