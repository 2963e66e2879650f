//! The calls of fk_cbc: the salted form of `openssl enc`.
ghost use Rattle.std.specs.Prelude.{◌≡◌, ◌+◌, ◌/◌, ◌<◌, length, OnOk};

use crate::reading::bytes;
use crate::showing::put_outcome;
use fk_base::{Bytes, Steps};
use fk_cbc::{OpenFault, derive, open, seal};
use fk_row_text::{Answer, Arguments};
use std::alloc::Global;
use std::marker::Brand;
use std::sync::ledger::{Blank, Ledger};

/// Makes the call of this name, where it is one of these.
pub(crate) fn call(
    alloc: Global,
    name: &[u8],
    arguments: &mut Arguments<'_>,
    answer: &mut Answer,
) -> bool {
    match name {
        b"derive" => call_derive(arguments, answer),
        b"seal" => call_seal(alloc, arguments, answer),
        b"open" => call_open(alloc, arguments, answer),
        b"zeros_back" => call_zeros_back(alloc, arguments, answer),
        _ => return false,
    }
    true
}

fn call_derive(arguments: &mut Arguments<'_>, answer: &mut Answer) {
    let key = arguments.text();
    let (cipher_key, initial_vector) = derive(key, bytes(arguments));
    answer.text(&cipher_key);
    answer.text(&initial_vector);
}

fn call_seal(alloc: Global, arguments: &mut Arguments<'_>, answer: &mut Answer) {
    let key = arguments.text();
    let salt = bytes(arguments);
    put_outcome(&seal(alloc, key, salt, arguments.text()), answer);
}

fn call_open(alloc: Global, arguments: &mut Arguments<'_>, answer: &mut Answer) {
    let key = arguments.text();
    let sealed = arguments.text();
    put_outcome(&opened::<Brand>(alloc, key, sealed, Blank::new(1)), answer);
}

fn call_zeros_back(alloc: Global, arguments: &mut Arguments<'_>, answer: &mut Answer) {
    let key = arguments.text();
    let salt = bytes(arguments);
    match zeros_come_back::<Brand>(alloc, key, salt, Blank::new(1)) {
        Ok(true) => answer.word(b"same"),
        Ok(false) => answer.word(b"other"),
        Err(fault) => answer.name(&fault),
    }
}

fn opened<L: Ledger>(
    alloc: Global,
    key: &[u8],
    sealed: &[u8],
    blank: Blank,
) -> Result<Bytes, OpenFault>
    requires name { blank.name ≡ L.name }
    requires parts { blank.parts ≡ L.parts }
    requires some { 0 < L.parts }
{
    let mut steps: Steps<L> = Steps::new(blank);
    open(alloc, key, sealed, &mut steps)
}

fn zeros_come_back<L: Ledger>(
    alloc: Global,
    key: &[u8],
    salt: [u8; 8],
    blank: Blank,
) -> Result<bool, OpenFault>
    requires name { blank.name ≡ L.name }
    requires parts { blank.parts ≡ L.parts }
    requires some { 0 < L.parts }
{
    let zeros = vec![in alloc; 0; 1_048_576]?;
    let mut steps: Steps<L> = Steps::new(blank);
    comes_back(alloc, key, salt, &zeros, &mut steps)
}

/// Seals a text and opens what came of it: whether the text came back. One block more is opened than the text fills, so 65537 where the
/// text has 1048576 bytes.
fn comes_back<L: Ledger>(
    alloc: Global,
    key: &[u8],
    salt: [u8; 8],
    plain: &[u8],
    steps: &mut Steps<L>,
) -> Result<bool, OpenFault>
    ensures { OnOk result (steps.new ≡ steps.old + (length plain.now / 16 + 1)) }
{
    let sealed = seal(alloc, key, salt, plain)?;
    let opened = open(alloc, key, sealed.as_slice(), steps)?;
    Ok(opened.as_slice() == plain)
}
