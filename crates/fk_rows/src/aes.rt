//! The calls of fk_aes: AES-256 of one block.
ghost use Rattle.std.specs.Prelude.{◌≡◌, ◌<◌};

use crate::reading::bytes;
use fk_aes::Key256;
use fk_base::Steps;
use fk_row_text::{Answer, Arguments};
use std::marker::Brand;
use std::sync::ledger::{Blank, Ledger};

/// Makes the call of this name, where it is one of these.
pub(crate) fn call(name: &[u8], arguments: &mut Arguments<'_>, answer: &mut Answer) -> bool {
    match name {
        b"encrypt" => call_encrypt(arguments, answer),
        b"decrypt" => call_decrypt(arguments, answer),
        _ => return false,
    }
    true
}

fn call_encrypt(arguments: &mut Arguments<'_>, answer: &mut Answer) {
    let key = Key256::new(bytes(arguments));
    let mut block = bytes(arguments);
    key.encrypt(&mut block);
    answer.text(&block);
}

fn call_decrypt(arguments: &mut Arguments<'_>, answer: &mut Answer) {
    let key = Key256::new(bytes(arguments));
    let block = bytes(arguments);
    answer.text(&decrypted::<Brand>(&key, block, Blank::new(1)));
}

fn decrypted<L: Ledger>(key: &Key256, sealed: [u8; 16], blank: Blank) -> [u8; 16]
    requires name { blank.name ≡ L.name }
    requires parts { blank.parts ≡ L.parts }
    requires some { 0 < L.parts }
{
    let mut steps: Steps<L> = Steps::new(blank);
    let mut block = sealed;
    key.decrypt(&mut block, &mut steps);
    block
}
