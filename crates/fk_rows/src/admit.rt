//! The call of fk_admit: whether a datagram is let in.
ghost use Rattle.std.specs.Prelude.{◌≡◌, ◌<◌};

use crate::access::good_access;
use crate::reading::{address, moment};
use crate::showing::{put_address, put_pairs};
use fk_access::Access;
use fk_admit::{AdmitFault, admit};
use fk_base::{Grant, Ip4, Moment, NoMemory, Steps};
use fk_row_text::{Answer, Arguments};
use std::alloc::Global;
use std::marker::Brand;
use std::sync::ledger::{Blank, Ledger};

/// How many seconds a stamp may lie from the moment.
const AGE: u32 = 120;

/// Makes the call of this name, where it is one of these.
pub(crate) fn call(
    alloc: Global,
    name: &[u8],
    arguments: &mut Arguments<'_>,
    answer: &mut Answer,
) -> bool {
    match name {
        b"admit" => call_admit(alloc, arguments, answer),
        _ => return false,
    }
    true
}

/// `admit ACCESS SOURCE MOMENT DATAGRAM`: the stanza, the address, the seconds and the pairs of the grant, or why there is none.
fn call_admit(alloc: Global, arguments: &mut Arguments<'_>, answer: &mut Answer) {
    let access = good_access(alloc, arguments);
    let source = address(arguments);
    let moment = moment(arguments);
    let datagram = arguments.text();
    let (Some(access), Some(moment)) = (access, moment) else {
        return;
    };
    put_admitted(
        &admitted::<Brand>(alloc, &access, source, moment, datagram, Blank::new(1)),
        answer,
    );
}

fn put_admitted(admitted: &Result<Grant, AdmitFault>, answer: &mut Answer) {
    match admitted {
        Ok(grant) => {
            answer.number(u64::from(grant.stanza));
            put_address(grant.ip, answer);
            answer.number(u64::from(grant.seconds));
            put_pairs(grant.pairs.as_slice(), answer);
        }
        Err(AdmitFault::Refused(why)) => answer.name(why),
        Err(AdmitFault::NoMemory) => answer.name(&NoMemory),
    }
}

fn admitted<L: Ledger>(
    alloc: Global,
    access: &Access,
    source: Ip4,
    moment: Moment,
    datagram: &[u8],
    blank: Blank,
) -> Result<Grant, AdmitFault>
    requires name { blank.name ≡ L.name }
    requires parts { blank.parts ≡ L.parts }
    requires some { 0 < L.parts }
{
    let mut steps: Steps<L> = Steps::new(blank);
    admit(alloc, access, AGE, source, datagram, moment, &mut steps)
}
