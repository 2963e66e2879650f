ghost use Rattle.std.specs.Prelude.{◌≡◌, ◌+◌, ◌≤◌, MatchResult, None};
ghost use Rattle.fk_packet.specs.Pick.{blocks_under_each};
ghost use Rattle.fk_packet.specs.Shape.{shape_fault};
ghost use Rattle.fk_access.specs.Current.{is_current};
ghost use Rattle.fk_admit.specs.Conditions.{keys_at};
ghost use Rattle.fk_admit.specs.Private.{ArePicked, IsRingFault, arrival_of};

use crate::arriving::Arriving;
use crate::conditions::is_open_at;
use crate::opening::{Opening, try_keys};
use crate::{AdmitFault, Refusal};
use fk_access::{Stanza, TimedKeys};
use fk_base::Steps;
use fk_fields::Fields;
use std::alloc::Global;
use std::sync::ledger::Ledger;

/// The fields under the first keys of a stanza that open a plaintext, or what fails.
pub(crate) fn pick_fields<L: Ledger>(
    alloc: Global,
    stanza: &Stanza,
    arriving: Arriving<'_>,
    steps: &mut Steps<L>,
) -> Result<Fields, AdmitFault>
    requires { shape_fault arriving.datagram.now ≡ None }
    ensures fields { MatchResult result (ArePicked stanza.now (arrival_of arriving.entry)) (IsRingFault stanza.now (arrival_of arriving.entry)) }
    ensures least_steps { steps.old ≤ steps.new }
    ensures most_steps { steps.new ≤ steps.old + blocks_under_each (keys_at stanza.now (arrival_of arriving.entry)) arriving.entry.datagram.now }
{
    let mut first = None;
    for at in 0..stanza.ring.count() {
        let timed = stanza.ring.get(at);
        if !is_current(timed, arriving.moment) {
            continue;
        }
        match try_keys(alloc, arriving.datagram, &timed.keys, steps) {
            Opening::Opened(fields) => return Ok(fields),
            Opening::OtherType => return Err(AdmitFault::Refused(Refusal::Kind)),
            Opening::Failed(why) => first = first.or(Some(why)),
            Opening::OtherHmac => {}
            Opening::NoMemory => return Err(AdmitFault::NoMemory),
        }
    }
    Err(AdmitFault::Refused(first.unwrap_or(Refusal::Mac)))
}

/// Whether a pair of keys is in use at this moment.
fn is_current(timed: &TimedKeys, moment: u64) -> bool
    ensures { result ≡ is_current moment timed.now }
{
    is_open_at(timed.until, moment)
}
