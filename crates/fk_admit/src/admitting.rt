ghost use Rattle.std.specs.Prelude.{◌≡◌, ◌+◌, ◌≤◌, IfOk, IsSome, MatchResult, None, Ok, length};
ghost use Rattle.fk_packet.specs.Shape.{shape_fault};
ghost use Rattle.fk_admit.specs.Admit.{admitted, blocks_in_all, refusal_of_shape};
ghost use Rattle.fk_admit.specs.AdmitFault.{IsAdmitFault};
ghost use Rattle.fk_admit.specs.Arrival.{arrival};
ghost use Rattle.fk_admit.specs.Private.{arrival_of};

use crate::arriving::Arriving;
use crate::conditions::serves;
use crate::judging::judge;
use crate::{AdmitFault, Refusal};
use fk_access::Access;
use fk_base::{Grant, Ip4, Moment, Steps};
use fk_packet::{PacketShape, shape};
use std::alloc::Global;
use std::sync::ledger::Ledger;

/// What is granted for a datagram that comes at this moment from `src`, by the first stanza that grants, or why nothing is.
/// Its stamp may lie up to `age` seconds from the moment. Memory is wanting only behind a right HMAC.
pub fn admit<L: Ledger>(
    alloc: Global,
    access: &Access,
    age: u32,
    src: Ip4,
    datagram: &[u8],
    moment: Moment,
    steps: &mut Steps<L>,
) -> Result<Grant, AdmitFault>
    ensures verdict { MatchResult result
        (λ grant. admitted access.now (arrival age src datagram.now moment) ≡ Ok grant)
        (IsAdmitFault access.now (arrival age src datagram.now moment)) }
    ensures stanza { IfOk result (λ grant. (1 ≤ grant.stanza) × (grant.stanza ≤ length access.now)) }
    ensures stamp { IfOk result (λ grant. (grant.stamp ≤ moment + age) × (moment ≤ grant.stamp + age)) }
    ensures shape_steps { IsSome (shape_fault datagram.now) → steps.new ≡ steps.old }
    ensures least_steps { steps.old ≤ steps.new }
    ensures most_steps { steps.new ≤ steps.old + blocks_in_all access.now (arrival age src datagram.now moment) }
{
    if let Err(fault) = shape(datagram) {
        return Err(AdmitFault::Refused(refusal_of_shape(fault)));
    }
    let arriving = Arriving {
        age,
        source: src,
        datagram,
        moment: moment.get(),
    };
    try_stanzas(alloc, access, arriving, steps)
}

/// The first grant of the stanzas for a datagram of the right shape.
fn try_stanzas<L: Ledger>(
    alloc: Global,
    access: &Access,
    arriving: Arriving<'_>,
    steps: &mut Steps<L>,
) -> Result<Grant, AdmitFault>
    requires { shape_fault arriving.datagram.now ≡ None }
    ensures verdict { MatchResult result
        (λ grant. admitted access.now (arrival_of arriving.entry) ≡ Ok grant)
        (IsAdmitFault access.now (arrival_of arriving.entry)) }
    ensures stanza { IfOk result (λ grant. (1 ≤ grant.stanza) × (grant.stanza ≤ length access.now)) }
    ensures stamp { IfOk result (λ grant. (grant.stamp ≤ arriving.entry.moment + arriving.entry.age) × (arriving.entry.moment ≤ grant.stamp + arriving.entry.age)) }
    ensures least_steps { steps.old ≤ steps.new }
    ensures most_steps { steps.new ≤ steps.old + blocks_in_all access.now (arrival_of arriving.entry) }
{
    let mut first = None;
    for at in 0..access.count() {
        let stanza = access.get(at);
        if !serves(&stanza.sources, arriving.source) {
            continue;
        }
        match judge(alloc, at as u32 + 1, stanza, arriving, steps) {
            Ok(grant) => return Ok(grant),
            Err(AdmitFault::Refused(why)) => first = first.or(Some(why)),
            Err(AdmitFault::NoMemory) => return Err(AdmitFault::NoMemory),
        }
    }
    Err(AdmitFault::Refused(first.unwrap_or(Refusal::NoStanza)))
}

fn refusal_of_shape(fault: PacketShape) -> Refusal
    ensures { result ≡ refusal_of_shape fault }
{
    match fault {
        PacketShape::Size | PacketShape::Alphabet(_) => Refusal::Shape,
        PacketShape::Prefix => Refusal::Prefix,
    }
}
