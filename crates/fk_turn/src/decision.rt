//! What a datagram is answered, before the room for its record is tested; and its record.
ghost use Rattle.std.specs.Prelude.{◌≡◌, ◌+◌, ◌<◌, ◌≤◌, false, length, Ok, IfOk, MatchResult, OnErr, None};
ghost use Rattle.fk_admit.specs.Admit.{admitted, blocks_in_all, refusal_of_shape};
ghost use Rattle.fk_admit.specs.AdmitFault.{IsAdmitFault};
ghost use Rattle.fk_admit.specs.Arrival.{arrival};
ghost use Rattle.fk_base.specs.CommandWords.{AreCommandWords};
ghost use Rattle.fk_trace.specs.Ledger.{is_seen};
ghost use Rattle.fk_ledger.specs.Payloads.{greatest_stamp};
ghost use Rattle.fk_turn.specs.Parts.{IsGrantedBy, IsRefusedBy};
ghost use Rattle.fk_turn.specs.Rules.{permit_of, rules_by, why_of};

use crate::Policy;
use fk_admit::{AdmitFault, Refusal, admit};
use fk_base::{Digest, Grant, Ip4, Moment, NoMemory, Steps, Words};
use fk_ledger::Ledger;
use fk_mac::packet_digest;
use fk_packet::{PacketShape, shape};
use fk_subst::fill;
use fk_trace::{LogWhy, OpenRecord};
use std::alloc::Global;
use std::marker::Brand;
use std::sync::ledger::{Blank, Ledger as Counts};

/// What a datagram is answered, before the room for its record is tested.
#[derive(Drop)]
pub(crate) enum Decision {
    Refused(LogWhy),
    Granted(Grant),
}

/// Tests a datagram in the order of the refusals: its shape, whether it is recorded, what the stanzas say of it, and the floor. No
/// memory is asked for before the first two.
pub(crate) fn decide(
    alloc: Global,
    policy: &Policy<'_>,
    ledger: &Ledger,
    moment: Moment,
    source: Ip4,
    bytes: &[u8],
) -> Result<Decision, NoMemory>
    ensures refused { (why : LogWhy) → result ≡ Ok (Decision.Refused why) → IsRefusedBy policy.now ledger.now.changes moment source bytes.now why }
    ensures granted { (grant : Grant) → result ≡ Ok (Decision.Granted grant) → IsGrantedBy policy.now ledger.now.changes moment source bytes.now grant }
    ensures formed { OnErr result ((rules_by policy.now).misshapen bytes.now ≡ None) }
    ensures fresh { OnErr result (is_seen ((rules_by policy.now).digest bytes.now) ledger.now.changes ≡ false) }
    // Memory is asked for only behind a right HMAC.
    ensures code { OnErr result (0 < blocks_in_all policy.now.access.now (arrival policy.now.conf.now.age source bytes.now moment)) }
{
    if let Err(fault) = shape(bytes) {
        return Ok(Decision::Refused(why_of_shape(fault)));
    }
    if ledger.seen(&packet_digest(bytes)) {
        return Ok(Decision::Refused(LogWhy::Replay));
    }
    match ask_stanzas::<Brand>(alloc, policy, moment, source, bytes, Blank::new(1)) {
        Ok(grant) if grant.stamp < ledger.floor() => Ok(Decision::Refused(LogWhy::Stale)),
        Ok(grant) => Ok(Decision::Granted(grant)),
        Err(AdmitFault::Refused(refusal)) => Ok(Decision::Refused(why_of(refusal))),
        Err(AdmitFault::NoMemory) => Err(NoMemory),
    }
}

/// Asks the stanzas for a grant. The steps of the cipher are counted, and the count is of no use here.
fn ask_stanzas<L: Counts>(
    alloc: Global,
    policy: &Policy<'_>,
    moment: Moment,
    source: Ip4,
    bytes: &[u8],
    blank: Blank,
) -> Result<Grant, AdmitFault>
    requires name { blank.name ≡ L.name }
    requires parts { blank.parts ≡ L.parts }
    requires some { 0 < L.parts }
    ensures verdict { MatchResult result
        (λ grant. admitted policy.now.access.now (arrival policy.now.conf.now.age source bytes.now moment) ≡ Ok grant)
        (IsAdmitFault policy.now.access.now (arrival policy.now.conf.now.age source bytes.now moment)) }
    ensures stanza { IfOk result (λ grant. (1 ≤ grant.stanza) × (grant.stanza ≤ length policy.now.access.now)) }
    ensures stamp { IfOk result (λ grant. grant.stamp ≤ greatest_stamp) }
{
    let mut steps: Steps<L> = Steps::new(blank);
    admit(
        alloc,
        policy.access,
        policy.conf.age,
        source,
        bytes,
        moment,
        &mut steps,
    )
}

fn why_of_shape(fault: PacketShape) -> LogWhy
    ensures { result ≡ why_of (refusal_of_shape fault) }
{
    match fault {
        PacketShape::Size | PacketShape::Alphabet(_) => LogWhy::Shape,
        PacketShape::Prefix => LogWhy::Prefix,
    }
}

fn why_of(refusal: Refusal) -> LogWhy
    ensures { result ≡ why_of refusal }
{
    match refusal {
        Refusal::Shape => LogWhy::Shape,
        Refusal::Prefix => LogWhy::Prefix,
        Refusal::NoStanza => LogWhy::NoStanza,
        Refusal::Expired => LogWhy::Expired,
        Refusal::Mac => LogWhy::Mac,
        Refusal::Cipher => LogWhy::Cipher,
        Refusal::Plain => LogWhy::Plain,
        Refusal::Kind => LogWhy::Kind,
        Refusal::Age => LogWhy::Age,
        Refusal::User => LogWhy::User,
        Refusal::Source => LogWhy::Source,
        Refusal::Port => LogWhy::Port,
    }
}

/// The record of a granted datagram, and the words of its open.
#[derive(Drop)]
pub(crate) struct Draft {
    pub(crate) item: OpenRecord,
    pub(crate) opening: Words,
}

/// Fills both commands of the stanza that grants.
pub(crate) fn make_draft(
    alloc: Global,
    policy: &Policy<'_>,
    id: u64,
    digest: Digest,
    moment: Moment,
    grant: &Grant,
) -> Result<Draft, NoMemory>
    requires { (1 ≤ grant.now.stanza) × (grant.now.stanza ≤ length policy.now.access.now) }
    ensures item { IfOk result (λ draft. let permit = permit_of policy.now.access.now grant.now in
        draft.item ≡ record { id = id; digest = digest; stamp = permit.stamp; moment = moment; due = moment + permit.seconds; ip = permit.ip; pair = permit.pair; close = permit.closing }) }
    ensures opening { IfOk result (λ draft. draft.opening ≡ (permit_of policy.now.access.now grant.now).opening) }
    ensures words { IfOk result (λ draft. AreCommandWords draft.item.close × AreCommandWords draft.opening) }
{
    let stanza = policy.access.get(grant.stanza as usize - 1);
    let opening = fill(alloc, &stanza.opening, grant)?;
    let close = fill(alloc, &stanza.closing, grant)?;
    let item = OpenRecord {
        id,
        digest,
        stamp: grant.stamp,
        moment,
        due: moment.get() + u64::from(grant.seconds),
        ip: grant.ip,
        pair: grant.pairs.first(),
        close,
    };
    Ok(Draft { item, opening })
}
