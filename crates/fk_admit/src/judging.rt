ghost use Rattle.std.specs.Prelude.{◌≡◌, ◌+◌, ◌≤◌, IfOk, MatchResult, None, Some};
ghost use Rattle.std.specs.Option.{option_map};
ghost use Rattle.fk_base.specs.FirstFailed.{first_failed};
ghost use Rattle.fk_packet.specs.Shape.{shape_fault};
ghost use Rattle.fk_admit.specs.Admit.{fields_by, grant_of, served_blocks};
ghost use Rattle.fk_admit.specs.Conditions.{served_tests};
ghost use Rattle.fk_admit.specs.Private.{IsServedFault, arrival_of};

use crate::arriving::Arriving;
use crate::conditions::{field_refusal, is_open_at};
use crate::granting::grant_of;
use crate::picking::pick_fields;
use crate::{AdmitFault, Refusal};
use fk_access::Stanza;
use fk_base::{Grant, Steps};
use std::alloc::Global;
use std::sync::ledger::Ledger;

/// What a stanza that serves the source grants, or the first condition that fails.
pub(crate) fn judge<L: Ledger>(
    alloc: Global,
    number: u32,
    stanza: &Stanza,
    arriving: Arriving<'_>,
    steps: &mut Steps<L>,
) -> Result<Grant, AdmitFault>
    requires { shape_fault arriving.datagram.now ≡ None }
    ensures passed { IfOk result (λ _. first_failed (served_tests stanza.now (arrival_of arriving.entry)) ≡ None) }
    ensures grant { IfOk result (λ grant. option_map (grant_of number stanza.now (arrival_of arriving.entry)) (fields_by stanza.now (arrival_of arriving.entry)) ≡ Some grant) }
    ensures number { IfOk result (λ grant. grant.stanza ≡ number) }
    ensures stamp { IfOk result (λ grant. (grant.stamp ≤ arriving.entry.moment + arriving.entry.age) × (arriving.entry.moment ≤ grant.stamp + arriving.entry.age)) }
    ensures fault { MatchResult result (λ _. Unit {0}) (IsServedFault stanza.now (arrival_of arriving.entry)) }
    ensures least_steps { steps.old ≤ steps.new }
    ensures most_steps { steps.new ≤ steps.old + served_blocks (arrival_of arriving.entry) stanza.now }
{
    if !is_open_at(stanza.expire, arriving.moment) {
        return Err(AdmitFault::Refused(Refusal::Expired));
    }
    let fields = match pick_fields(alloc, stanza, arriving, steps) {
        Ok(fields) => fields,
        Err(fault) => return Err(fault),
    };
    match field_refusal(stanza, arriving, &fields) {
        Some(why) => Err(AdmitFault::Refused(why)),
        None => Ok(grant_of(number, stanza, arriving, fields)),
    }
}
