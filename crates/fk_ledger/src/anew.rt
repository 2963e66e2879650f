//! A ledger that begins anew: what of it stays, how many bytes that takes, and the changes in memory.
ghost use Rattle.std.specs.Prelude.{◌≡◌, ◌+◌, ◌<◌, ◌∷◌, None, IfSome, nat_le, if◌then◌else◌, length, map, vec_capacity};
ghost use Rattle.std.specs.List.{AllByRecursion, filter_map, sum_by};
ghost use Rattle.std.specs.Option.{option_to_list};
ghost use Rattle.fk_trace.specs.declared.change.Change.TheVariants.{Floor};
ghost use Rattle.fk_ledger.specs.Payloads.{IsChange};
ghost use Rattle.fk_ledger.specs.Anew.{cost, kept_as, settled_as, stays};

use crate::writing::record_len;
use fk_trace::Change;

/// How a record comes into the journal.
#[derive(Clone, Copy)]
pub(crate) enum Way {
    /// Behind the others.
    Behind,
    /// The journal begins anew with this floor before.
    Anew(u64),
}

/// How many of so many bytes are left where what stays with this floor takes its part, or nothing where it takes more.
pub(crate) fn room_left(changes: &[Change], live: &[u64], floor: u64, room: u64) -> Option<u64>
    requires { AllByRecursion IsChange changes.now }
    ensures some { IfSome result (λ left. left + sum_by cost (filter_map (kept_as floor live.now) changes.now) ≡ room) }
    ensures none { result ≡ None → room < sum_by cost (filter_map (kept_as floor live.now) changes.now) }
{
    let mut left = room;
    for change in changes {
        left = left.checked_sub(kept_len(change, live, floor))?;
    }
    Some(left)
}

/// How many bytes what stays of the change takes.
fn kept_len(change: &Change, live: &[u64], floor: u64) -> u64
    requires { IsChange change.now }
    ensures { result ≡ sum_by cost (option_to_list (kept_as floor live.now change.now)) }
{
    match change {
        Change::Open(item) => {
            if live.contains(&item.id) {
                6 + record_len(item) as u64
            } else {
                settled_len(item.stamp, floor)
            }
        }
        Change::Done(_) => 0,
        Change::Settled { stamp, .. } => settled_len(*stamp, floor),
        Change::Floor { .. } => 0,
    }
}

fn settled_len(stamp: u64, floor: u64) -> u64
    ensures { result ≡ (if nat_le floor stamp then 54 else 0) }
{
    if floor <= stamp { 54 } else { 0 }
}

/// Lets the changes begin anew with this floor. There is room for one more, so no memory is taken.
pub(crate) fn begin_anew(changes: &mut Vec<Change>, live: &[u64], floor: u64, next: u64)
    requires { length changes.old.items < vec_capacity changes.old }
    ensures items { changes.new.items ≡ Floor floor next ∷ filter_map (kept_as floor live.now) changes.old.items }
    ensures capacity { vec_capacity changes.new ≡ vec_capacity changes.old }
{
    settle_closed(changes, live);
    changes.retain(|change| stays(change, floor));
    let _fits = changes.insert(0, Change::Floor { floor, next });
}

/// Puts a Settled in place of each record that is not live.
fn settle_closed(changes: &mut Vec<Change>, live: &[u64])
    ensures items { changes.new.items ≡ map (settled_as live.now) changes.old.items }
    ensures capacity { vec_capacity changes.new ≡ vec_capacity changes.old }
{
    for change in changes.iter_mut() {
        settle_one(change, live);
    }
}

fn settle_one(change: &mut Change, live: &[u64])
    ensures { change.new ≡ settled_as live.now change.old }
{
    let settled = match change {
        Change::Open(item) => {
            if live.contains(&item.id) {
                return;
            }
            Change::Settled {
                id: item.id,
                stamp: item.stamp,
                digest: item.digest,
            }
        }
        _ => return,
    };
    *change = settled;
}

fn stays(change: &Change, floor: u64) -> bool
    ensures { result ≡ stays floor change.now }
{
    match change {
        Change::Open(_) => true,
        Change::Done(_) => false,
        Change::Settled { stamp, .. } => floor <= *stamp,
        Change::Floor { .. } => false,
    }
}
