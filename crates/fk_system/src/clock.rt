ghost use Rattle.std.specs.Prelude.{◌≡◌, min};

use fk_base::{GREATEST_MOMENT, Moment};
use std::time::{Clock, SystemTime, UNIX_EPOCH};

/// The moment by the system's clock, in whole seconds. A clock that is set before 1970, or that gives no time, counts as the start
/// of 1970, and one past the greatest moment as that moment.
pub fn system_moment<R: Clock>(clock: &R) -> Moment {
    moment_of(seconds(clock).unwrap_or(0))
}

fn seconds<R: Clock>(clock: &R) -> Option<u64> {
    let now = SystemTime::now(clock).ok()?;
    let since = now.duration_since(UNIX_EPOCH).ok()?;
    Some(since.as_secs())
}

fn moment_of(seconds: u64) -> Moment
    ensures { result ≡ min seconds GREATEST_MOMENT }
{
    Moment::new(seconds.min(GREATEST_MOMENT)).unwrap()
}
