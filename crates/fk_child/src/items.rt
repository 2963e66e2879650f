ghost use Rattle.std.specs.Prelude.{◌≡◌, if◌then◌else◌};

use fk_base::Purpose;

/// What a poll found that did not find its child running.
#[derive(Clone, Copy, Debug, PartialEq, Eq)]
pub enum PollEnd {
    /// The child has ended well.
    Good,
    /// The child has ended otherwise.
    Bad,
    /// The poll failed, and the child counts as one that runs.
    Failed,
}

impl PollEnd {
    /// How a child has ended.
    pub(crate) fn of(good: bool) -> Self
        ensures { result ≡ (if good then PollEnd.Good else PollEnd.Bad) }
    {
        if good { PollEnd::Good } else { PollEnd::Bad }
    }
}

/// An end of a child, or a poll of it that failed.
#[derive(Clone, Copy, Debug, PartialEq, Eq)]
pub struct EndItem {
    /// What the child was started for.
    pub purpose: Purpose,
    pub end: PollEnd,
}

/// A close that was tried.
#[derive(Clone, Copy, Debug, PartialEq, Eq)]
pub struct Tried {
    /// The number of its record.
    pub id: u64,
    /// Whether its child began.
    pub begun: bool,
}
