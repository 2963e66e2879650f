//! A host: the disk, and above it turns and children.
ghost use Rattle.std.specs.Prelude.{◌≡◌, ◌<◌, Some, IsTrue, IfOk, length};
ghost use Rattle.fk_trace.specs.Trace.Event.{Turn};
ghost use Rattle.fk_host.specs.Host.{brought_by_start, brought_by_poll, CallsAbove, above_after, above_by, is_running};

use crate::Disk;
use fk_base::{Failed, NoMemory, Purpose, Words};
use std::alloc::AllocError;

/// The number of a child. Later children of a host have greater numbers.
#[derive(Clone, Copy, Debug, PartialEq, Eq)]
pub struct ChildId(pub u64);

/// Why a child is not started.
#[derive(Clone, Copy, Debug, PartialEq, Eq)]
pub enum StartErr {
    /// The command could not be started.
    Failed,
    NoMemory,
}

impl From<NoMemory> for StartErr {
    ghost use Rattle.std.specs.Prelude.{◌≡◌};
    ghost use Rattle.fk_host.specs.declared.host.StartErr.TheVariants.{NoMemory as OutOfMemory};

    ghost from_gives = { λ _ e. e ≡ OutOfMemory };

    fn from(_: NoMemory) -> Self {
        StartErr::NoMemory
    }
}

impl From<AllocError> for StartErr {
    ghost use Rattle.std.specs.Prelude.{◌≡◌};
    ghost use Rattle.fk_host.specs.declared.host.StartErr.TheVariants.{NoMemory as OutOfMemory};

    ghost from_gives = { λ _ e. e ≡ OutOfMemory };

    fn from(_: AllocError) -> Self {
        StartErr::NoMemory
    }
}

/// A host. Each of its calls, failed ones too, is one moment and leaves the areas, and where the host tells, what the call brought
/// is the new end of its trace. Which children run is said by every host.
pub trait Host: Disk {
    /// Marks that a turn begins, the one of this number.
    fn turn(&mut self, number: u64)
        ensures call { CallsAbove Self.told Self.may_leave Self.faults (Some (Turn number)) self.old self.new }
        ensures above { Self.above self.new ≡ above_after (Turn number) (Self.above self.old) }
        ensures disk { Self.faults self.new ≡ Self.faults self.old };

    /// Starts a child: the first word is the command, the others are its arguments. Where memory is wanting nothing is begun and
    /// nothing is told.
    fn start(&mut self, purpose: Purpose, words: &Words) -> Result<ChildId, StartErr>
        requires { 0 < length words.now }
        ensures number { IfOk result (λ child. (Self.above self.old).last_child < child.0) }
        ensures call { CallsAbove Self.told Self.may_leave Self.faults (brought_by_start purpose words.now result) self.old self.new }
        ensures above { Self.above self.new ≡ above_by (brought_by_start purpose words.now result) (Self.above self.old) }
        ensures disk { Self.faults self.new ≡ Self.faults self.old };

    /// Whether a child has ended, and if so whether it ended well. `None` is a child that runs. After a failed poll, too, it counts
    /// as one that runs.
    fn poll(&mut self, child: ChildId) -> Result<Option<bool>, Failed>
        requires { IsTrue (is_running child.0 (Self.above self.old)) }
        ensures call { CallsAbove Self.told Self.may_leave Self.faults (brought_by_poll child.0 result) self.old self.new }
        ensures above { Self.above self.new ≡ above_by (brought_by_poll child.0 result) (Self.above self.old) }
        ensures disk { Self.faults self.new ≡ Self.faults self.old };
}
