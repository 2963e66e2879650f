use fk_base::NoMemory;
use std::alloc::{AllocError, AllocFailed};

/// Why a line of a session can't be carried out.
#[derive(Clone, Copy, Debug, PartialEq, Eq)]
pub enum Fault {
    /// It is no line of a session.
    NotUnderstood,
    /// It names something that is not there.
    Unknown,
    /// It names something that is there already.
    Twice,
    /// It asks for what can't be done where it stands.
    OutOfPlace,
    NoMemory,
}

impl Fault {
    pub fn text(self) -> &'static str {
        match self {
            Fault::NotUnderstood => "this line is not understood",
            Fault::Unknown => "what this line names is not there",
            Fault::Twice => "what this line names is there already",
            Fault::OutOfPlace => "this line cannot be carried out here",
            Fault::NoMemory => "there is no memory for this line",
        }
    }
}

impl From<NoMemory> for Fault {
    fn from(_: NoMemory) -> Self {
        Fault::NoMemory
    }
}

impl From<AllocError> for Fault {
    fn from(_: AllocError) -> Self {
        Fault::NoMemory
    }
}

impl<T: Drop> From<AllocFailed<T>> for Fault {
    fn from(_: AllocFailed<T>) -> Self {
        Fault::NoMemory
    }
}
