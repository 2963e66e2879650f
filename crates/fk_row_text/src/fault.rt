use fk_base::NoMemory;
use std::alloc::AllocError;

/// Why a row has no answer.
#[derive(Clone, Copy, Debug, PartialEq, Eq)]
pub enum RowFault {
    /// A text is not closed, or has an escape, a digit or a number that is none.
    BadText,
    /// No text has this name.
    UnknownName,
    /// A text has this name already.
    NameTwice,
    /// A definition is no `let NAME = TEXT`.
    BadDefinition,
    /// A line begins with a blank and continues no row.
    LooseLine,
    /// No call has this name.
    UnknownCall,
    /// One argument more is wanted.
    Missing,
    /// One argument is too many.
    Further,
    /// A text is wanted in the place of a word.
    NoText,
    /// A word is wanted in the place of a text, or another word.
    NoWord,
    /// A number is wanted, or a smaller one.
    NoNumber,
    /// The call may not be made with these arguments.
    Barred,
    NoMemory,
}

impl From<NoMemory> for RowFault {
    fn from(_: NoMemory) -> Self {
        RowFault::NoMemory
    }
}

impl From<AllocError> for RowFault {
    fn from(_: AllocError) -> Self {
        RowFault::NoMemory
    }
}

impl RowFault {
    /// What is told of it.
    pub(crate) fn reason(self) -> &'static [u8] {
        match self {
            RowFault::BadText =>
                b"a text is not closed, or has an escape, a digit or a number that is none",
            RowFault::UnknownName => b"no text has this name",
            RowFault::NameTwice => b"a text has this name already",
            RowFault::BadDefinition => b"a definition is written let NAME = TEXT",
            RowFault::LooseLine => b"the line continues no row",
            RowFault::UnknownCall => b"no call has this name",
            RowFault::Missing => b"an argument is missing",
            RowFault::Further => b"an argument is too many",
            RowFault::NoText => b"an argument is no text",
            RowFault::NoWord => b"an argument is no such word",
            RowFault::NoNumber => b"an argument is no number, or is too large",
            RowFault::Barred => b"the call may not be made with these arguments",
            RowFault::NoMemory => b"memory is wanting",
        }
    }
}
