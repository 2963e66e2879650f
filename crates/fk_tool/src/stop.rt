/// Why no further line is answered.
#[derive(Clone, Copy, Debug, PartialEq, Eq)]
pub(crate) enum Stop {
    End,
    BadLine,
    LongInput,
    ReadFault,
    EntropyFault,
    NoMemory,
}
