/// What is wrong with a line of an input.
#[derive(Clone, Copy, Debug, PartialEq, Eq)]
pub enum LineFault {
    /// The line has more than 1600 bytes, or is no line of the program's input.
    BadLine,
    /// The input passes 67108864 bytes in this line.
    TooLong,
}

/// The first fault of an input.
#[derive(Clone, Copy, Debug, PartialEq, Eq)]
pub struct Fault {
    /// The line, counted from 1.
    pub line: u64,
    pub what: LineFault,
}
