/// What is wrong with a line. The length is tested first, then the bytes, then that there is a value.
#[derive(Clone, Copy, Debug, PartialEq, Eq)]
pub enum LineFault {
    /// No value stands behind the name.
    NoValue,
    /// A byte is neither a tab nor from 0x20 to 0x7e.
    BadByte,
    /// More than 2000 bytes stand between the blanks at the line's ends.
    TooLong,
}
