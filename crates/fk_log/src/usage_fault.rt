/// Why the words of a command line are no command. Places are counted from 1.
#[derive(Clone, Copy, Debug, PartialEq, Eq)]
pub enum UsageFault {
    /// The word at this place is no option.
    Unknown(u64),
    /// No value follows the option at this place.
    NoValue(u64),
    /// The option at this place stood before.
    Twice(u64),
    /// The word at this place is no value of the option before it.
    BadValue(u64),
    /// The options together ask for nothing.
    Modes,
}
