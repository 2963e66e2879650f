/// How far a serving run goes at most. `None` stands for no limit on its datagrams, and for as many turns as a number of 63
/// bits says.
#[derive(Clone, Copy, Debug, PartialEq, Eq)]
pub struct Limits {
    /// The datagrams that it takes, refused ones counted.
    pub packets: Option<u64>,
    /// The turns that it takes.
    pub turns: Option<u64>,
}
