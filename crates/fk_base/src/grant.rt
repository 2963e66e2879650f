use crate::{Ip4, Pairs};

/// What a packet is let in for.
#[derive(Drop)]
pub struct Grant {
    /// The stanza that grants it, counted from 1.
    pub stanza: u32,
    /// The address that is let in.
    pub ip: Ip4,
    /// The address that the packet came from.
    pub src: Ip4,
    pub pairs: Pairs,
    /// How long the client is let in.
    pub seconds: u32,
    /// The packet's own time stamp, in seconds since the start of 1970.
    pub stamp: u64,
}
