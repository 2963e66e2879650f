use fk_base::{Ip4, Moment};

/// What a turn was taken for.
#[derive(Clone, Copy)]
pub enum FeedInput<'a> {
    /// Nothing but the time.
    Quiet,
    /// A datagram, from this source.
    Datagram { source: Ip4, bytes: &'a [u8] },
}

/// A turn as it is handed in, with the bytes of its datagram.
#[derive(Clone, Copy)]
pub struct FeedTurn<'a> {
    pub moment: Moment,
    pub input: FeedInput<'a>,
}
