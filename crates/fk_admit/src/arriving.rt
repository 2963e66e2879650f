use fk_base::Ip4;

/// A datagram as it arrives.
#[derive(Clone, Copy)]
pub(crate) struct Arriving<'a> {
    /// How many seconds its stamp may lie from the moment, on either side.
    pub(crate) age: u32,
    /// Where it comes from.
    pub(crate) source: Ip4,
    pub(crate) datagram: &'a [u8],
    /// When it comes, in seconds since the start of 1970.
    pub(crate) moment: u64,
}
