use fk_base::{Digest, Ip4, Moment, Pair, Words};

/// A granted datagram, as it is recorded before its open is started.
#[derive(Drop)]
pub struct OpenRecord {
    /// Records are numbered from 1, without a gap.
    pub id: u64,
    /// The digest of the datagram that was granted.
    pub digest: Digest,
    /// The seconds at which the packet says that it was made.
    pub stamp: u64,
    /// When it was granted.
    pub moment: Moment,
    /// The second at which its close is due.
    pub due: u64,
    /// The client that was let in.
    pub ip: Ip4,
    /// The first port that was asked for.
    pub pair: Pair,
    /// The words of the close command.
    pub close: Words,
}

/// One change of the ledger.
#[derive(Drop)]
pub enum Change {
    /// A datagram was granted and is recorded.
    Open(OpenRecord),
    /// The record of this number is closed for good.
    Done(u64),
    /// Of a record that was closed for good, what refuses its datagram.
    Settled {
        /// The record's number.
        id: u64,
        /// The stamp of its packet.
        stamp: u64,
        /// The digest of its datagram.
        digest: Digest,
    },
    /// A journal begins anew here, without what is below this floor. It stands first, or not at all.
    Floor {
        /// Packets with a stamp below it are refused, since their digests may be gone.
        floor: u64,
        /// The number of the next record.
        next: u64,
    },
}
