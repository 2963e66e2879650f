/// Why a datagram is refused, in the order in which the tests are made.
#[derive(Clone, Copy, Debug, PartialEq, Eq)]
pub enum LogWhy {
    /// Its length or a letter of it is not a datagram's.
    Shape,
    /// It begins with the text that a datagram leaves out.
    Prefix,
    /// Its digest is recorded.
    Replay,
    /// No stanza covers its source.
    NoStanza,
    /// The stanza has expired.
    Expired,
    /// Its HMAC is not the key's.
    Mac,
    /// Its ciphertext does not open.
    Cipher,
    /// Its plaintext spells no packet.
    Plain,
    /// It asks for what is not served.
    Kind,
    /// Its stamp is too far from the moment.
    Age,
    /// It is of another user.
    User,
    /// It names no address.
    Source,
    /// It asks for a port that is not permitted.
    Port,
    /// Its stamp is below the floor.
    Stale,
    /// There is no room for its record.
    Full,
}
