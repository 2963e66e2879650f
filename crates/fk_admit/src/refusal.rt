/// Why a datagram is not let in, in the order in which it is tested.
#[derive(Clone, Copy, Debug, PartialEq, Eq)]
pub enum Refusal {
    /// It has fewer than 140 or more than 1500 bytes, or a byte that is no letter of base64.
    Shape,
    /// It begins with the ten letters that are left out.
    Prefix,
    /// No stanza serves its source.
    NoStanza,
    /// The stanza's last moment is over.
    Expired,
    /// Its end is not the HMAC of its text.
    Mac,
    /// The key opens no plaintext from it.
    Cipher,
    /// The plaintext is none.
    Plain,
    /// The type of request is not served.
    Kind,
    /// Its stamp is too far from the moment.
    Age,
    /// It is of another user.
    User,
    /// It names no address, and the stanza wants one.
    Source,
    /// It asks for a pair that may not be opened.
    Port,
}

/// Why nothing is granted.
#[derive(Clone, Copy, Debug, PartialEq, Eq)]
pub enum AdmitFault {
    Refused(Refusal),
    NoMemory,
}
