ghost use Rattle.std.specs.Prelude.{◌≡◌};
ghost use Rattle.fk_base.specs.HashKind.{text_len};

/// The five hashes that a digest or an HMAC may be of.
#[derive(Clone, Copy, Debug, PartialEq, Eq)]
pub enum HashKind {
    Md5,
    Sha1,
    Sha256,
    Sha384,
    Sha512,
}

impl HashKind {
    /// The length of the hash's unpadded base64, in letters.
    pub fn text_len(self) -> usize
        ensures { result ≡ text_len self }
    {
        match self {
            HashKind::Md5 => 22,
            HashKind::Sha1 => 27,
            HashKind::Sha256 => 43,
            HashKind::Sha384 => 64,
            HashKind::Sha512 => 86,
        }
    }
}
