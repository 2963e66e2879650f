ghost use Rattle.std.specs.Prelude.{◌≡◌, ◌<◌, ◌^◌, MatchResult, None, Some};
ghost use Rattle.std.specs.List.{list_all};
ghost use Rattle.fk_base.specs.Pairs.{IsPairs};
ghost use Rattle.fk_fields.specs.FieldText.{is_printable, is_user, is_version, is_version_byte};

use crate::Rand;
use fk_base::{Bytes, GREATEST_MOMENT, HashKind, Ip4, LONGEST_TIME, Pairs};

/// What a packet asks for. The address 0.0.0.0 stands for the one that the packet comes from.
#[derive(Drop)]
pub enum Ask {
    Access { ip: Ip4, pairs: Pairs },
    /// For this many seconds, 1 to `LONGEST_TIME`.
    Timed { ip: Ip4, pairs: Pairs, seconds: u32 },
}

/// What a packet says.
#[derive(Drop)]
pub struct Fields {
    pub rand: Rand,
    /// 1 to 64 bytes from 0x20 to 0x7e.
    pub user: Bytes,
    /// When it was made: a moment in seconds, at most `GREATEST_MOMENT`.
    pub stamp: u64,
    /// 1 to 16 digits and dots.
    pub version: Bytes,
    pub ask: Ask,
    /// The hash of the digest that stands in the plaintext.
    pub kind: HashKind,
}

/// Which field is outside its rule, in the order in which they are tested.
#[derive(Clone, Copy, Debug, PartialEq, Eq)]
pub enum FieldFault {
    User,
    Stamp,
    Version,
    Timeout,
}

impl Fields {
    ghost use Rattle.fk_fields.specs.Fields.{IsFields, field_fault};

    /// The first field that is outside its rule.
    pub fn check(&self) -> Result<(), FieldFault>
        ensures { MatchResult result (λ _. field_fault self.now ≡ None) (λ e. field_fault self.now ≡ Some e) }
    {
        if !is_user(self.user.as_slice()) {
            return Err(FieldFault::User);
        }
        if self.stamp > GREATEST_MOMENT {
            return Err(FieldFault::Stamp);
        }
        if !is_version(self.version.as_slice()) {
            return Err(FieldFault::Version);
        }
        if !self.ask.has_timeout() {
            return Err(FieldFault::Timeout);
        }
        Ok(())
    }

    /// What the types keep of checked fields.
    pub fn keep_rules(&self)
        requires { field_fault self.now ≡ None }
        ensures { IsFields self.now }
    {
        let _ = self.rand.digits();
        self.ask.keep_bounds();
    }
}

impl Ask {
    ghost use Rattle.fk_fields.specs.Fields.{asked_ip, asked_pairs, has_timeout};

    fn has_timeout(&self) -> bool
        ensures { result ≡ has_timeout self.now }
    {
        match self {
            Ask::Access { .. } => true,
            Ask::Timed { seconds, .. } => 1 <= *seconds && u64::from(*seconds) <= LONGEST_TIME,
        }
    }

    fn keep_bounds(&self)
        ensures address { (asked_ip self.now).0 < 2 ^ 32 }
        ensures pairs { IsPairs (asked_pairs self.now) }
    {
        match self {
            Ask::Access { ip, pairs } => keep_both(*ip, pairs),
            Ask::Timed { ip, pairs, .. } => keep_both(*ip, pairs),
        }
    }
}

/// 1 to 64 printable bytes.
pub fn is_user(name: &[u8]) -> bool
    ensures { result ≡ is_user name.now }
{
    1 <= name.len() && name.len() <= 64 && are_printable(name)
}

fn are_printable(name: &[u8]) -> bool
    ensures { result ≡ list_all is_printable name.now }
{
    name.iter().all(|byte| 0x20 <= *byte && *byte <= 0x7e)
}

/// 1 to 16 digits and dots.
pub fn is_version(text: &[u8]) -> bool
    ensures { result ≡ is_version text.now }
{
    1 <= text.len() && text.len() <= 16 && are_version_bytes(text)
}

fn are_version_bytes(text: &[u8]) -> bool
    ensures { result ≡ list_all is_version_byte text.now }
{
    text.iter()
        .all(|byte| byte.is_ascii_digit() || *byte == b'.')
}

fn keep_both(ip: Ip4, pairs: &Pairs)
    ensures address { ip.0 < 2 ^ 32 }
    ensures pairs { IsPairs pairs.now }
{
    let _ = (ip.0, pairs.count());
}
