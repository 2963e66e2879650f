ghost use Rattle.std.specs.Prelude.{◌≡◌, ◌<◌, IfSome, find, true};
ghost use Rattle.std.specs.List.{list_all};
ghost use Rattle.std.specs.Option.{option_map};
ghost use Rattle.std.specs.Str.{bytes_eq};
ghost use Rattle.fk_base.specs.Characters.{is_line_byte};
ghost use Rattle.fk_values.specs.Given.{given_at, said_by};
ghost use Rattle.fk_conf.specs.RcTable.{allow_in, given_in, rc_names, rc_rule};

use fk_base::{Ip4, LONGEST_TIME, find_ip};
use fk_fields::is_user;
use fk_lines::Line;
use fk_values::{
    Given, MOST_SETTINGS, is_base64_key, is_host, is_key, read_hash_name, read_number, read_pairs,
};

/// A name of a stanza of the client's file.
#[derive(Clone, Copy)]
pub(crate) enum RcName {
    SpaServer,
    SpaServerPort,
    Access,
    AllowIp,
    Key,
    KeyBase64,
    HmacKey,
    HmacKeyBase64,
    HmacDigestType,
    DigestType,
    FwTimeout,
    SpoofUser,
    UseHmac,
}

const RC_NAMES: [RcName; 13] = [
    RcName::SpaServer,
    RcName::SpaServerPort,
    RcName::Access,
    RcName::AllowIp,
    RcName::Key,
    RcName::KeyBase64,
    RcName::HmacKey,
    RcName::HmacKeyBase64,
    RcName::HmacDigestType,
    RcName::DigestType,
    RcName::FwTimeout,
    RcName::SpoofUser,
    RcName::UseHmac,
];

impl RcName {
    /// The name that a line has.
    pub(crate) fn of(text: &[u8]) -> Option<Self>
        ensures { result ≡ find (λ name. bytes_eq (rc_rule name).name text.now) rc_names }
    {
        RC_NAMES.iter().copied().find(|name| name.text() == text)
    }

    pub(crate) fn text(self) -> &'static [u8]
        ensures { result.now ≡ (rc_rule self).name }
    {
        match self {
            RcName::SpaServer => b"SPA_SERVER",
            RcName::SpaServerPort => b"SPA_SERVER_PORT",
            RcName::Access => b"ACCESS",
            RcName::AllowIp => b"ALLOW_IP",
            RcName::Key => b"KEY",
            RcName::KeyBase64 => b"KEY_BASE64",
            RcName::HmacKey => b"HMAC_KEY",
            RcName::HmacKeyBase64 => b"HMAC_KEY_BASE64",
            RcName::HmacDigestType => b"HMAC_DIGEST_TYPE",
            RcName::DigestType => b"DIGEST_TYPE",
            RcName::FwTimeout => b"FW_TIMEOUT",
            RcName::SpoofUser => b"SPOOF_USER",
            RcName::UseHmac => b"USE_HMAC",
        }
    }

    /// The number of what it sets. The two spellings of a key set the same.
    pub(crate) fn number(self) -> usize
        ensures number { result ≡ (rc_rule self).sets }
        ensures within { result < MOST_SETTINGS }
    {
        match self {
            RcName::SpaServer => 0,
            RcName::SpaServerPort => 1,
            RcName::Access => 2,
            RcName::AllowIp => 3,
            RcName::Key | RcName::KeyBase64 => 4,
            RcName::HmacKey | RcName::HmacKeyBase64 => 5,
            RcName::HmacDigestType => 6,
            RcName::DigestType => 7,
            RcName::FwTimeout => 8,
            RcName::SpoofUser => 9,
            RcName::UseHmac => 10,
        }
    }

    /// Whether this can be its value. It takes no memory.
    pub(crate) fn is_value(self, value: &[u8]) -> bool
        ensures { result ≡ (rc_rule self).is_value value.now }
    {
        match self {
            RcName::SpaServer => is_host(value),
            RcName::SpaServerPort => read_number(value, 1, 65_535).is_some(),
            RcName::Access => read_pairs(value).is_some(),
            RcName::AllowIp => read_allow(value).is_some(),
            RcName::Key | RcName::HmacKey => is_key(value),
            RcName::KeyBase64 | RcName::HmacKeyBase64 => is_base64_key(value),
            RcName::HmacDigestType | RcName::DigestType => read_hash_name(value).is_some(),
            RcName::FwTimeout => read_number(value, 1, LONGEST_TIME).is_some(),
            RcName::SpoofUser => is_user(value),
            RcName::UseHmac => value == b"Y".as_slice(),
        }
    }

    /// The line of a stanza that sets what this name sets.
    pub(crate) fn line_in<'a>(self, given: &Given<'a>) -> Option<Line<'a>>
        ensures line { given_in (given_at given.now) self ≡ option_map said_by result }
        ensures bytes { IfSome result (λ line. list_all is_line_byte line.value.now ≡ true) }
    {
        given.get(self.number())
    }
}

/// The address to ask for: one that is given, or 0.0.0.0 for the one that the packet comes from.
pub(crate) fn read_allow(value: &[u8]) -> Option<Ip4>
    ensures { result ≡ allow_in value.now }
{
    if value == b"source".as_slice() {
        return Some(Ip4(0));
    }
    find_ip(value)
}
