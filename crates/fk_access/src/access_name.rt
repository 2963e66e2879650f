ghost use Rattle.std.specs.Prelude.{◌≡◌, ◌<◌, IfSome, find, true};
ghost use Rattle.std.specs.List.{list_all};
ghost use Rattle.std.specs.Option.{option_map};
ghost use Rattle.std.specs.Str.{bytes_eq};
ghost use Rattle.fk_base.specs.Characters.{is_line_byte};
ghost use Rattle.fk_values.specs.Given.{given_at, said_by};
ghost use Rattle.fk_access.specs.AccessTable.{access_names, access_rule, given_in};
ghost use Rattle.fk_access.specs.KeyPairs.{is_of_pair};

use crate::net_list::is_net_list;
use crate::pair_list::read_pairs;
use crate::sources::are_sources;
use fk_base::{GREATEST_MOMENT, LONGEST_TIME};
use fk_lines::Line;
use fk_subst::is_template;
use fk_values::{
    Given, MOST_SETTINGS, is_base64_key, is_key, read_flag, read_hash_name, read_number,
};

/// A name of an access file.
#[derive(Clone, Copy)]
pub(crate) enum AccessName {
    Source,
    OpenPorts,
    RestrictPorts,
    Key,
    KeyBase64,
    HmacKey,
    HmacKeyBase64,
    HmacDigestType,
    RequireUsername,
    RequireSourceAddress,
    AccessExpireEpoch,
    CmdCycleOpen,
    CmdCycleClose,
    CmdCycleTimer,
    FwAccessTimeout,
    KeysUntil,
}

const ACCESS_NAMES: [AccessName; 16] = [
    AccessName::Source,
    AccessName::OpenPorts,
    AccessName::RestrictPorts,
    AccessName::Key,
    AccessName::KeyBase64,
    AccessName::HmacKey,
    AccessName::HmacKeyBase64,
    AccessName::HmacDigestType,
    AccessName::RequireUsername,
    AccessName::RequireSourceAddress,
    AccessName::AccessExpireEpoch,
    AccessName::CmdCycleOpen,
    AccessName::CmdCycleClose,
    AccessName::CmdCycleTimer,
    AccessName::FwAccessTimeout,
    AccessName::KeysUntil,
];

impl AccessName {
    /// The name that a line has.
    pub(crate) fn of(text: &[u8]) -> Option<Self>
        ensures { result ≡ find (λ name. bytes_eq (access_rule name).name text.now) access_names }
    {
        ACCESS_NAMES
            .iter()
            .copied()
            .find(|name| name.text() == text)
    }

    pub(crate) fn text(self) -> &'static [u8]
        ensures { result.now ≡ (access_rule self).name }
    {
        match self {
            AccessName::Source => b"SOURCE",
            AccessName::OpenPorts => b"OPEN_PORTS",
            AccessName::RestrictPorts => b"RESTRICT_PORTS",
            AccessName::Key => b"KEY",
            AccessName::KeyBase64 => b"KEY_BASE64",
            AccessName::HmacKey => b"HMAC_KEY",
            AccessName::HmacKeyBase64 => b"HMAC_KEY_BASE64",
            AccessName::HmacDigestType => b"HMAC_DIGEST_TYPE",
            AccessName::RequireUsername => b"REQUIRE_USERNAME",
            AccessName::RequireSourceAddress => b"REQUIRE_SOURCE_ADDRESS",
            AccessName::AccessExpireEpoch => b"ACCESS_EXPIRE_EPOCH",
            AccessName::CmdCycleOpen => b"CMD_CYCLE_OPEN",
            AccessName::CmdCycleClose => b"CMD_CYCLE_CLOSE",
            AccessName::CmdCycleTimer => b"CMD_CYCLE_TIMER",
            AccessName::FwAccessTimeout => b"FW_ACCESS_TIMEOUT",
            AccessName::KeysUntil => b"KEYS_UNTIL",
        }
    }

    /// The number of what it sets. The two spellings of a key set the same.
    pub(crate) fn number(self) -> usize
        ensures number { result ≡ (access_rule self).sets }
        ensures within { result < MOST_SETTINGS }
    {
        match self {
            AccessName::Source => 0,
            AccessName::OpenPorts => 1,
            AccessName::RestrictPorts => 2,
            AccessName::Key | AccessName::KeyBase64 => 3,
            AccessName::HmacKey | AccessName::HmacKeyBase64 => 4,
            AccessName::HmacDigestType => 5,
            AccessName::RequireUsername => 6,
            AccessName::RequireSourceAddress => 7,
            AccessName::AccessExpireEpoch => 8,
            AccessName::CmdCycleOpen => 9,
            AccessName::CmdCycleClose => 10,
            AccessName::CmdCycleTimer => 11,
            AccessName::FwAccessTimeout => 12,
            AccessName::KeysUntil => 13,
        }
    }

    /// Whether it is one of a pair of keys, and does not count for another pair.
    pub(crate) fn is_of_pair(self) -> bool
        ensures { result ≡ is_of_pair (access_rule self).sets }
    {
        match self {
            AccessName::Key
            | AccessName::KeyBase64
            | AccessName::HmacKey
            | AccessName::HmacKeyBase64
            | AccessName::HmacDigestType
            | AccessName::KeysUntil => true,
            _ => false,
        }
    }

    /// Whether this can be its value. It takes no memory.
    pub(crate) fn is_value(self, value: &[u8]) -> bool
        ensures { result ≡ (access_rule self).is_value value.now }
    {
        match self {
            AccessName::Source => are_sources(value),
            AccessName::OpenPorts | AccessName::RestrictPorts => read_pairs(value).is_some(),
            AccessName::Key | AccessName::HmacKey => is_key(value),
            AccessName::KeyBase64 | AccessName::HmacKeyBase64 => is_base64_key(value),
            AccessName::HmacDigestType => read_hash_name(value).is_some(),
            AccessName::RequireUsername => 1 <= value.len() && value.len() <= 64,
            AccessName::RequireSourceAddress => read_flag(value).is_some(),
            AccessName::AccessExpireEpoch | AccessName::KeysUntil => {
                read_number(value, 0, GREATEST_MOMENT).is_some()
            }
            AccessName::CmdCycleOpen => is_template(value),
            AccessName::CmdCycleClose => value != b"NONE".as_slice() && is_template(value),
            AccessName::CmdCycleTimer => read_number(value, 1, LONGEST_TIME).is_some(),
            AccessName::FwAccessTimeout => read_number(value, 0, u64::MAX).is_some(),
        }
    }

    /// The line of a stanza that sets what this name sets.
    pub(crate) fn line_in<'a>(self, given: &Given<'a>) -> Option<Line<'a>>
        ensures line { given_in (given_at given.now) self ≡ option_map said_by result }
        ensures bytes { IfSome result (λ line. list_all is_line_byte line.value.now ≡ true) }
    {
        given.get(self.number())
    }
}
