ghost use Rattle.std.specs.Prelude.{◌≡◌};
ghost use Rattle.fk_access.specs.AccessWhat.{access_what};

use fk_base::NoMemory;
use fk_lines::LineFault;
use fk_values::SettingFault;

/// What is wrong with an access file.
#[derive(Clone, Copy, Debug, PartialEq, Eq)]
pub enum AccessWhat {
    UnknownName,
    /// The name stood in this stanza before; that of a key, of an HMAC's key or of its hash behind the last KEYS_UNTIL.
    Twice,
    BadValue,
    /// A setting before the first SOURCE line.
    NoSource,
    NoKey,
    NoHmacKey,
    NoOpen,
    NoClose,
    NoTimer,
    /// A 257th stanza, or a fifth pair of keys in one.
    TooMany,
    Line(LineFault),
}

/// Why there is no access list.
#[derive(Clone, Copy, Debug, PartialEq, Eq)]
pub enum AccessErr {
    /// The line is counted from 1: where something is lacking that of the KEYS_UNTIL, or of the SOURCE at the stanza's end.
    Fault { line: u32, what: AccessWhat },
    NoMemory,
}

impl From<NoMemory> for AccessErr {
    ghost use Rattle.std.specs.Prelude.{◌≡◌};
    ghost use Rattle.fk_access.specs.declared.access_err.AccessErr.TheVariants.{NoMemory as OutOfMemory};

    ghost from_gives = { λ _ e. e ≡ OutOfMemory };

    fn from(_: NoMemory) -> Self {
        AccessErr::NoMemory
    }
}

/// The fault of a line as the file tells it.
pub(crate) fn access_what(fault: SettingFault) -> AccessWhat
    ensures { result ≡ access_what fault }
{
    match fault {
        SettingFault::Line(fault) => AccessWhat::Line(fault),
        SettingFault::UnknownName => AccessWhat::UnknownName,
        SettingFault::Twice => AccessWhat::Twice,
        SettingFault::BadValue => AccessWhat::BadValue,
    }
}
