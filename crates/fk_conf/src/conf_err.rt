ghost use Rattle.std.specs.Prelude.{◌≡◌};
ghost use Rattle.fk_conf.specs.ConfWhat.{conf_what};

use fk_lines::LineFault;
use fk_values::SettingFault;

/// What is wrong with a line of a file of settings.
#[derive(Clone, Copy, Debug, PartialEq, Eq)]
pub enum ConfWhat {
    UnknownName,
    Twice,
    BadValue,
    /// A setting before the first stanza. The daemon's configuration has no stanzas.
    NoStanza,
    /// One stanza more than there may be.
    TooMany,
    Line(LineFault),
}

/// Why a file has no settings.
#[derive(Clone, Copy, Debug, PartialEq, Eq)]
pub enum ConfErr {
    /// The line is counted from 1.
    Fault { line: u32, what: ConfWhat },
    NoMemory,
}

/// The fault of a line as its file tells it.
pub(crate) fn conf_what(fault: SettingFault) -> ConfWhat
    ensures { result ≡ conf_what fault }
{
    match fault {
        SettingFault::Line(fault) => ConfWhat::Line(fault),
        SettingFault::UnknownName => ConfWhat::UnknownName,
        SettingFault::Twice => ConfWhat::Twice,
        SettingFault::BadValue => ConfWhat::BadValue,
    }
}
