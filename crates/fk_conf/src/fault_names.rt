//! The names under which the programs tell what is wrong with a line of a file of settings.
ghost use Rattle.std.specs.Prelude.{◌≡◌};
ghost use Rattle.fk_conf.specs.FaultNames.{conf_fault_name, line_fault_name};

use crate::ConfWhat;
use fk_lines::LineFault;

/// The name of what is wrong with a line of the configuration or of the client's file.
pub fn conf_fault_name(what: ConfWhat) -> &'static [u8]
    ensures { result.now ≡ conf_fault_name what }
{
    match what {
        ConfWhat::UnknownName => b"UnknownName",
        ConfWhat::Twice => b"Twice",
        ConfWhat::BadValue => b"BadValue",
        ConfWhat::NoStanza => b"NoStanza",
        ConfWhat::TooMany => b"TooMany",
        ConfWhat::Line(fault) => line_fault_name(fault),
    }
}

/// The name of what makes a line none with a name and a value, in each file of settings.
pub fn line_fault_name(fault: LineFault) -> &'static [u8]
    ensures { result.now ≡ line_fault_name fault }
{
    match fault {
        LineFault::NoValue => b"NoValue",
        LineFault::BadByte => b"BadByte",
        LineFault::TooLong => b"TooLong",
    }
}
