//! The names under which a log tells the faults of the access file.
ghost use Rattle.std.specs.Prelude.{◌≡◌};
ghost use Rattle.fk_serve.specs.FaultNames.{access_fault_name};

use fk_access::AccessWhat;
use fk_conf::line_fault_name;

pub(crate) fn access_fault_name(what: AccessWhat) -> &'static [u8]
    ensures { result.now ≡ access_fault_name what }
{
    match what {
        AccessWhat::UnknownName => b"UnknownName",
        AccessWhat::Twice => b"Twice",
        AccessWhat::BadValue => b"BadValue",
        AccessWhat::NoSource => b"NoSource",
        AccessWhat::NoKey => b"NoKey",
        AccessWhat::NoHmacKey => b"NoHmacKey",
        AccessWhat::NoOpen => b"NoOpen",
        AccessWhat::NoClose => b"NoClose",
        AccessWhat::NoTimer => b"NoTimer",
        AccessWhat::TooMany => b"TooMany",
        AccessWhat::Line(fault) => line_fault_name(fault),
    }
}
