//! Why a client comes to nothing, and the one line that says so.
ghost use Rattle.std.specs.Prelude.{◌≡◌, ◌∷◌, ◌++◌, []};
ghost use Rattle.std.specs.List.{flat_map};
ghost use Rattle.fk_log.specs.Printing.{sink_by};
ghost use Rattle.fk_client.specs.ClientText.{entropy_text, link_text, need_name, need_text};
ghost use Rattle.fk_client.specs.Faults.{Tells, fault_of};

use crate::NeedFault;
use crate::printing::say_line;
use fk_base::Status;
use fk_host::Sink;

/// Why a client comes to nothing.
#[derive(Clone, Copy)]
pub enum Refusal<'a> {
    /// Of the words or the file, or for want of memory.
    Common(fk_program::Refusal<'a>),
    /// What is needed and the file of this name does not give.
    Need { name: &'a [u8], what: &'static [u8] },
    Entropy,
    Link,
}

/// The name of what is needed.
pub(crate) fn need_name(fault: NeedFault) -> &'static [u8]
    ensures { result.now ≡ need_name fault }
{
    match fault {
        NeedFault::NoStanza => b"NoStanza",
        NeedFault::NoServer => b"NoServer",
        NeedFault::NoAccess => b"NoAccess",
        NeedFault::NoAllow => b"NoAllow",
        NeedFault::NoKey => b"NoKey",
        NeedFault::NoHmacKey => b"NoHmacKey",
        NeedFault::NoMemory => b"",
    }
}

/// Says the refusal. Where memory is wanting nothing is written.
pub fn refuse<K: Sink>(refusal: Refusal<'_>, out: &mut K) -> Status
    ensures { let at = sink_by K.Sink in Tells (fault_of refusal.entry) (at out.old) (at out.new) result }
{
    match refusal {
        Refusal::Common(refusal) => fk_program::refuse(refusal, out),
        Refusal::Need { name, what } => {
            say_line(&need_line(name, what), out);
            Status::Config
        }
        Refusal::Entropy => {
            say_line(&[b"entropy failed"], out);
            Status::EntropyFault
        }
        Refusal::Link => {
            say_line(&[b"link failed"], out);
            Status::LinkFault
        }
    }
}

/// What the file of this name does not give.
fn need_line<'a>(name: &'a [u8], what: &'a [u8]) -> [&'a [u8]; 4]
    ensures { flat_map (λ piece. piece.now) result ++ 10 ∷ [] ≡ need_text name.now what.now }
{
    [b"config ", name, b" need ", what]
}
