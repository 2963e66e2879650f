use fk_base::NoMemory;

/// What is needed for a packet and not given, in the order in which it is tested.
#[derive(Clone, Copy, Debug, PartialEq, Eq)]
pub enum NeedFault {
    /// The client's file has no stanza of this name.
    NoStanza,
    NoServer,
    NoAccess,
    NoAllow,
    NoKey,
    NoHmacKey,
    NoMemory,
}

impl From<NoMemory> for NeedFault {
    ghost use Rattle.std.specs.Prelude.{◌≡◌};
    ghost use Rattle.fk_client.specs.declared.need_fault.NeedFault.TheVariants.{NoMemory as OutOfMemory};

    ghost from_gives = { λ _ e. e ≡ OutOfMemory };

    fn from(_: NoMemory) -> Self {
        NeedFault::NoMemory
    }
}
