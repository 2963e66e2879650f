ghost use Rattle.std.specs.Prelude.{◌≡◌};
ghost use Rattle.fk_subst.specs.Template.{var_named};

/// What a name in a template stands for.
#[derive(Clone, Copy, Debug, PartialEq, Eq)]
pub enum Var {
    /// The address that is let in: `$IP`, `$SRC`.
    Ip,
    /// The address that the packet came from: `$PKT_SRC`.
    PktSrc,
    /// The port of the first pair: `$PORT`.
    Port,
    /// The protocol of the first pair: `$PROTO`.
    Proto,
    /// How long the client is let in, in seconds: `$TIMEOUT`.
    Timeout,
    /// All pairs, as `tcp/22,udp/53`: `$ACCESS`.
    Access,
}

/// What stands behind a `$`, if it is one of the names.
pub(crate) fn var_named(name: &[u8]) -> Option<Var>
    ensures { result ≡ var_named name.now }
{
    match name {
        b"IP" | b"SRC" => Some(Var::Ip),
        b"PKT_SRC" => Some(Var::PktSrc),
        b"PORT" => Some(Var::Port),
        b"PROTO" => Some(Var::Proto),
        b"TIMEOUT" => Some(Var::Timeout),
        b"ACCESS" => Some(Var::Access),
        _ => None,
    }
}
