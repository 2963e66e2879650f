ghost use Rattle.std.specs.Prelude.{◌<◌};

/// The two protocols whose ports can be asked for.
#[derive(Clone, Copy, Debug, PartialEq, Eq)]
pub enum Proto {
    Tcp,
    Udp,
}

/// A port of one protocol. No port is 0.
#[derive(Clone, Copy, Debug, PartialEq, Eq)]
pub struct Pair {
    pub proto: Proto,
    pub port: u16,
    ghost has_port: { 0 < port },
}

impl Pair {
    ghost use Rattle.std.specs.Prelude.{◌≡◌, ◌↔◌, IsNone, IfSome};

    /// `None` at port 0.
    pub fn new(proto: Proto, port: u16) -> Option<Self>
        ensures none { IsNone result ↔ (port ≡ 0) }
        ensures some { IfSome result (λ pair. (pair.proto ≡ proto) × (pair.port ≡ port)) }
    {
        if port == 0 {
            None
        } else {
            Some(Pair { proto, port })
        }
    }
}
