//! What definitions name by a constant of the code. The function is a law, and does nothing.
ghost use Rattle.std.specs.Prelude.{◌≡◌};
ghost use Rattle.fk_host.specs.declared.feed.TheConstants.{DATAGRAM_ROOM};

/// How many bytes are taken of a datagram at most.
pub fn datagrams_have_their_room()
    ensures { DATAGRAM_ROOM ≡ 1501 }
{}
