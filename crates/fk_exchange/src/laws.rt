ghost use Rattle.std.specs.Prelude.{◌≡◌, ℕ, List, Some, slice_get};
ghost use Rattle.fk_base.specs.declared.grant.Grant.{Grant};
ghost use Rattle.fk_access.specs.declared.stanza.Stanza.{Stanza};
ghost use Rattle.fk_admit.specs.Admit.{granted_by};
ghost use Rattle.fk_admit.specs.Arrival.{Arrival};
ghost use Rattle.fk_admit.specs.Conditions.{picked_by};
ghost use Rattle.fk_exchange.specs.Granted.{grant_for, IsLetIn};
ghost use Rattle.fk_exchange.specs.Permits.{Permits};
ghost use Rattle.fk_exchange.specs.Request.{Arrives, IsDatagramOf, Request};
ghost use Rattle.fk_exchange.specs.Sendable.{IsSendable};
ghost use Rattle.fk_exchange.specs.Shape.{HasShape};

/// Whatever a client sends has the shape that is asked for before any key.
pub fn requests_have_shape()
    ensures { (request : Request) (datagram : List ℕ) → IsDatagramOf request datagram → HasShape datagram }
{}

/// A request that arrives within the age is granted by each stanza that permits it, with exactly what it asks for. A file with
/// such a stanza lets it in, by that stanza or by one before it.
pub fn what_is_permitted_is_granted()
    ensures grants { (request : Request) (arrival : Arrival) (stanza : Stanza) → Arrives request arrival → Permits stanza request arrival
        → (number : ℕ) → granted_by number stanza arrival ≡ Some (grant_for number stanza request arrival.source) }
    ensures admits { (request : Request) (arrival : Arrival) (stanza : Stanza) → Arrives request arrival → Permits stanza request arrival
        → (access : List Stanza) (place : ℕ) → slice_get access place ≡ Some stanza → IsLetIn access place arrival }
{}

/// A stanza grants a request under its keys in no other case.
pub fn only_what_is_permitted_is_granted()
    ensures { (request : Request) (arrival : Arrival) (stanza : Stanza) → IsDatagramOf request arrival.datagram
        → picked_by stanza arrival ≡ Some request.settings.keys → (number : ℕ) (grant : Grant) → granted_by number stanza arrival ≡ Some grant
        → Arrives request arrival × Permits stanza request arrival }
{}

/// Each request that a client can make has a datagram: the laws above speak of something.
pub fn every_request_has_a_datagram()
    ensures { (request : Request) → IsSendable request → (datagram : List ℕ) × IsDatagramOf request datagram }
{}
