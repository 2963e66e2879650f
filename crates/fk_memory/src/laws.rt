ghost use Rattle.std.specs.Prelude.{◌≡◌, ℕ, Bool, ◌+◌, false, true, Some, Ok, IsTrue};
ghost use Rattle.fk_trace.specs.Trace.{Event};
ghost use Rattle.fk_trace.specs.Trace.Event.{Turn, Ended};
ghost use Rattle.fk_host.specs.Host.{is_running};
ghost use Rattle.fk_memory.specs.Children.{Children, above_children, start_answer, poll_answer, children_after, IsUnscripted, BeganEarlier};

/// Where nothing is scripted, a host in memory begins a child at each start, with the next number, and finds at each poll that a
/// child of an earlier turn has ended well. It stays so with every call, and behind a turn's beginning every child is of an earlier
/// turn until the next one begins.
pub fn unscripted_children_end_well()
    ensures starts { (children : Children) → IsUnscripted children → start_answer false children ≡ Ok (record { 0 = children.begun + 1 }) }
    ensures polls { (children : Children) (number : ℕ) → IsUnscripted children → BeganEarlier children → IsTrue (is_running number (above_children children))
        → poll_answer false number children ≡ Ok (Some true) }
    ensures stays { (event : Event) (children : Children) → IsUnscripted children → IsUnscripted (children_after event children) }
    ensures turns { (number : ℕ) (children : Children) → IsUnscripted children → BeganEarlier (children_after (Turn number) children) }
    ensures ends { (number : ℕ) (good : Bool) (children : Children) → BeganEarlier children → BeganEarlier (children_after (Ended number good) children) }
{}
