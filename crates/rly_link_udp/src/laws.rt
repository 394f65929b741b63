//! What follows from the steps of a bell.

ghost use Rattle.std.specs.Prelude.{◌≡◌, ◌∷◌, ◌++◌, List, false, true};
ghost use Rattle.std.specs.List.{AllByRecursion};
ghost use Rattle.rly_link_udp.specs.Bells.{Bell, BellStep, HasRing, Keeps, Listens, Stores, bell_steps};

/// No datagram is left behind: if a worker asked something while it was awake, and a datagram was stored for it after
/// that, then at each later step up to the end of its next sleep, whatever the order of the steps, it is awake, or its
/// counter may be read, which ends the sleep, or the one that stored the datagram is about to write it.
pub fn law_stored_datagram_ends_the_sleep()
    ensures { (b : Bell) (before after : List BellStep) → b.sleeps ≡ false →
        AllByRecursion Keeps before → AllByRecursion Keeps after →
        (bell_steps b (Listens ∷ before ++ Stores ∷ after)).sleeps ≡ true →
        HasRing (bell_steps b (Listens ∷ before ++ Stores ∷ after)) }
{}
