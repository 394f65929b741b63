//! Laws of two relays after every list of events, and of the machine of each.

ghost use Rattle.std.specs.Prelude.{◌≡◌, ◌≤◌, ◌<◌, ◌++◌, ◌∷◌, [], ℕ, IsTrue, List, Some, drop, length, map, slice_get};
ghost use Rattle.rly_core.specs.declared.ids.HopId.{HopId};
ghost use Rattle.rly_core.specs.declared.ids.PeerId.{PeerId};
ghost use Rattle.rly_core.specs.declared.params.Params.{Params};
ghost use Rattle.rly_machine.specs.Fold.{fold};
ghost use Rattle.rly_machine.specs.Query.{query_reply};
ghost use Rattle.rly_machine.specs.State.{has_hop, has_peer, hop_at, last_at, new_state};
ghost use Rattle.rly_machine.specs.declared.command.Command.{Command};
ghost use Rattle.rly_world.specs.PairExchange.{datagram, exchange_packets, world_after_exchange};
ghost use Rattle.rly_world.specs.PairPayloads.{AreNumbered, IsPrefix, Numbered, number_and_payload, borne_by};
ghost use Rattle.rly_world.specs.PairPayloads.{picked_payloads, taken_payloads};
ghost use Rattle.rly_world.specs.PairWaits.{waiting_after, waiting_count};
ghost use Rattle.rly_world.specs.PairWorld.{IsPair, PairEvent, PairSetup, lastingly_picked, lastingly_taken, now_taken};
ghost use Rattle.rly_world.specs.PairWorld.{pair_after, pair_start, released_count};

use rly_machine::{Content, Query, Reply};

/// After any list of commands from a new spool, the accepted Takes of a peer are numbered 1, 2, 3, .., and the last
/// number taken from it is their count. Further commands only append to them.
pub fn law_taken<C: Content>()
    ensures numbered { (params : Params) (commands : List (Command C)) (peer : PeerId)
        → IsTrue (has_peer (new_state {P = C} params) peer)
        → AreNumbered (taken_payloads C.length_of peer (new_state params) commands) }
    ensures last { (params : Params) (commands : List (Command C)) (peer : PeerId)
        → IsTrue (has_peer (new_state {P = C} params) peer)
        → last_at (fold C.length_of (new_state params) commands) peer
        ≡ length (taken_payloads C.length_of peer (new_state params) commands) }
    ensures prefix { (params : Params) (commands more : List (Command C)) (peer : PeerId)
        → IsPrefix (taken_payloads C.length_of peer (new_state params) commands)
        (taken_payloads C.length_of peer (new_state params) (commands ++ more)) }
{}

/// After any list of commands from a new spool, the accepted Picks of a hop are numbered 1, 2, 3, .., and its flight,
/// with its payloads and limits, is the picked datagrams less the released ones. Further commands only append to the
/// picked ones.
pub fn law_flight<C: Content>()
    ensures numbered { (params : Params) (commands : List (Command C)) (hop : HopId)
        → IsTrue (has_hop (new_state {P = C} params) hop)
        → AreNumbered (picked_payloads C.length_of hop (new_state params) commands) }
    ensures flight { (params : Params) (commands : List (Command C)) (hop : HopId)
        → IsTrue (has_hop (new_state {P = C} params) hop)
        → borne_by (hop_at (fold C.length_of (new_state params) commands) hop).flight
        ≡ drop (hop_at (fold C.length_of (new_state params) commands) hop).released
        (map number_and_payload (picked_payloads C.length_of hop (new_state params) commands)) }
    ensures released { (params : Params) (commands : List (Command C)) (hop : HopId)
        → IsTrue (has_hop (new_state {P = C} params) hop)
        → (hop_at (fold C.length_of (new_state params) commands) hop).released
        ≤ length (picked_payloads C.length_of hop (new_state params) commands) }
    ensures prefix { (params : Params) (commands more : List (Command C)) (hop : HopId)
        → IsPrefix (picked_payloads C.length_of hop (new_state params) commands)
        (picked_payloads C.length_of hop (new_state params) (commands ++ more)) }
{}

/// A Fetch of the number of an accepted Pick returns its payload and limit, at once and after any further commands,
/// until it is released.
pub fn law_fetch()
    ensures { (params : Params) (commands more : List (Command (List ℕ))) (hop : HopId) (k : ℕ)
        (one : Numbered (List ℕ))
        → IsTrue (has_hop (new_state {P = List ℕ} params) hop)
        → slice_get (picked_payloads length hop (new_state params) commands) k ≡ Some one
        → (hop_at (fold length (new_state params) (commands ++ more)) hop).released < one.number
        → query_reply (fold length (new_state params) (commands ++ more)) (Query.Fetch hop one.number)
        ≡ Reply.Bytes one.payload one.limit }
{}

/// Two relays, both new at first, after any list of events: the datagrams that the lower has taken from the upper, in
/// order and with their numbers, are a prefix of those that the upper has durably picked for it; and the upper has
/// released at most the number that the lower has durably taken.
pub fn law_two()
    ensures order { (setup : PairSetup) (events : List PairEvent) → IsPair setup
        → IsPrefix (now_taken (pair_after (pair_start setup) events))
        (lastingly_picked (pair_after (pair_start setup) events)) }
    ensures released { (setup : PairSetup) (events : List PairEvent) → IsPair setup
        → released_count (pair_after (pair_start setup) events)
        ≤ length (lastingly_taken (pair_after (pair_start setup) events)) }
{}

/// Two relays whose workers wait for each reply before they continue are a special case of two relays: for each list of
/// events of the former, a list of events of the latter has the same result. At most one call waits at each end.
pub fn law_one_at_a_time()
    ensures case { (setup : PairSetup) (events : List PairEvent) → (fewer : List PairEvent)
        × (waiting_after (pair_start setup) events ≡ pair_after (pair_start setup) fewer) }
    ensures one { (setup : PairSetup) (events : List PairEvent)
        → (waiting_count (waiting_after (pair_start setup) events).upper ≤ 1)
        × (waiting_count (waiting_after (pair_start setup) events).lower ≤ 1) }
{}

/// A worked exchange, over the definitions of `law_two`: a datagram that arrives too early is taken later, a duplicate
/// isn't taken twice, and a lower relay that crashed before its reply, with the command or without it, replies to the
/// next copy.
pub fn law_exchange()
    ensures taken { (now_taken (world_after_exchange 2) ≡ datagram 1 ∷ datagram 2 ∷ [])
        × (now_taken (world_after_exchange 1) ≡ datagram 1 ∷ datagram 2 ∷ []) }
    ensures released { (released_count (world_after_exchange 2) ≡ 2) × (released_count (world_after_exchange 1) ≡ 2) }
    ensures packets { ((world_after_exchange 2).packets ≡ exchange_packets)
        × ((world_after_exchange 1).packets ≡ exchange_packets) }
{}
