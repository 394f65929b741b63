//! Laws over the definitions: functions with an empty body whose contract is the law.

ghost use Rattle.std.specs.Prelude.{◌≡◌, ◌≢◌, ◌+◌, ◌<◌, ◌≤◌, ◌++◌, ℕ, IsTrue, List, Some, false, map, max, slice_get};
ghost use Rattle.std.specs.Prelude.{true};
ghost use Rattle.std.specs.List.{flat_map};
ghost use Rattle.rly_core.specs.Limits.{IsWithinLimits};
ghost use Rattle.rly_core.specs.declared.params.Params.{Params};
ghost use Rattle.rly_core.specs.declared.ids.HopId.{HopId};
ghost use Rattle.rly_machine.specs.Custody.{KeepsCustody, times, account_along};
ghost use Rattle.rly_machine.specs.Expiry.{expired_count, is_expired};
ghost use Rattle.rly_machine.specs.Fold.{fold};
ghost use Rattle.rly_machine.specs.Map.{KeepsLengths, map_command, map_state, payload_of, payloads_of};
ghost use Rattle.rly_machine.specs.Relocate.{carried_at, state_with_relocated};
ghost use Rattle.rly_machine.specs.Sound.{IsSound};
ghost use Rattle.rly_machine.specs.State.{HopState, State, has_hop, hop_at, live_line, new_state};
ghost use Rattle.rly_machine.specs.Step.{step};
ghost use Rattle.rly_machine.specs.declared.command.Command.{Command};
ghost use Rattle.rly_machine.specs.declared.hop.Item.{Item};

use crate::content::Content;

/// After any list of commands from a new spool the counts add up: each datagram that a hop took waits, is in flight,
/// was dropped, expired or was released, the peers' sequence numbers add up to the hops' counts, and each limit holds.
pub fn law_balance<C: Content>()
    ensures { (params : Params) (commands : List (Command C)) → IsWithinLimits params
        → IsSound C.length_of (fold C.length_of (new_state params) commands) }
{}

/// The datagrams that expire at a pick are the longest prefix of the queue whose items have all expired: the next item,
/// if there is one, has not.
pub fn law_expiry<C: Content>()
    ensures all { (h : HopState C) (now k : ℕ) (item : Item C) → k < expired_count h now
        → slice_get h.queue k ≡ Some item
        → is_expired (max now h.moment) item ≡ true }
    ensures ends { (h : HopState C) (now : ℕ) (item : Item C) → slice_get h.queue (expired_count h now) ≡ Some item
        → is_expired (max now h.moment) item ≡ false }
{}

/// The step commutes with a map of payloads that keeps the lengths of the state's payloads and of the command's: the
/// reply is the same, and the map keeps the lengths of the new state's payloads. The same holds for every list of
/// commands. Nothing is required of other payloads.
pub fn law_map<P: Content, Q: Content>()
    ensures steps { (f : P → Q) (s : State P) (command : Command P)
        → KeepsLengths P.length_of Q.length_of f (payloads_of s ++ payload_of command)
        → step Q.length_of (map_state f s) (map_command f command)
        ≡ (map_state f (step P.length_of s command).0, (step P.length_of s command).1) }
    ensures keeps { (f : P → Q) (s : State P) (command : Command P)
        → KeepsLengths P.length_of Q.length_of f (payloads_of s ++ payload_of command)
        → KeepsLengths P.length_of Q.length_of f (payloads_of (step P.length_of s command).0) }
    ensures folds { (f : P → Q) (s : State P) (commands : List (Command P))
        → KeepsLengths P.length_of Q.length_of f (payloads_of s ++ flat_map payload_of commands)
        → fold Q.length_of (map_state f s) (map (map_command f) commands) ≡ map_state f (fold P.length_of s commands) }
{}

/// If the new content of a live item maps to the same payload as the old, its relocation leaves the mapped state
/// unchanged.
pub fn law_relocate<P: Content, Q: Content>()
    ensures { (f : P → Q) (s : State P) (hop : HopId) (index : ℕ) (content : P)
        → carried_at f (live_line (hop_at s hop)) index ≡ Some (f content)
        → map_state f (state_with_relocated s hop index content) ≡ map_state f s }
{}

/// After any list of commands from a new spool, at each hop: each id that was replied as Taken waits, was dropped,
/// expired or went into flight, and was taken once; the datagrams in flight are those that went into flight less those
/// that were released; and custody numbers rise by one. No id is taken at two hops.
pub fn law_custody<C: Content>()
    ensures kept { (params : Params) (commands : List (Command C)) (hop : HopId)
        → IsTrue (has_hop (new_state {P = C} params) hop)
        → KeepsCustody (hop_at (fold C.length_of (new_state params) commands) hop)
        (account_along C.length_of hop (new_state params) commands) }
    ensures apart { (params : Params) (commands : List (Command C)) (hop other : HopId) (id : ℕ) → hop ≢ other
        → times id (account_along C.length_of hop (new_state params) commands).taken
        + times id (account_along C.length_of other (new_state params) commands).taken ≤ 1 }
{}
