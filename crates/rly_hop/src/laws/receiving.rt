ghost use Rattle.std.specs.Prelude.{◌≡◌, ℕ, List, ◌∷◌, length, Option, Some, None};
ghost use Rattle.std.specs.List.{AllByRecursion};
ghost use Rattle.rly_core.specs.Refusals.{number_of};
ghost use Rattle.rly_core.specs.declared.refusal.Refusal.{Refusal};
ghost use Rattle.rly_hop.specs.declared.message.StationId.{StationId};
ghost use Rattle.rly_hop.specs.declared.receiving.event.InEvent.{InEvent};
ghost use Rattle.rly_hop.specs.Receiving.{receiver, receiving_step};
ghost use Rattle.rly_hop.specs.ReceivingRuns.{IsCustodyDue, IsHeard, in_action_after, in_actions, last_take};
ghost use Rattle.rly_hop.specs.ReceivingRuns.{receiver_after};

use crate::message::Message;
use crate::receiving::{InAction, InEvent, TakeAnswer};

/// After any events, a receiving core sends custody of the numbers up to n, from its own station to its peer
/// station, only on the answer to a Take: Taken, where n is the number of the last Take that it requested, Already
/// n, or the gap right after n.
pub fn law_custody_follows_an_answer()
    ensures { (own peer from to : StationId) (before : List (InEvent (List ℕ))) (event : InEvent (List ℕ)) (n : ℕ) →
        in_action_after own peer before event ≡ Some (InAction.Send (Message.Custody from to n)) →
        (from ≡ own) × (to ≡ peer) × IsCustodyDue (last_take None (in_actions (receiver own peer) before)) event n }
{}

/// After any events, a receiving core sends a refusal of a number only after that refusal answered the last Take
/// that it requested.
pub fn law_refused_follows_an_answer()
    ensures { (own peer from to : StationId) (before : List (InEvent (List ℕ))) (event : InEvent (List ℕ))
        (n told : ℕ) →
        in_action_after own peer before event ≡ Some (InAction.Send (Message.Refused from to n told)) →
        (from ≡ own) × (to ≡ peer) × (last_take None (in_actions (receiver own peer) before) ≡ Some n)
        × ((refusal : Refusal) × (event ≡ InEvent.Answered (TakeAnswer.Refused refusal)) × (told ≡ number_of refusal)) }
{}

/// After any events, a receiving core requests the Take of a number, a limit and a payload only on receiving
/// exactly that Data from its peer station, addressed to its own.
pub fn law_take_follows_data()
    ensures { (own peer : StationId) (before : List (InEvent (List ℕ))) (event : InEvent (List ℕ)) (n limit : ℕ)
        (payload : List ℕ) →
        in_action_after own peer before event ≡ Some (InAction.Take n limit payload) →
        event ≡ InEvent.Heard (Message.Data peer own n limit payload) }
{}

/// A receiving core requests at most one action per event, and after a Take none until the answer comes.
pub fn law_nothing_is_named_while_an_answer_is_due()
    ensures one { (own peer : StationId) (events : List (InEvent (List ℕ)))
        → length (in_actions (receiver own peer) events) ≡ length events }
    ensures none { (own peer : StationId) (before heard : List (InEvent (List ℕ))) (event : InEvent (List ℕ))
        (n limit : ℕ) (payload : List ℕ) →
        in_action_after own peer before event ≡ Some (InAction.Take n limit payload) →
        AllByRecursion IsHeard heard →
        AllByRecursion (λ named. named ≡ None)
        (in_actions (receiving_step (receiver_after (receiver own peer) before) event).0 heard) }
{}
