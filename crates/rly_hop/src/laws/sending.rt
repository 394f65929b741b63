ghost use Rattle.std.specs.Prelude.{◌≡◌, ℕ, ◌≤◌, ◌<◌, List, Some, None};
ghost use Rattle.rly_hop.specs.declared.message.StationId.{StationId};
ghost use Rattle.rly_hop.specs.declared.sending.event.OutEvent.{OutEvent};
ghost use Rattle.rly_hop.specs.Sender.{IsInOrder, Sender};
ghost use Rattle.rly_hop.specs.Sending.{repeat_action, sender, sending_step};
ghost use Rattle.rly_hop.specs.SendingRuns.{IsGiven, IsHeardInFlight, IsInFlight, IsSent, out_action_after};
ghost use Rattle.rly_hop.specs.SendingRuns.{sender_after};

use crate::message::Message;
use crate::sending::{OutAction, OutEvent};

/// After any events, a sending core requests the release of a number only if its hop's station acknowledged exactly
/// this number while it was in the flight known to the core, and the number is still in that flight.
pub fn law_release_was_acknowledged()
    ensures acknowledged { (own hop : StationId) (window : ℕ) (before : List (OutEvent (List ℕ)))
        (event : OutEvent (List ℕ)) (n : ℕ) →
        out_action_after own hop window before event ≡ Some (OutAction.Release n) →
        IsHeardInFlight (sender own hop window) before n }
    ensures in_flight { (own hop : StationId) (window : ℕ) (before : List (OutEvent (List ℕ)))
        (event : OutEvent (List ℕ)) (n : ℕ) →
        out_action_after own hop window before event ≡ Some (OutAction.Release n) →
        IsInFlight (sender_after (sender own hop window) before) n }
{}

/// After any events, a sending core requests the fetch of a number only if a window or a pick was answered with
/// that number.
pub fn law_fetch_was_given()
    ensures { (own hop : StationId) (window : ℕ) (before : List (OutEvent (List ℕ))) (event : OutEvent (List ℕ))
        (n : ℕ) →
        out_action_after own hop window before event ≡ Some (OutAction.Fetch n) →
        IsGiven before n }
{}

/// After any events, a sending core sends a Data only from its own station to its hop's station, on the answer that
/// returned the payload and the limit of its number, and only if a window or a pick was answered with that number.
pub fn law_data_is_what_was_fetched()
    ensures fetched { (own hop from to : StationId) (window : ℕ) (before : List (OutEvent (List ℕ)))
        (event : OutEvent (List ℕ))
        (n limit : ℕ) (payload : List ℕ) →
        out_action_after own hop window before event ≡ Some (OutAction.Send (Message.Data from to n limit payload)) →
        (from ≡ own) × (to ≡ hop) × (event ≡ OutEvent.Fetched n limit payload) }
    ensures given { (own hop from to : StationId) (window : ℕ) (before : List (OutEvent (List ℕ)))
        (event : OutEvent (List ℕ))
        (n limit : ℕ) (payload : List ℕ) →
        out_action_after own hop window before event ≡ Some (OutAction.Send (Message.Data from to n limit payload)) →
        IsGiven before n }
{}

/// After any events, the cursor of a sending core is in the flight that it knows or right after it, and the number
/// that it knows as acknowledged is in that flight.
pub fn law_cursor_is_in_order()
    ensures { (own hop : StationId) (window : ℕ) (events : List (OutEvent (List ℕ)))
        → IsInOrder (sender_after (sender own hop window) events) }
{}

/// After any events, a sending core sends a number again only as a Data from its own station to its hop's station, and
/// only if the number is in the flight known to the core and the core sent it on the answer that fetched it. Since
/// then neither a window nor a `Timeout` set the core back to the first number of its flight.
pub fn law_repeat_was_sent()
    ensures message { (own hop : StationId) (window : ℕ) (events : List (OutEvent (List ℕ))) (n limit : ℕ)
        (payload : List ℕ) (action : OutAction (List ℕ)) →
        repeat_action (sender_after (sender own hop window) events) n limit payload ≡ Some action →
        action ≡ OutAction.Send (Message.Data own hop n limit payload) }
    ensures in_flight { (own hop : StationId) (window : ℕ) (events : List (OutEvent (List ℕ))) (n limit : ℕ)
        (payload : List ℕ) (action : OutAction (List ℕ)) →
        repeat_action (sender_after (sender own hop window) events) n limit payload ≡ Some action →
        IsInFlight (sender_after (sender own hop window) events) n }
    ensures sent { (own hop : StationId) (window : ℕ) (events : List (OutEvent (List ℕ))) (n limit : ℕ)
        (payload : List ℕ) (action : OutAction (List ℕ)) →
        repeat_action (sender_after (sender own hop window) events) n limit payload ≡ Some action →
        IsSent (sender own hop window) events n }
{}

/// The answer to the fetch of a number below the cursor changes nothing in a sending core, and the core requests
/// nothing on it. So a core may also be given the answer to the fetch of a number that is sent again.
pub fn law_fetched_again_changes_nothing()
    ensures { (s : Sender) (number limit : ℕ) (payload : List ℕ) → number < s.cursor →
        sending_step s (OutEvent.Fetched number limit payload) ≡ (s, None) }
{}
