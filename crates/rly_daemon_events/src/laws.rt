//! Laws of a hop's lines, each on a function without a body.

ghost use Rattle.std.specs.Prelude.{◌≡◌, ◌+◌, ◌<◌, ◌≤◌, ℕ, Bool, IfSome, IfNone, List, None, Option, Some};
ghost use Rattle.rly_core.specs.declared.ids.HopId.{HopId as AHop};
ghost use Rattle.rly_plan.specs.ContactPlan.{ContactPlan};
ghost use Rattle.rly_plan.specs.Sound.{IsSoundPlan};
ghost use Rattle.rly_daemon_events.specs.HopEvents.{look_at, next_event, next_wait};
ghost use Rattle.rly_daemon_events.specs.HopRuns.{Alternate, FollowEachOther, IsTold, IsTrueAt, edges_in, events_in};
ghost use Rattle.rly_daemon_events.specs.declared.hop_event.HopEvent.{HopEvent as AnEvent};
ghost use Rattle.rly_daemon_events.specs.declared.hop_look.HopLook.{HopLook as ALook};

/// Each line is true of its hop.
pub fn law_line_is_true()
    ensures { (last : Option AnEvent) (look : ALook) (event : AnEvent) → next_event last look ≡ Some event
        → IsTrueAt look event }
{}

/// No line is missing: if none follows, the last one says what is so.
pub fn law_no_line_is_missing()
    ensures { (last : Option AnEvent) (look : ALook) → next_event last look ≡ None → IsTold last look }
{}

/// After two lines at the same look, none follows.
pub fn law_two_lines_at_most()
    ensures { (last : Option AnEvent) (look : ALook) (first second : AnEvent) → next_event last look ≡ Some first
        → next_event (Some first) look ≡ Some second → next_event (Some second) look ≡ None }
{}

/// Each line of a hop may follow the one before it, however the hop changes: `idle` and `busy` stand only in an open time, by
/// turns, and `opens in` once at most in a closed one, as its last line.
pub fn law_lines_follow_each_other()
    ensures { (looks : List ALook) → FollowEachOther None (events_in None looks) }
{}

/// `open` and `closed` come by turns, however the hop changes.
pub fn law_open_and_closed_alternate()
    ensures { (looks : List ALook) → Alternate (edges_in (events_in None looks)) }
{}

/// If no line follows now, none does before the wait is over, by a sound plan and as long as the sender goes on to rest, or not
/// to; and that is never at once.
pub fn law_no_line_before_the_wait()
    ensures waits { (plan : ContactPlan) (hop : AHop) (now wait : ℕ) (is_resting : Bool) (last : Option AnEvent) →
        IsSoundPlan plan → next_event last (look_at plan hop now is_resting) ≡ None →
        next_wait last (look_at plan hop now is_resting) ≡ Some wait →
        (0 < wait)
        × ((u : ℕ) → now ≤ u → u < now + wait → next_event last (look_at plan hop u is_resting) ≡ None) }
    ensures never { (plan : ContactPlan) (hop : AHop) (now : ℕ) (is_resting : Bool) (last : Option AnEvent) →
        IsSoundPlan plan → next_event last (look_at plan hop now is_resting) ≡ None →
        next_wait last (look_at plan hop now is_resting) ≡ None →
        (u : ℕ) → now ≤ u → next_event last (look_at plan hop u is_resting) ≡ None }
{}
