//! What follows from the definitions of the congestion control.

ghost use Rattle.std.specs.Prelude.{◌≡◌, ◌≢◌, ◌<◌, ◌≤◌, ◌^◌, ◌+◌, ◌-◌, Bool, Some, false, nat_lt, true, ℕ};
ghost use Rattle.rly_hop_pacing.specs.CongestionControl.{ControlView, is_missing, is_opening, is_timeout, on_contact, on_custody};
ghost use Rattle.rly_hop_pacing.specs.CongestionControl.{on_time, on_window, spare_number, waiting_since};
ghost use Rattle.rly_hop_pacing.specs.Moments.{IsBefore};
ghost use Rattle.rly_hop_pacing.specs.NextMoments.{IsIdle, can_send, has_work, next_moment, next_timeout};
ghost use Rattle.rly_hop_pacing.specs.Pacers.{pacer_moment, pacer_room};
ghost use Rattle.rly_hop_pacing.specs.declared.pacer.Pacer.{Pacer};

/// A custody or a Heard that is received before the first sending of a contact, or of a window that was answered, ends
/// no round: no sending before counts as heard.
pub fn law_opening_ends_no_round()
    ensures contact { (p : ControlView) → is_opening p true ≡ true →
        nat_lt (on_contact p true).round.mark (on_contact p true).board.newest ≡ false }
    ensures window { (p : ControlView) (first next : ℕ) →
        nat_lt (on_window p first next).round.mark (on_window p first next).board.newest ≡ false }
{}

/// From a moment on until the next one that `next_moment` gives for it, a turn has nothing to do if no packet comes: no
/// Timeout is due, and there is no room, or nothing to send. So a worker that sleeps until then misses nothing.
pub fn law_nothing_to_do_before_the_next_moment()
    ensures { (p : ControlView) (at t : ℕ) (wants : Bool) → at ≤ t → IsBefore t (next_moment p at wants) →
        has_work p t wants ≡ false }
{}

/// If there is nothing to do at a moment, the next one is later. So a worker that sleeps until then doesn't turn in vain
/// at once.
pub fn law_next_moment_is_later()
    ensures { (p : ControlView) (at : ℕ) (wants : Bool) → at < 2 ^ 64 - 1 → has_work p at wants ≡ false →
        IsBefore at (next_moment p at wants) }
{}

/// If the pacer has no room at a moment, it has none until the one that it gives, and has room then. A moment above 64 bits
/// is given as the last one.
pub fn law_pacer_has_room_at_its_moment()
    ensures before { (p : Pacer) (allowed round at t : ℕ) → at ≤ t → IsBefore t (pacer_moment p allowed round at) →
        pacer_room p allowed round at ≡ 0 → pacer_room p allowed round t ≡ 0 }
    ensures then { (p : Pacer) (allowed round at moment : ℕ) → moment < 2 ^ 64 - 1 →
        pacer_moment p allowed round at ≡ Some moment → 0 < pacer_room p allowed round moment }
{}

/// A turn before the next moment changes nothing: the state after a turn at `at` stays the same at each moment until then. So
/// a worker that sleeps is where it would be if it had looked again and again.
pub fn law_turns_before_the_next_moment_change_nothing()
    ensures { (p : ControlView) (at t : ℕ) (wants : Bool) → at ≤ t → IsBefore t (next_moment (on_time p at) at wants) →
        on_time (on_time p at) t ≡ on_time p at }
{}

/// A turn in which no Timeout is due finds as much to send as there was before its `moment` call. One that has nothing to
/// do sends nothing: no Timeout is due, and there is no room, or nothing goes out again and nothing new is wanted.
pub fn law_turn_without_a_timeout()
    ensures work { (p : ControlView) (at : ℕ) (wants : Bool) → is_timeout p at ≡ false →
        can_send (on_time p at) at wants ≡ can_send p at wants }
    ensures idle { (p : ControlView) (at : ℕ) (wants : Bool) → has_work p at wants ≡ false → IsIdle p at wants }
{}

/// A Custody makes no number go out again but the first in flight, and that one not before `resend` has passed since it was last
/// sent and since custody last covered more.
pub fn law_custody_draws_one()
    ensures others { (p : ControlView) (at t number : ℕ) → number - 1 ≢ p.flight.covered →
        is_missing (on_custody p at) t number ≡ is_missing p t number }
    ensures spare { (p : ControlView) (at t : ℕ) → spare_number (on_custody p at) t ≡ spare_number p t }
    ensures early { (p : ControlView) (at : ℕ) → at < waiting_since p + p.timer.resend →
        (on_custody p at).is_due ≡ p.is_due }
{}

/// Until the next Timeout none is due.
pub fn law_next_timeout()
    ensures { (p : ControlView) (at t : ℕ) → at ≤ t → is_timeout p at ≡ false → IsBefore t (next_timeout p at) →
        is_timeout p t ≡ false }
{}
