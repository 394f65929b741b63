use rly_core::HopId;
use rly_plan::Plan;

/// A hop at a moment.
#[derive(Clone, Copy, Debug, PartialEq, Eq)]
pub struct HopLook {
    /// Whether its link is open.
    pub is_open: bool,
    /// Whether its sender rests: a Pick found nothing, and nothing is in flight.
    pub is_resting: bool,
    /// Microseconds until its link opens or closes: `None` if it never does.
    pub left: Option<u64>,
    /// How long before an opening it is announced, in seconds.
    pub lead: u32,
}

impl HopLook {
    ghost use Rattle.std.specs.Prelude.{◌≡◌};
    ghost use Rattle.rly_daemon_events.specs.HopEvents.{look_at};

    /// A hop of a plan at a moment of the wall clock, in microseconds since the Unix epoch.
    pub fn at(plan: &Plan, hop: HopId, now: u64, is_resting: bool) -> HopLook
        ensures { result ≡ look_at plan.now hop now is_resting }
    {
        let left = match plan.next_change(hop, now) {
            Some(change) => Some(change.saturating_sub(now)),
            None => None,
        };
        HopLook {
            is_open: plan.is_open(hop, now),
            is_resting,
            left,
            lead: plan.lead(hop),
        }
    }
}
