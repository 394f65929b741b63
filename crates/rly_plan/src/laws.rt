//! Laws of plans and of the link clock, each on a function without a body.

ghost use Rattle.std.specs.Prelude.{◌≡◌, ℕ, is_some, List, Ok, Some, ◌+◌, ◌-◌, ◌<◌, ◌≤◌, false, true};
ghost use Rattle.rly_core.specs.declared.ids.HopId.{HopId as AHop};
ghost use Rattle.rly_plan.specs.Changes.{IsNextChange};
ghost use Rattle.rly_plan.specs.ContactPlan.{ContactPlan, edge_wait, is_open, link, next_change};
ghost use Rattle.rly_plan.specs.Passes.{plan_of_text};
ghost use Rattle.rly_plan.specs.Sound.{IsSoundPlan};

use crate::plan::Plan;
use rly_core::HopId;

/// The link clock never falls.
pub fn law_link_never_falls(plan: &Plan, hop: HopId, earlier: u64, later: u64)
    requires { earlier ≤ later }
    ensures { link plan.now hop earlier ≤ link plan.now hop later }
{}

/// The link clock grows by at most the time between.
pub fn law_link_grows_with_time(plan: &Plan, hop: HopId, earlier: u64, later: u64)
    requires { earlier ≤ later }
    ensures { link plan.now hop later ≤ link plan.now hop earlier + (later - earlier) }
{}

/// The link clock stands still while the link is closed.
pub fn law_link_stands_while_closed(plan: &Plan, hop: HopId, earlier: u64, later: u64)
    requires order { earlier ≤ later }
    requires closed { (u : ℕ) → earlier ≤ u → u < later → is_open plan.now hop u ≡ false }
    ensures { link plan.now hop later ≡ link plan.now hop earlier }
{}

/// The link clock grows by the time between while the link is open.
pub fn law_link_runs_while_open(plan: &Plan, hop: HopId, earlier: u64, later: u64)
    requires order { earlier ≤ later }
    requires opened { (u : ℕ) → earlier ≤ u → u < later → is_open plan.now hop u ≡ true }
    ensures { link plan.now hop later ≡ link plan.now hop earlier + (later - earlier) }
{}

/// In a sound plan, a hop's link keeps its state up to its next change, and changes at that moment. Without a next
/// change it keeps its state for good.
pub fn law_next_change()
    ensures { (plan : ContactPlan) (hop : AHop) (moment : ℕ) → IsSoundPlan plan
        → IsNextChange (is_open plan hop) moment (next_change plan hop moment) }
{}

/// In a sound plan, a hop's link keeps its state while a sleeper sleeps for `edge_wait`, and it sleeps at least a microsecond.
/// There is no such time exactly if there is no next change.
pub fn law_edge_wait()
    ensures keeps { (plan : ContactPlan) (hop : AHop) (now wait : ℕ) → IsSoundPlan plan → edge_wait plan hop now ≡ Some wait
        → (0 < wait) × ((u : ℕ) → now ≤ u → u < now + wait → is_open plan hop u ≡ is_open plan hop now) }
    ensures none { (plan : ContactPlan) (hop : AHop) (now : ℕ) →
        is_some (edge_wait plan hop now) ≡ is_some (next_change plan hop now) }
{}

/// Every plan is sound: its numbers are in range, its contacts in order and disjoint, its stations and destinations
/// unique, and each route leads to an existing hop.
pub fn law_plan_is_sound()
    ensures { (text : List ℕ) (plan : ContactPlan) → plan_of_text text ≡ Ok plan → IsSoundPlan plan }
{}
