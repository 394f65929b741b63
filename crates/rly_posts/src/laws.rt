//! The files that a peer's folder gives: a law, a function with an empty body.

ghost use Rattle.std.specs.Prelude.{◌≡◌, List, is_some, ℕ};
ghost use Rattle.rly_link_folder.specs.InboxCalls.{reason_of};
ghost use Rattle.rly_plan.specs.ContactPlan.{ContactPlan, rest_for};
ghost use Rattle.rly_posts.specs.Folders.{reason_by, stations_of};

/// A file goes to `refused/` by the routing rule of the plan: the link of a peer's folder, which is given the stations with a
/// route of their own and whether it takes the rest, refuses a payload for the reason for which the station would.
pub fn law_files_are_led()
    ensures { (plan : ContactPlan) (station longest : ℕ) (payload : List ℕ)
        → reason_of (stations_of plan.routes) (is_some (rest_for plan station)) longest payload
        ≡ reason_by plan station longest payload }
{}
