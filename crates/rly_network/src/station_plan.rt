use rly_core::Params;
use rly_plan::Plan;

/// A station of a network.
#[derive(Drop)]
pub struct StationPlan {
    /// Its plan.
    pub plan: Plan,
    /// The parameters of its device, of which `payload`, `hops` and `peers` count here.
    pub device: Params,
}
