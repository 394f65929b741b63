ghost use Rattle.std.specs.Prelude.{◌≡◌, ◌++◌, IfOk, OnOk};
ghost use Rattle.rly_plan.specs.Sound.{IsSoundPlan};
ghost use Rattle.rly_daemon_report.specs.Hops.{show_asks, shows_of_hops};

use rly_core::HopId;
use rly_machine::{Ask, Query};
use rly_plan::Plan;
use std::alloc::{AllocError, Global};

/// The asks of a report: Show of each hop of the plan, in the order of their ids.
pub fn show_asks(alloc: Global, plan: &Plan) -> Result<Vec<Ask>, AllocError>
    requires { IsSoundPlan plan.now }
    ensures { IfOk result (λ asks. asks.items ≡ show_asks plan.now) }
{
    let mut asks = Vec::new(alloc);
    add_shows(&mut asks, plan.hop_count() as u16)?;
    Ok(asks)
}

/// Adds the Show of this many hops.
fn add_shows(asks: &mut Vec<Ask>, count: u16) -> Result<(), AllocError>
    ensures { OnOk result (asks.new.items ≡ asks.old.items ++ shows_of_hops count) }
{
    for index in 0..count {
        let hop = HopId(index + 1);
        asks.push(Ask::Query(Query::Show { hop }))?;
    }
    Ok(())
}
