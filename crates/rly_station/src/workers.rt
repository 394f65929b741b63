//! The workers of a plan.

ghost use Rattle.std.specs.Prelude.{◌≡◌, ◌++◌, IfOk, OnOk, option_copied};
ghost use Rattle.rly_plan.specs.Sound.{IsSoundPlan};
ghost use Rattle.rly_station.specs.Workers.{neighbour_of, receivers, senders, workers_of};

use rly_core::{HopId, PeerId};
use rly_link::Worker;
use rly_plan::{Neighbour, Plan};
use std::alloc::{AllocError, Global};

/// A receiver for each peer of a plan, and a sender for each hop.
pub(crate) fn workers_of(alloc: Global, plan: &Plan) -> Result<Vec<Worker>, AllocError>
    requires { IsSoundPlan plan.now }
    ensures { IfOk result (λ workers. workers.items ≡ workers_of plan.now) }
{
    let mut workers = Vec::new(alloc);
    add_receivers(&mut workers, plan.peer_count() as u16)?;
    add_senders(&mut workers, plan.hop_count() as u16)?;
    Ok(workers)
}

/// Adds the receivers of this many peers.
fn add_receivers(workers: &mut Vec<Worker>, count: u16) -> Result<(), AllocError>
    ensures { OnOk result (workers.new.items ≡ workers.old.items ++ receivers count) }
{
    for index in 0..count {
        workers.push(Worker::Receiver(PeerId(index + 1)))?;
    }
    Ok(())
}

/// Adds the senders to this many hops.
fn add_senders(workers: &mut Vec<Worker>, count: u16) -> Result<(), AllocError>
    ensures { OnOk result (workers.new.items ≡ workers.old.items ++ senders count) }
{
    for index in 0..count {
        workers.push(Worker::Sender(HopId(index + 1)))?;
    }
    Ok(())
}

/// The neighbour of a worker: `None` if it isn't in the plan.
pub fn neighbour_of(plan: &Plan, worker: Worker) -> Option<&Neighbour>
    ensures { option_copied result ≡ neighbour_of plan.now worker }
{
    match worker {
        Worker::Receiver(peer) => plan.peer(peer),
        Worker::Sender(hop) => plan.hop(hop),
    }
}
