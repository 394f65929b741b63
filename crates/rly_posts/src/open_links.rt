//! The links of a station that are open at its start.

ghost use Rattle.std.specs.Prelude.{◌≡◌, ◌↔◌, IsOk, map, true};
ghost use Rattle.rly_posts.specs.Duties.{refusal_at};
ghost use Rattle.rly_posts.specs.Neighbour.{has_open};

use crate::posts::UdpPost;
use rly_link_udp::fault_of_link;
use rly_plan::Plan;
use rly_station::{ServeFault, neighbour_of};
use std::alloc::Global;
use std::fs::{File, Files};
use std::net::Net;
use std::time::Clock;

/// Refuses a station none of whose links is open. The fault is that of its first link.
pub(crate) fn check_open<H: AllocGlobal + Files<File = File> + Clock + Net>(
    alloc: Global,
    plan: &Plan,
    posts: &[UdpPost<'_, H>],
) -> Result<(), ServeFault>
    ensures { IsOk result ↔ (has_open (map refusal_at posts.now) ≡ true) }
{
    for post in posts {
        if post.link.refusal().is_none() {
            return Ok(());
        }
    }
    Err(first_fault(alloc, plan, posts))
}

/// The fault of the first link.
fn first_fault<H: AllocGlobal + Files<File = File> + Clock + Net>(
    alloc: Global,
    plan: &Plan,
    posts: &[UdpPost<'_, H>],
) -> ServeFault {
    let Some(post) = posts.first() else {
        return ServeFault::Worker;
    };
    let Some(neighbour) = neighbour_of(plan, post.worker) else {
        return ServeFault::Worker;
    };
    match (post.link.refusal(), neighbour.far.addresses()) {
        (Some(fault), Some(addresses)) => fault_of_link(alloc, post.worker, addresses, fault),
        _ => ServeFault::Worker,
    }
}
