//! The clock of a worker.

ghost use Rattle.std.specs.Prelude.{◌≡◌, IfOk};
ghost use Rattle.rly_link_udp.specs.LinkDuties.{clock_duty, clock_duty_of, folders_of, folders_watched, is_first};
ghost use Rattle.rly_link_udp.specs.WallClock.{turns_left};

use crate::clock_watch::ClockWatch;
use crate::folder_watch::{FolderPath, FolderWatch};
use crate::signals::Signals;
use crate::wall_clock::WallClock;
use rly_link::Worker;
use std::alloc::AllocError;
use std::time::Clock;

/// The clock of a worker, which stops it after this many turns: never, if 0. That of the first peer's receiver also logs
/// steps of the wall clock, and looks at the times of the folders.
pub fn clock_of<'a, H: AllocGlobal + Clock>(
    rt: &'a H,
    worker: Worker,
    turns: u64,
    folders: &[FolderPath],
    signals: &Signals,
) -> Result<WallClock<&'a H>, AllocError>
    ensures left { IfOk result (λ turn. turn.left ≡ turns_left turns) }
    ensures watch { IfOk result (λ turn. clock_duty turn ≡ clock_duty_of worker) }
    ensures folders { IfOk result (λ turn. folders_of turn ≡ folders_watched worker folders.now) }
{
    if !is_first(worker) {
        return Ok(WallClock::new(rt, turns));
    }
    let watch = ClockWatch::new(signals.logger()?, signals.bells()?);
    let folders = FolderWatch::new(rt.alloc(), folders, signals.bells()?)?;
    Ok(WallClock::new(rt, turns).with_watch(watch, folders))
}

/// Whether it is the receiver of the first peer.
pub(crate) fn is_first(worker: Worker) -> bool
    ensures { result ≡ is_first worker }
{
    match worker {
        Worker::Receiver(peer) => peer.0 == 1,
        Worker::Sender(_) => false,
    }
}
