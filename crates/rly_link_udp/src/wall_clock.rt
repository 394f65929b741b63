ghost use Rattle.std.specs.Prelude.{◌≡◌, ◌≤◌, false, true, List, None, Option, Some, ℕ};
ghost use Rattle.rly_link_udp.specs.ClockWatch.{HasReadIf};
ghost use Rattle.rly_link_udp.specs.FolderWatch.{HasLookedIf};
ghost use Rattle.rly_link_udp.specs.WallClock.{goes_on, is_read_at, left_at, start_count, turns_had, turns_left};
ghost use Rattle.rly_link_udp.specs.WallClock.{turns_of};
ghost use Rattle.rly_link.specs.declared.turn.Point.{Point as APoint};

use crate::clock_watch::{ClockWatch, Reading};
use crate::folder_watch::FolderWatch;
use http_server::Log;
use rly_link::{Go, Point, Turn, Worker};
use rly_station::moment_of;
use std::fs::{File, Files};
use std::sync::Wait;
use std::time::Clock;

/// A worker's clock: the wall clock, and microseconds of a monotonic clock. It stops the worker after a number of
/// turns.
#[derive(Drop)]
pub struct WallClock<C: Clock + Drop> {
    clock: C,
    now: u64,
    since: u64,
    left: Option<u64>,
    /// Logs steps of the wall clock, if it has this duty.
    watch: Option<ClockWatch>,
    /// Looks at the times of folders, if it has this duty.
    folders: Option<FolderWatch>,
    // The ticks, which take no memory.
    handed: Log<(Worker, Point), Go>,
}

impl<C: Clock + Drop> WallClock<C> {
    /// A clock that stops its worker after this many turns: never, if 0.
    pub fn new(clock: C, turns: u64) -> WallClock<C>
        ensures left { result.left ≡ turns_left turns }
        ensures watch { (result.watch ≡ None) × (result.folders ≡ None) }
    {
        let left = if turns == 0 { None } else { Some(turns) };
        WallClock {
            clock,
            now: 0,
            since: 0,
            left,
            watch: None,
            folders: None,
            handed: Log::new(),
        }
    }

    /// The same, and it logs steps of the wall clock, and looks at the times of folders.
    pub(crate) fn with_watch(mut self, watch: ClockWatch, folders: FolderWatch) -> WallClock<C>
        ensures { result ≡ record self { watch = Some watch; folders = Some folders } }
    {
        self.watch = Some(watch);
        self.folders = Some(folders);
        self
    }

    /// The number of turns of a worker at any points, with this many left: as many as it has starts, and no more
    /// than are left.
    pub fn law_turns()
        ensures { (left : Option ℕ) (points : List APoint)
            → turns_had left points ≡ turns_of left (start_count points) }
    {}
}

impl<C: Files<File = File> + Clock + Drop> WallClock<C> {
    /// The tick at a point. The clocks are read after the worker has waited: for a packet, or for an answer.
    fn go(&mut self, point: Point) -> Go
        ensures on { result.on ≡ goes_on point self.old.left }
        ensures now { result.now ≡ self.new.now }
        ensures since { (result.since ≡ self.new.since) × (self.old.since ≤ self.new.since) }
        ensures held { is_read_at point ≡ false
            → (self.new.now ≡ self.old.now) × (self.new.since ≡ self.old.since) × (self.new.watch ≡ self.old.watch)
            × (self.new.folders ≡ self.old.folders) }
        ensures watched { is_read_at point ≡ true
            → HasReadIf self.old.watch self.new.watch self.new.now self.old.since self.new.since }
        ensures looked { is_read_at point ≡ true
            → HasLookedIf self.old.folders self.new.folders self.new.now self.new.since }
        ensures left { self.new.left ≡ left_at point self.old.left }
        ensures handed { self.new.handed ≡ self.old.handed }
    {
        let mut on = true;
        match point {
            Point::Start => {
                on = self.left != Some(0);
                self.left = match self.left {
                    Some(left) => Some(left.saturating_sub(1)),
                    None => None,
                };
            }
            Point::Heard | Point::Answered => self.read(),
            Point::Call => {}
        }
        Go {
            now: self.now,
            since: self.since,
            on,
        }
    }

    /// Reads both clocks. A monotonic clock that falls keeps its last value. Logs a step of the wall clock, and looks at the
    /// times of folders.
    fn read(&mut self)
        ensures same { self.new
            ≡ record self.old { now = self.new.now; since = self.new.since; watch = self.new.watch; folders = self.new.folders } }
        ensures since { self.old.since ≤ self.new.since }
        ensures watched { HasReadIf self.old.watch self.new.watch self.new.now self.old.since self.new.since }
        ensures looked { HasLookedIf self.old.folders self.new.folders self.new.now self.new.since }
    {
        self.now = moment_of(self.clock.since_1970().ok());
        let passed = moment_of(self.clock.monotonic().ok());
        self.since = self.since.max(passed);
        if let Some(watch) = &mut self.watch {
            watch.note(Reading {
                wall: self.now,
                steady: passed,
            });
        }
        if let Some(folders) = &mut self.folders {
            folders.note(&self.clock, self.now, self.since);
        }
    }
}

impl<C: Files<File = File> + Clock + Drop> Turn for WallClock<C> {
    ghost use Rattle.std.specs.Prelude.{◌≡◌, ◌≤◌, ◌∷◌, [], Some, false, true};
    ghost use Rattle.std.specs.Option.{is_none};
    ghost use Rattle.rly_link_udp.specs.ClockWatch.{HasReadIf};
    ghost use Rattle.rly_link_udp.specs.FolderWatch.{HasLookedIf};
    ghost use Rattle.rly_link_udp.specs.WallClock.{goes_on, is_read_at, left_at};
    ghost use Rattle.rly_link.specs.LinkHistory.{TellsMore};
    ghost use Rattle.rly_link.specs.Memory.{handed_of};

    ghost told = { λ clock. Some (handed_of clock.handed) };

    ghost endless = { λ clock. is_none clock.left };

    ghost latest = { λ clock. clock.since };

    fn between<R: Wait>(&mut self, rt: &R, worker: Worker, point: Point) -> Go
        ensures on { result.on ≡ goes_on point self.old.left }
        ensures now { result.now ≡ self.new.now }
        ensures since { (self.old.since ≤ result.since) × (self.new.since ≡ result.since) }
        // Within a turn it returns the time read after the wait for a packet, up to the answer of the call.
        ensures held { is_read_at point ≡ false → (self.new.now ≡ self.old.now) × (self.new.since ≡ self.old.since) }
        // When the clocks are read, a step of the wall clock is logged, if it is watched; at no other point.
        ensures watched { is_read_at point ≡ true
            → HasReadIf self.old.watch self.new.watch self.new.now self.old.since self.new.since }
        ensures quiet { is_read_at point ≡ false → self.new.watch ≡ self.old.watch }
        // And a second after the last look the times of the folders are looked at, if they are watched.
        ensures looked { is_read_at point ≡ true
            → HasLookedIf self.old.folders self.new.folders self.new.now self.new.since }
        ensures unlooked { is_read_at point ≡ false → self.new.folders ≡ self.old.folders }
        ensures left { self.new.left ≡ left_at point self.old.left }
        ensures tells { TellsMore (Some (handed_of self.old.handed)) (Some (handed_of self.new.handed))
            ((worker, point, result) ∷ []) }
        ensures endless { (is_none self.new.left ≡ is_none self.old.left)
            × (is_none self.old.left ≡ true → result.on ≡ true) }
    {
        let _ = rt;
        let go = self.go(point);
        self.handed = self.handed.and(&(worker, point), &go);
        go
    }
}
