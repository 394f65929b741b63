//! A clock in memory, for tests. In proofs it records all its ticks.

ghost use Rattle.std.specs.Prelude.{◌≡◌, ◌≤◌, [], false};
ghost use Rattle.rly_link.specs.Memory.{handed_of};

use crate::turn::{Go, Point, Turn, Worker};
use http_server::Log;
use std::sync::Wait;

/// A clock in memory. It advances by one step from turn to turn, and by another in each call.
#[derive(Drop)]
pub struct MemTurn {
    start: u64,
    now: u64,
    next: u64,
    step: u64,
    call: u64,
    left: u64,
    handed: Log<(Worker, Point), Go>,
    ghost started: { start ≤ now },
    ghost going: { now ≤ next },
}

impl MemTurn {
    /// A clock of this many turns, at the moments `start`, `start + step`, and so on, then the stop. A call takes
    /// no time.
    pub fn new(start: u64, step: u64, turns: u64) -> MemTurn
        ensures handed { handed_of result.handed ≡ [] }
        ensures start { result.start ≡ start }
        ensures now { result.now ≡ start }
        ensures next { result.next ≡ start }
        ensures step { result.step ≡ step }
        ensures call { result.call ≡ 0 }
        ensures left { result.left ≡ turns }
    {
        MemTurn {
            start,
            now: start,
            next: start,
            step,
            call: 0,
            left: turns,
            handed: Log::new(),
        }
    }

    /// The same with calls that take this long: each delays all that follows.
    pub fn with_calls_of(mut self, call: u64) -> MemTurn
        ensures { result ≡ record self { call = call } }
    {
        self.call = call;
        self
    }

    /// Advances to a point.
    fn come_to(&mut self, point: Point)
        ensures handed { self.new.handed ≡ self.old.handed }
        ensures start { self.new.start ≡ self.old.start }
        ensures now { self.old.now ≤ self.new.now }
    {
        match point {
            Point::Start | Point::Call => {}
            Point::Heard => {
                self.now = self.next;
                self.next = self.next.saturating_add(self.step);
            }
            Point::Answered => {
                self.now = self.now.saturating_add(self.call);
                self.next = self.next.saturating_add(self.call);
            }
        }
    }

    /// Whether a worker continues at a point.
    fn goes_on(&mut self, point: Point) -> bool
        ensures { self.new ≡ record self.old { left = self.new.left } }
    {
        if point != Point::Start {
            return true;
        }
        let on = self.left > 0;
        self.left = self.left.saturating_sub(1);
        on
    }
}

impl Turn for MemTurn {
    ghost use Rattle.std.specs.Prelude.{◌-◌, Some};
    ghost use Rattle.rly_link.specs.Memory.{handed_of};

    ghost told = { λ t. Some (handed_of t.handed) };

    ghost endless = { λ _. false };

    ghost latest = { λ t. t.now - t.start };

    fn between<R: Wait>(&mut self, rt: &R, worker: Worker, point: Point) -> Go {
        let _ = rt;
        let on = self.goes_on(point);
        self.come_to(point);
        let go = Go {
            now: self.now,
            since: self.now - self.start,
            on,
        };
        self.handed = self.handed.and(&(worker, point), &go);
        go
    }
}
