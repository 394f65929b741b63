//! Stops the workers of a relay before their turns end.

ghost use Rattle.std.specs.Prelude.{◌≡◌, ◌≤◌, ◌∷◌, [], None, Some, false, map, true};
ghost use Rattle.rly_threads.specs.Cut.{handed_at};
ghost use Rattle.rly_link.specs.LinkHistory.{TellsMore};
ghost use Rattle.rly_threads.specs.HelpersCut.{IsCutting, IsHeard};

use http_server::Log;
use rly_link::{Go, Point, Turn, Worker};
use std::marker::{Brand, Model, PhantomData};
use std::sync::{OnceLock, OnceToken, Wait};

/// Sets the stop flag of a relay: whether its workers end at their next turns. It is set once, for all of them.
pub(crate) fn tell_workers<'a, R: Wait>(
    rt: &R,
    stop_flag: &'a OnceLock<bool>,
    cut: bool,
) -> OnceToken<'a, bool>
    ensures of { result.of ≡ stop_flag.now.id }
    ensures value { result.value ≡ cut }
{
    for _try in rt.forever() {
        // Nobody else sets it, so the first try is the last.
        if let Ok(said) = stop_flag.set(rt, cut) {
            return said;
        }
    }
    unreachable!()
}

/// The owner of a clock and a seat, for the proof only.
pub trait TurnOwner {
    ghost use Rattle.std.specs.Prelude.{ℕ, Bool, List, Option};
    ghost use Rattle.rly_line.specs.Seats.{Caller};
    ghost use Rattle.rly_link.specs.LinkHistory.{Handed};

    /// The first ticks of the clock.
    ghost first: { Option (List Handed) };

    /// Whether the clock never stops.
    ghost endless: { Bool };

    /// The seat at first.
    ghost seat: { Option Caller };

    /// The lock of the stop flag.
    ghost lock: { ℕ };
}

impl TurnOwner for Brand {
    ghost use Rattle.std.specs.Prelude.{None, false};

    ghost first = { None };

    ghost endless = { false };

    ghost seat = { None };

    ghost lock = { 0 };
}

/// The clock of a worker, which stops it early once the relay's stop flag is set.
#[derive(Drop)]
pub(crate) struct CutTurn<'a, T: Turn, W: TurnOwner> {
    turn: T,
    stop_flag: &'a OnceLock<bool>,
    /// The stop flag as read at the stop, if it was.
    heard: Option<OnceToken<'a, bool>>,
    whose: PhantomData<W>,
    /// The ticks, and whether the worker was stopped there. It takes no memory.
    looks: Log<(Worker, Point), (Go, bool)>,
}

impl<'a, T: Turn, W: TurnOwner> Model for CutTurn<'a, T, W> {
    ghost use Rattle.rly_threads.specs.HelpersCut.{CutView, IsCutting, looks_in};

    ghost Value = { CutView T };

    ghost view = { λ c.
        record { turn = c.turn; lock = c.stop_flag.now.id; heard = c.heard; looks = looks_in c.looks } };

    ghost invariant = { λ c. IsCutting T.told T.endless W.first W.endless W.lock
        (record { turn = c.turn; lock = c.stop_flag.now.id; heard = c.heard; looks = looks_in c.looks }) };
}

impl<'a, T: Turn + Drop, W: TurnOwner> CutTurn<'a, T, W> {
    /// This clock, which stops once the flag says that the relay is cut.
    pub(crate) fn new(turn: T, stop_flag: &'a OnceLock<bool>) -> CutTurn<'a, T, W>
        requires first { T.told turn ≡ W.first }
        requires endless { T.endless turn ≡ W.endless }
        requires lock { stop_flag.now.id ≡ W.lock }
        ensures { result ≡ record { turn = turn; lock = stop_flag.now.id; heard = None; looks = [] } }
    {
        CutTurn {
            turn,
            stop_flag,
            heard: None,
            whose: PhantomData,
            looks: Log::new(),
        }
    }

    /// The clock, handed back, and the stop flag as read at the stop.
    pub(crate) fn into_parts(self) -> (T, Option<OnceToken<'a, bool>>)
        ensures turn { result.0 ≡ self.entry.turn }
        ensures heard { result.1 ≡ self.entry.heard }
        ensures cutting { IsCutting T.told T.endless W.first W.endless W.lock self.entry }
    {
        let CutTurn {
            turn,
            stop_flag: _stop_flag,
            heard,
            whose: _whose,
            looks: _looks,
        } = self;
        (turn, heard)
    }
}

impl<'a, T: Turn + Drop, W: TurnOwner> Turn for CutTurn<'a, T, W> {
    ghost use Rattle.std.specs.Prelude.{Some, false, map};
    ghost use Rattle.rly_threads.specs.Cut.{handed_at};

    ghost told = { λ c. Some (map handed_at c.looks) };

    // It may be stopped.
    ghost endless = { λ _. false };

    ghost latest = { λ c. T.latest c.turn };

    fn between<R: Wait>(&mut self, rt: &R, worker: Worker, point: Point) -> Go
        ensures told { TellsMore (Some (map handed_at self.old.looks)) (Some (map handed_at self.new.looks))
            ((worker, point, result) ∷ []) }
        ensures endless { (false ≡ false) × (false ≡ true → result.on ≡ true) }
        ensures since { (T.latest self.old.turn ≤ result.since) × (T.latest self.new.turn ≡ result.since) }
    {
        let go = self.turn.between(rt, worker, point);
        let heard = match (point, go.on) {
            (Point::Start, true) => heard_end(self.stop_flag),
            _ => None,
        };
        let is_cut = heard.is_some();
        self.looks = self.looks.and(&(worker, point), &(go, is_cut));
        if is_cut {
            self.heard = heard;
        }
        Go {
            on: go.on && !is_cut,
            ..go
        }
    }
}

/// The stop flag, if it says that the relay is cut.
fn heard_end<'a>(stop_flag: &'a OnceLock<bool>) -> Option<OnceToken<'a, bool>>
    ensures { IsHeard stop_flag.now.id result }
{
    let said = stop_flag.witness()?;
    if *stop_flag.value(&said) {
        Some(said)
    } else {
        None
    }
}
