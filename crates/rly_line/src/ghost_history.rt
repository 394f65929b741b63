//! The ghost history of the answering thread.

ghost use Rattle.std.specs.Prelude.{◌≡◌, ℕ, ◌++◌, [], List};
ghost use Rattle.std.specs.List.{zip};
ghost use Rattle.rly_machine.specs.State.{State};
ghost use Rattle.rly_line.specs.Batches.{calls_in_batch};

use crate::batch::{Answers, Batch};
use http_server::Log;
use rly_machine::{Machine, Payload};
use std::marker::Model;
use std::snapshot::Snapshot;

/// A value that represents a state of a spool.
pub trait HasState {
    /// The state.
    ghost state: { Self → State (List ℕ) };
}

impl HasState for Machine<Payload> {
    ghost state = { λ m. m.state };
}

/// A state, and a history from it. It has no size at run time.
#[derive(Drop)]
pub struct GhostHistory<T: HasState> {
    begun: Snapshot<T>,
    batches: Log<Snapshot<Batch>, Snapshot<Answers>>,
}

impl<T: HasState> Model for GhostHistory<T> {
    ghost use Rattle.std.specs.List.{flat_map, zip};
    ghost use Rattle.rly_line.specs.Batches.{calls_in_batch};
    ghost use Rattle.rly_line.specs.GhostHistory.{HistoryView};

    ghost Value = { HistoryView };

    ghost view = { λ s.
        record {
          start = T.state s.begun.value;
          history = flat_map
              (λ e. zip (calls_in_batch e.0.value) e.1.value.answers) s.batches.items;
        } };
}

impl<T: HasState> GhostHistory<T> {
    /// The empty history, from the represented state.
    pub fn begin(at: &T) -> GhostHistory<T>
        ensures { result ≡ record { start = T.state at.now; history = [] } }
    {
        GhostHistory {
            begun: Snapshot::of(at),
            batches: Log::new(),
        }
    }

    /// The history extended by the calls of one batch and their answers.
    pub fn push(&mut self, batch: &Snapshot<Batch>, answers: &Answers)
        ensures { self.new
            ≡ record self.old {
              history = self.old.history
                  ++ zip (calls_in_batch batch.now.value) answers.now.answers;
            } }
    {
        self.batches = self.batches.and(batch, &Snapshot::of(answers));
    }
}
