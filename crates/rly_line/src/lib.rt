//! The submission queue: threads, each with a `Seat` (a client handle), put batches of 1 to 64
//! calls into one bounded queue (`specs/Submission.antt`), and get answers through a queue of
//! their own (`specs/Replies.antt`). One thread answers, with a `Responder` over a `LineEnd`. The
//! history that each seat knows is a prefix of one legal history of all calls; the bytes of a Fetch
//! are outside of that (`docs/reference/CLAIMS.md`). Callers: `rly_flush` by `Responder`, `rly_threads` and
//! above by `Seat::call_all`. One thread can also put the batches of several seats (`Seat::put`)
//! and take the answers of each when they are there (`WaitingSeat`).
#![tactic(auto)]

mod batch;
mod call_error;
mod closed_end;
mod ghost_history;
mod laws;
mod left_seat;
mod line_end;
mod replies;
mod responder;
mod seat;
mod seat_ends;
mod setup;
mod submission;
mod waiting_seat;

pub use crate::batch::{Answers, Batch};
pub use crate::call_error::{BatchError, CallError};
pub use crate::closed_end::ClosedEnd;
pub use crate::ghost_history::{GhostHistory, HasState};
pub use crate::laws::{law_line, law_reply_line};
pub use crate::left_seat::LeftSeat;
pub use crate::line_end::LineEnd;
pub use crate::responder::Responder;
pub use crate::seat::Seat;
pub use crate::setup::make;
pub use crate::waiting_seat::{Taken, WaitingSeat};
