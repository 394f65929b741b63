//! The committer: one thread that owns the journal and executes all clients' calls in groups.
//! `Flusher::round` receives batches of up to 64 calls, makes one round of the journal (group
//! commit), and answers each; a batch that doesn't fit is first in the next round. Guarantees
//! (`specs/FlusherHistory.antt`): one legal history of all calls, in order of receipt; each client
//! sees a prefix of it; a crash keeps each acknowledged command. A `RoundWatch` is shown each round
//! (`specs/RoundWatch.antt`). Caller: `rly_threads`.
#![tactic(auto)]

mod flusher;
mod owned_journal;
mod round_calls;
mod round_watch;

pub use crate::flusher::{Finished, Flusher};
pub use crate::round_watch::{NoWatch, RoundWatch};
