//! CoDel's dequeue (RFC 8289 section 5): the number of items to drop from the front of a lane
//! before one is delivered, and the new state.
//!
//! `dequeue` meets `specs/Cases.antt`, a table of cases without a loop; `law_cases_are_the_loop`
//! proves it equal to the RFC's pseudocode. `dequeue_with` is `dequeue` with drop times from the
//! caller's `Control` (`rly_law`), such as a table. Both read the queue through the trait `Lane`.
//! Caller: `rly_machine`.
#![tactic(auto)]

mod discard;
mod lane;
mod laws;
mod state;

pub use crate::discard::{dequeue, dequeue_with};
pub use crate::lane::Lane;
pub use crate::laws::{law_cases_are_the_loop, law_front_is_the_longest_run};
pub use crate::state::{CodelState, Verdict};
