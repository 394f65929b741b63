//! The main theorems, as laws over lists of events: one relay whose device and power may fail at
//! any moment, and two relays over a lossy link.
//!
//! `law_relay`: a crash leaves a prefix of the accepted commands that holds all answered ones
//! (`specs/RelayWorld.antt`). `law_two`: the datagrams that the downstream relay stored are a prefix
//! of those that the upstream relay picked for it, and the upstream relay released at most as many
//! (`specs/PairWorld.antt`). `law_keyed`: the same for links with keys, whatever packets come in, if
//! each packet with a valid tag was made by one of the two (`specs/KeyedWorld.antt`).
//!
//! No crate calls these functions: their contracts are the theorems. `rly_world_relay` and
//! `rly_world_pair` run real journals whose steps are these events.
#![tactic(auto)]

mod keyed_law;
mod pair_law;
mod relay_law;

pub use crate::keyed_law::law_keyed;
pub use crate::pair_law::{
    law_exchange, law_fetch, law_flight, law_one_at_a_time, law_taken, law_two,
};
pub use crate::relay_law::{
    law_device, law_due, law_relay, law_relay_appends, law_relay_goes_on, law_relay_replaces,
};
