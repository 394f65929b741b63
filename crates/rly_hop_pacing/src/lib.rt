//! Congestion control of a hop, without I/O or memory: what is sent again, when a Timeout comes, how many
//! datagrams may be on the way, and how fast they go out. `CongestionControl` has a scoreboard of what was
//! sent and heard (RFC 6675, RFC 8985), a retransmission timer (RFC 6298), and for a hop without a rate a
//! window and a pacer (after BBR); `Rate` is a token bucket. `docs/ARCHITECTURE.md`, "The pace of a hop", has the
//! rules. Times are microseconds of a clock that the caller passes. Caller: the sending workers of
//! `rly_threads_workers`.
#![tactic(auto)]

mod congestion;
mod congestion_control;
mod flight;
mod laws;
mod moment;
mod pacer;
mod rate;
mod round_trip;
mod scoreboard;
mod timer;

pub use crate::congestion_control::{CongestionControl, Numbers};
pub use crate::laws::{
    law_custody_draws_one, law_next_moment_is_later, law_next_timeout,
    law_nothing_to_do_before_the_next_moment, law_opening_ends_no_round,
    law_pacer_has_room_at_its_moment, law_turn_without_a_timeout,
    law_turns_before_the_next_moment_change_nothing,
};
pub use crate::rate::{Rate, law_next_moment_is_the_first_with_room, law_rate_is_kept};
pub use crate::round_trip::RoundTrip;
