//! The reply line of a Show.

ghost use Rattle.std.specs.Prelude.{Some};

use crate::hop_counts::{Expired, HopCounts};
use rly_core::HopId;
use rly_machine::{CodelState, HopStatus};
use std::fmt;

/// All numbers of a hop, as a line.
#[derive(Drop)]
pub struct StatusLine<'a> {
    /// The hop.
    pub hop: HopId,
    /// Its numbers.
    pub status: &'a HopStatus,
}

impl fmt::Display for StatusLine<'_> {
    ghost use Rattle.rly_daemon_reply.specs.Replies.{status_text};

    ghost output = { λ line. Some (status_text line.hop line.status.now) };

    fn fmt<W: fmt::Write>(&self, f: &mut fmt::Formatter<W>) -> fmt::Result {
        let (hop, status) = (self.hop.0, self.status);
        let counts = HopCounts { status };
        let codel = Discards {
            codel: &status.codel,
        };
        let (moment, count) = (status.moment, status.expired);
        let expired = Expired { count };
        write!(f, "hop {hop}{counts}{codel} moment {moment}{expired}")
    }
}

/// CoDel's state of a hop.
#[derive(Drop)]
struct Discards<'a> {
    codel: &'a CodelState,
}

impl fmt::Display for Discards<'_> {
    ghost use Rattle.rly_daemon_reply.specs.Replies.{discards_text};

    ghost output = { λ discards. Some (discards_text discards.codel.now) };

    #[tactic(auto, unfolding(crate::specs::Replies::discards_text))]
    fn fmt<W: fmt::Write>(&self, f: &mut fmt::Formatter<W>) -> fmt::Result {
        let CodelState {
            first_above_time,
            drop_next,
            count,
            lastcount,
            dropping,
        } = *self.codel;
        let dropping = if dropping { "yes" } else { "no" };
        write!(
            f,
            " first {first_above_time} next {drop_next} count {count}"
        )?;
        write!(f, " last {lastcount} dropping {dropping}")
    }
}
