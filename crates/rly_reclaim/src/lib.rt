//! Space in the segments: how long segments must be, when the next one is due, which one is opened
//! next, which victim (the segment to clean) gives up its payloads, and live bytes by segment.
//!
//! `specs/Room.antt` has the inequality that a device must meet, `specs/SegmentChoice.antt` the
//! choice of segments, `specs/Places.antt` and `specs/LiveRoom.antt` the segment of each
//! payload that is stored by device address. `choose` reads one counter per segment, never the
//! items. Takes no memory. Callers: the journal's crates and `rly_daemon_commands`.
#![tactic(auto)]

mod choice;
mod live_laws;
mod placed;
mod places;
mod room;
mod room_law;
mod segment_choice;

pub use crate::choice::{Choice, choose};
pub use crate::live_laws::{
    law_collected, law_leaving, law_live_room, law_none_lies, law_stays_empty,
};
pub use crate::placed::{is_placed, live_at, live_by_segment};
pub use crate::places::segment_of;
pub use crate::room::{fits, group_room, is_due, least_length};
pub use crate::room_law::law_room;
pub use crate::segment_choice::{free_segment, victim};
