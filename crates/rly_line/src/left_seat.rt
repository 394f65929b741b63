ghost use Rattle.std.specs.Prelude.{◌≡◌};

use crate::replies::HearingEnd;
use crate::seat_ends::SeatEnds;
use crate::submission::SubmitEnd;
use std::marker::Model;

/// The remains of a seat that its owner left. The model is that of the seat.
#[derive(Drop)]
pub struct LeftSeat {
    ends: SeatEnds,
}

impl Model for LeftSeat {
    ghost use Rattle.rly_line.specs.Seats.{Caller};

    ghost Value = { Caller };

    ghost view = { λ s. s.ends };
}

impl LeftSeat {
    /// These ends, which submit no more.
    pub(crate) fn new(ends: SeatEnds) -> LeftSeat
        ensures { result ≡ ends }
    {
        LeftSeat { ends }
    }

    /// Its number, and its two ends.
    pub(crate) fn into_lines(self) -> (u64, SubmitEnd, HearingEnd)
        ensures seat { result.0 ≡ self.seat.0 }
        ensures line { result.1 ≡ record { of = self.of; seat = self.seat.0; put = self.put; refused = self.refused } }
        ensures replies { result.2
            ≡ record result.2 { of = self.replies; seat = self.seat.0; base = self.base; known = self.known } }
    {
        let number = self.ends.id().0;
        let (line, replies) = self.ends.into_lines();
        (number as u64, line, replies)
    }
}
