ghost use Rattle.std.specs.Prelude.{◌≡◌, ◌<◌, ◌≤◌, [], false, length, IfOk};
ghost use Rattle.rly_line.specs.EndViews.{names_of, new_reply_ends};
ghost use Rattle.rly_line.specs.Seats.{new_callers};

use crate::line_end::LineEnd;
use crate::replies::reply_line;
use crate::seat::Seat;
use crate::submission::Line;
use rly_core::limits::{MAX_CAPACITY, MAX_SEATS};
use rly_machine::SeatId;
use std::alloc::{AllocError, Global};

/// A queue of at most `capacity` batches, with `count` seats and its receiving end: 1 to 256 each. Each seat has an
/// answer queue of its own, which holds one batch of answers.
pub fn make(alloc: Global, capacity: u16, seats: u16) -> Result<(Vec<Seat>, LineEnd), AllocError>
    requires capacity { (1 ≤ capacity) × (capacity ≤ MAX_CAPACITY) }
    requires seats { (1 ≤ seats) × (seats ≤ MAX_SEATS) }
    ensures seats { IfOk result (λ made. made.0.items ≡ new_callers made.1.of 0 (names_of made.1.lines)) }
    ensures count { IfOk result (λ made. length made.1.lines ≡ seats) }
    ensures capacity { IfOk result (λ made. made.1.capacity ≡ capacity) }
    ensures end { IfOk result (λ made. made.1
        ≡ record made.1 { taken = []; lines = new_reply_ends 0 (names_of made.1.lines); over = false }) }
{
    let mut line = Line::new(alloc, capacity as usize)?;
    let mut made = Vec::with_capacity(alloc, seats as usize)?;
    let mut replies = Vec::with_capacity(alloc, seats as usize)?;
    for number in 0..seats {
        let (tells, hears) = reply_line(alloc, number)?;
        let puts = line.seat()?;
        let seat = Seat::new(alloc, SeatId(number), puts, hears)?;
        replies.push_reserved(tells);
        made.push_reserved(seat);
    }
    let calls = line.into_end(seats as usize);
    let end = LineEnd::new(calls, replies);
    Ok((made, end))
}
