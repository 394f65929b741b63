//! The counts of opened gates, for a station that reports.

ghost use Rattle.std.specs.Prelude.{◌≡◌, ◌≢◌, ◌+◌, ◌*◌, ◌<◌, ◌≤◌, ◌^◌, ◌↔◌, ◌∷◌, [], IsTrue, ℕ};
ghost use Rattle.rly_daemon.specs.Gates.{BeginsSegment, one_more};
ghost use Rattle.rly_gate.specs.Group.{open_gate};
ghost use Rattle.rly_segment.specs.Heads.{segment_place};

use rly_core::Geometry;
use rly_daemon_reporter::Tally;
use rly_gate::OPEN_GATE;
use rly_segment::segment_place;
use std::alloc::Global;
use std::sync::Arc;

/// Counts the gates opened on a device: those of segments, and those of the groups that rounds write.
#[derive(Drop)]
pub(crate) struct GateTally {
    /// The device address of the first segment, and the length of each.
    first: u64,
    length: u64,
    rounds: u64,
    segments: u64,
    tally: Arc<Tally, Global>,
}

impl GateTally {
    /// Zero counts, for a device of this geometry.
    pub(crate) fn new(geometry: &Geometry, tally: Arc<Tally, Global>) -> GateTally
        requires { geometry.now.length < 2 ^ 31 }
        ensures segments { (result.first ≡ segment_place geometry.now 0) × (result.length ≡ geometry.now.length) }
        ensures none { (result.rounds ≡ 0) × (result.segments ≡ 0) }
    {
        GateTally {
            first: segment_place(geometry, 0),
            length: geometry.length,
            rounds: 0,
            segments: 0,
            tally,
        }
    }

    /// These bytes were written at a device address.
    pub(crate) fn note(&mut self, place: u64, bytes: &[u8])
        ensures closed { bytes.now ≢ open_gate ∷ [] → self.new ≡ self.old }
        ensures segment { 1 ≤ self.old.length → bytes.now ≡ open_gate ∷ [] → BeginsSegment self.old place
            → self.new ≡ record self.old { segments = one_more self.old.segments } }
        ensures round { 1 ≤ self.old.length → bytes.now ≡ open_gate ∷ [] → ¬ BeginsSegment self.old place
            → self.new ≡ record self.old { rounds = one_more self.old.rounds } }
    {
        if bytes != [OPEN_GATE].as_slice() {
            return;
        }
        if self.begins_segment(place) {
            self.segments = self.segments.saturating_add(1);
        } else {
            self.rounds = self.rounds.saturating_add(1);
        }
        self.tally.set_rounds(self.rounds, self.segments);
    }

    #[tactic(auto, using(crate::proofs::Beginnings::begins_there, crate::proofs::Beginnings::there_begins))]
    /// Whether a segment begins at a device address, so that a gate there is the segment's.
    fn begins_segment(&self, place: u64) -> bool
        ensures { 1 ≤ self.now.length → IsTrue result ↔ BeginsSegment self.now place }
    {
        if self.length == 0 || place < self.first {
            return false;
        }
        (place - self.first) % self.length == 0
    }
}
