/// The state of CoDel for one lane, with the RFC's names (RFC 8289 section 5). In a new state every number is 0 and no
/// phase is on. Times are microseconds.
#[derive(Clone, Copy, PartialEq, Eq)]
pub struct CodelState {
    /// The time at which items will have been over for an interval; 0 if the last candidate wasn't over.
    pub first_above_time: u64,
    /// The time of the next drop of the phase; of the last drop, if the phase has ended.
    pub drop_next: u64,
    /// The drops since the phase began, plus its initial count.
    pub count: u64,
    /// The initial count of the last phase.
    pub lastcount: u64,
    /// True while a dropping phase is on.
    pub dropping: bool,
}

impl CodelState {
    /// The state of a lane before its first dequeue.
    pub const NEW: CodelState = CodelState {
        first_above_time: 0,
        drop_next: 0,
        count: 0,
        lastcount: 0,
        dropping: false,
    };
}

impl Default for CodelState {
    ghost use Rattle.std.specs.Prelude.{◌≡◌};
    ghost use Rattle.rly_codel.specs.Start.{new_codel};

    ghost is_default = { λ s. s ≡ new_codel };

    fn default() -> CodelState {
        CodelState::NEW
    }
}

/// The decision of a dequeue.
#[derive(Clone, Copy, PartialEq, Eq)]
pub struct Verdict {
    /// The number of items to drop from the front.
    pub dropped: usize,
    /// True iff a next item exists and is delivered.
    pub delivered: bool,
}
