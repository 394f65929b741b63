use rly_disk::Disk;
use rly_journal::Journal;
use rly_line::HasState;

/// The journal that a flusher owns. It represents its state, as far as it was answered.
#[derive(Drop)]
pub struct OwnedJournal<D: Disk> {
    pub(crate) journal: Journal<D>,
}

impl<D: Disk> HasState for OwnedJournal<D> {
    ghost use Rattle.rly_flush.specs.FlusherHistory.{answered_state};

    ghost state = { λ s. answered_state s.journal };
}
