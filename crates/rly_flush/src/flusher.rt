ghost use Rattle.std.specs.Prelude.{◌≡◌, ◌≤◌, ◌↔◌, ℕ, [], None, false, true, length, map, vec_capacity, IfErr, IfOk};
ghost use Rattle.std.specs.Prelude.{MatchBool};
ghost use Rattle.std.specs.List.{range_with_len};
ghost use Rattle.rly_core.specs.Bounds.{IsIn};
ghost use Rattle.rly_disk.specs.DiskModel.{Later};
ghost use Rattle.rly_line.specs.EndViews.{names_of, new_reply_ends};
ghost use Rattle.rly_line.specs.ResponderView.{IsLeftBy, calls_in};
ghost use Rattle.rly_line.specs.Submission.{IsBeginning};
ghost use Rattle.rly_flush.specs.FlusherHistory.{AreLostOrShut, GrewInRound, IsCrashSafe, IsOneHistory, IsOneRound};
ghost use Rattle.rly_flush.specs.FlusherHistory.{IsServed, new_flusher, over_now};
ghost use Rattle.rly_flush.specs.HelpersFlusher.{IsRounded};
ghost use Rattle.rly_flush.specs.RoundWatch.{HasWatched, HasWatchedRound};

use crate::owned_journal::OwnedJournal;
use crate::round_calls::{Lists, answer_all, collect};
use crate::round_watch::RoundWatch;
use rly_disk::Disk;
use rly_journal::Journal;
use rly_line::{Batch, ClosedEnd, LineEnd, Responder, Seat};
use rly_machine::{Answer, Call};
use std::alloc::Global;
use std::marker::Model;
use std::snapshot::Snapshot;
use std::sync::Wait;
use std::time::{Clock, Duration};

/// The one thread that owns the journal, at the receiving end of all queues. The model: the journal at first and
/// now, the batch kept for the next round, and the calls with their answers.
#[derive(Drop)]
pub struct Flusher<D: Disk> {
    alloc: Global,
    first: Snapshot<OwnedJournal<D>>,
    owned: OwnedJournal<D>,
    line: Responder<OwnedJournal<D>>,
    kept: Option<Batch>,
    lists: Lists,
    /// The pause of a round, in which it gathers more calls.
    gather: Duration,
}

impl<D: Disk> Model for Flusher<D> {
    ghost use Rattle.rly_flush.specs.HelpersFlusher.{IsFlushing, IsRoundReady};
    ghost use Rattle.rly_flush.specs.FlusherHistory.{FlusherState};

    ghost Value = { FlusherState D };

    ghost view = { λ f.
        record { first = f.first.value.journal; journal = f.owned.journal; kept = f.kept; line = f.line } };

    ghost invariant = { λ f. IsFlushing D.state
        (record { first = f.first.value.journal; journal = f.owned.journal; kept = f.kept; line = f.line })
        × IsRoundReady f.lists };
}

/// The result of a flusher that ended.
#[derive(Drop)]
pub struct Finished<D: Disk> {
    /// Whether a write or a sync failed: the journal refuses every call until the device is opened again.
    pub broken: bool,
    pub journal: Journal<D>,
    /// Its end of all queues, closed: the laws of the seats that left are on it.
    pub lines: ClosedEnd,
    /// The flusher at its end, for proofs: its history, and the journal at first. It has no size at run time.
    pub last: Snapshot<Flusher<D>>,
}

impl<D: Disk> Flusher<D> {
    /// Takes ownership of a journal, at the end of new queues. If memory is refused for one round of 64 calls,
    /// hands both back; later rounds take no memory for their calls and answers.
    pub fn new(
        alloc: Global,
        journal: Journal<D>,
        line_end: LineEnd,
    ) -> Result<Flusher<D>, (Journal<D>, LineEnd)>
        requires { line_end ≡ record line_end { taken = []; lines = new_reply_ends 0 (names_of line_end.lines) } }
        ensures begins { IfOk result (λ flusher. flusher ≡ new_flusher journal line_end) }
        ensures history { IfOk result (λ flusher. IsOneHistory D.state flusher) }
        ensures refused { IfErr result (λ back. (back.0 ≡ journal) × (back.1 ≡ line_end)) }
    {
        let Ok(lists) = Lists::reserve(alloc) else {
            return Err((journal, line_end));
        };
        journal.law_durable();
        journal.law_counted();
        let owned = OwnedJournal { journal };
        let first = Snapshot::of(&owned);
        let line = Responder::new(line_end, &owned);
        Ok(Flusher {
            alloc,
            first,
            owned,
            line,
            kept: None,
            lists,
            gather: Duration::ZERO,
        })
    }

    /// The same flusher, whose rounds pause for this long to gather more calls.
    pub fn with_gather(self, gather: Duration) -> Flusher<D>
        // What a round does with the calls that it took doesn't depend on the pause.
        ensures { result ≡ self }
    {
        Flusher { gather, ..self }
    }

    /// Takes the batch that was kept, or else waits for one, takes more while there are any and they hold at most
    /// 64 calls together, makes one round of the journal for them, and answers each batch. A batch that does not
    /// fit is kept for the next round. If the round has a command and room for more calls, it pauses first, if the
    /// flusher has a pause, and takes what came meanwhile. On a broken journal, takes only one batch, without a
    /// pause. Shows the round to `watch`. Returns false if no batch and no seat is left.
    pub fn round<R: Wait + Clock, W: RoundWatch>(&mut self, rt: &R, watch: &mut W) -> bool
        // Returns true iff it made one round of the journal, for the batch that was kept and those it received.
        ensures took { MatchBool result (IsOneRound D.state self.old self.new) (self.new ≡ over_now self.old) }
        ensures none_kept { result ≡ false → self.old.kept ≡ None }
        ensures watched { MatchBool result (HasWatchedRound (W.shown watch.old) (W.shown watch.new) self.old self.new)
            (watch.new ≡ watch.old) }
        // On a broken journal it takes one batch alone, and keeps none.
        ensures alone { self.old.journal.broken ≡ true → self.new.kept ≡ None }
        ensures first { self.new.first ≡ self.old.first }
        ensures of { self.new.line.of ≡ self.old.line.of }
        ensures start { self.new.line.start ≡ self.old.line.start }
        ensures names { names_of self.new.line.lines ≡ names_of self.old.line.lines }
        ensures history { IsOneHistory D.state self.new }
        // An answer of this round reports a failure only if one occurred.
        ensures failures { GrewInRound D.state self.old self.new }
        ensures any_moment { (D.state self.old.journal.disk).honest → self.old.first.broken ≡ false
            → IsCrashSafe D.state self.old self.new }
        ensures later { Later (D.state self.old.journal.disk) (D.state self.new.journal.disk) }
    {
        let alone = self.owned.journal.is_broken();
        if !collect(
            rt,
            &mut self.line,
            &mut self.kept,
            &mut self.lists,
            alone,
            self.gather,
        ) {
            return false;
        }
        watch.begin(&self.lists.calls);
        commit(
            self.alloc,
            &mut self.owned.journal,
            &mut self.lists.calls,
            &mut self.lists.answers,
        );
        let items = self.owned.journal.item_count();
        let bytes = self.owned.journal.byte_count();
        watch.end(&self.lists.answers, items, bytes);
        answer_all(
            rt,
            &mut self.line,
            &mut self.lists.said,
            &mut self.lists.wanted,
            &mut self.lists.answers,
        );
        true
    }

    /// Makes rounds until each seat left or was dropped, or until the journal is broken and each received batch is
    /// answered, and hands the journal back. A batch left in the queue returns `Lost` to its seat, and each later
    /// call `Closed`. Shows each round to `watch`.
    pub fn serve<R: Wait + Clock, W: RoundWatch>(self, rt: &R, watch: &mut W) -> Finished<D>
        ensures broken { result.broken ≡ result.journal.broken }
        ensures journal { result.last.value.journal ≡ result.journal }
        ensures ends { IsServed D.state self result.last.value }
        ensures closed { IsLeftBy result.last.value.line result.lines }
        // The watch was shown each round: the calls and answers of the history, once, in order.
        ensures watched { HasWatched (W.shown watch.old) (W.shown watch.new) self result.last.value }
    {
        let mut flusher = self;
        flusher.law_history();
        for _count in rt.forever() {
            if !flusher.round(rt, watch) || flusher.has_ended() {
                break;
            }
        }
        flusher.into_finished(rt)
    }

    /// Whether the journal is broken and no batch is left to be answered.
    fn has_ended(&self) -> bool
        ensures { (result ≡ true) ↔ ((self.now.journal.broken ≡ true) × (self.now.kept ≡ None)) }
    {
        self.owned.journal.is_broken() && self.kept.is_none()
    }

    /// The invariant of a flusher.
    pub fn law_history(&self)
        ensures { IsOneHistory D.state self.now }
    {
        let _ = &self.line;
    }

    /// The law of each seat at this queue, at each moment: its asks in the history are a prefix, ask for ask, of
    /// the asks that it submitted.
    pub fn law_beginning(&mut self, seat: Seat) -> Seat
        requires { seat.of ≡ self.old.line.of }
        ensures same { (self.new ≡ self.old) × (result ≡ seat) }
        ensures begins { IsBeginning seat.seat.0 (calls_in self.old.line.history) seat.put }
    {
        self.line.law_beginning(seat)
    }

    /// Stops waiting for `seats` seats that were dropped without leaving.
    pub fn forget(&mut self, seats: usize)
        ensures { self.new ≡ self.old }
    {
        self.line.forget(seats);
    }

    /// Hands the journal back, and closes the queues.
    fn into_finished<R: Wait>(self, rt: &R) -> Finished<D>
        ensures broken { result.broken ≡ result.journal.broken }
        ensures journal { result.journal ≡ self.journal }
        ensures last { result.last.value ≡ self }
        ensures closed { IsLeftBy self.line result.lines }
    {
        let last = Snapshot::of(&self);
        let Flusher {
            alloc: _alloc,
            first: _first,
            owned,
            line,
            kept: _kept,
            lists: _lists,
            gather: _gather,
        } = self;
        let OwnedJournal { journal } = owned;
        Finished {
            broken: journal.is_broken(),
            journal,
            lines: line.close(rt),
            last,
        }
    }
}

/// Makes one round of a journal, which has room for it.
fn commit<D: Disk>(
    alloc: Global,
    journal: &mut Journal<D>,
    calls: &mut Vec<Call>,
    answers: &mut Vec<Answer>,
)
    requires count { IsIn 1 64 (length calls.old.items) }
    requires empty { answers.old.items ≡ [] }
    requires room { 64 ≤ vec_capacity answers.old }
    ensures emptied { calls.new.items ≡ [] }
    ensures round { IsRounded D.state journal.old journal.new calls.old.items answers.new.items }
    ensures lost { AreLostOrShut journal.old journal.new calls.old.items answers.new.items }
    ensures calls_capacity { vec_capacity calls.new ≡ vec_capacity calls.old }
    ensures answers_capacity { vec_capacity answers.old ≤ vec_capacity answers.new }
{
    let made = journal.round(alloc, calls, answers);
    prove!(made.is_ok());
}
