//! A relay with a reporter in parallel.

ghost use Rattle.std.specs.Prelude.{◌≡◌, ◌≤◌, ◌+◌, IfErr, IfOk, Some, length};
ghost use Rattle.rly_line.specs.EndViews.{names_of};
ghost use Rattle.rly_line.specs.ResponderView.{IsAnsweredBy};
ghost use Rattle.rly_plan.specs.Sound.{IsSoundPlan};
ghost use Rattle.rly_daemon_reporter.specs.HelpersReporterAtSeat.{HasLeft};
ghost use Rattle.rly_daemon_reporter.specs.ReporterAtSeat.{HasWatchedAt};
ghost use Rattle.rly_threads.specs.Relay.{IsRelayEnd};

use crate::beside::{Both, Task, Work, run_beside};
use crate::counters::Counters;
use crate::report_clock::ReportClock;
use crate::reporter::{Reporter, ReporterEnd, reporter_run};
use rly_disk::Disk;
use rly_flush::RoundWatch;
use rly_journal::Journal;
use rly_line::{LeftSeat, Seat, make};
use rly_link::{Link, Post, Turn, Waker};
use rly_plan::Plan;
use rly_threads::{Relayed, SeatDesk, TurnOwner};
use std::alloc::Global;
use std::io::Write;
use std::marker::Brand;
use std::snapshot::Snapshot;
use std::sync::{OnceLock, Wait};
use std::thread::Threads;
use std::time::{Clock, Duration};

/// A reporter after its end, which had a seat of a relay's queue.
#[derive(Drop)]
pub struct FinishedReporter<P: ReportClock, C: Counters> {
    /// Scheduled its reports.
    pub pace: P,
    /// Read the counters.
    pub counters: C,
    /// The remains of its seat, for proofs. It has no size at run time.
    pub seat: Snapshot<LeftSeat>,
    /// The reason why it ended.
    pub end: ReporterEnd,
}

/// The results of a relay and its reporter.
#[derive(Drop)]
pub struct Reported<D: Disk, L: Link, T: Turn, K: Waker, P: ReportClock, C: Counters> {
    /// The result of the relay.
    pub relayed: Relayed<D, L, T, K>,
    /// The result of the reporter.
    pub watched: FinishedReporter<P, C>,
    /// Whether the reporter got a thread. If it got none it ran after the relay, and no call of it was answered.
    pub had_thread: bool,
}

impl<
    D: Disk + Drop,
    L: Link + Drop,
    T: Turn + Drop,
    K: Waker + Drop,
    P: ReportClock + Drop,
    C: Counters + Drop,
> Reported<D, L, T, K, P, C> {
    /// The reason why the reporter ended.
    pub fn into_end(self) -> ReporterEnd
        ensures { result ≡ self.watched.end }
    {
        let Reported {
            relayed: _relayed,
            watched,
            had_thread: _had_thread,
        } = self;
        let FinishedReporter {
            pace: _pace,
            counters: _counters,
            seat: _seat,
            end,
        } = watched;
        end
    }
}

/// The same as `run_relay`, with a reporter that has the last seat of its queue and a thread of its own. The relay
/// ends once the reporter has left its seat as well, unless the journal broke. The stop flag is set once the
/// workers are to end or the relay has ended: a `ReportClock` that reads it should end. If there is no thread for the
/// reporter the relay runs without it.
pub fn run_reported<
    R: Threads + Wait + Clock + Sync,
    D: Disk + Drop,
    L: Link + Drop + Send,
    T: Turn + Drop + Send,
    K: Waker + Drop + Send,
    P: ReportClock + Drop + Send,
    C: Counters + Drop + Send,
    W: Write + Send,
    B: Waker,
    V: RoundWatch,
>(
    rt: &R,
    alloc: Global,
    journal: Journal<D>,
    gather: Duration,
    plan: &Plan,
    posts: Vec<Post<L, T, K>>,
    bell: &mut B,
    watch: &mut V,
    pace: P,
    counters: C,
    writer: &mut W,
    stop_flag: &OnceLock<bool>,
) -> Result<Reported<D, L, T, K, P, C>, Journal<D>>
    requires count { (1 ≤ length posts.items) × (length posts.items ≤ 255) }
    requires sound { IsSoundPlan plan.now }
    // At the end of a new line that has a seat for each worker and one for the reporter.
    ensures end { IfOk result (λ r. IsRelayEnd D.state L.heard L.sent T.told T.endless K.woken plan.now journal
        (length posts.items + 1) posts.items r.relayed) }
    // The reporter asked at the last seat of that line, and wrote what it was answered there and saw.
    ensures watched { IfOk result (λ r. HasWatchedAt P.told C.seen plan.now pace counters
        r.relayed.finished.last.value.line.of (names_of r.relayed.finished.last.value.line.lines)
        (W.contents writer.old) (W.contents writer.new) r.watched) }
    // Its submitted asks begin with all its asks in the history, and the history that its seat knows is a prefix of
    // that.
    ensures known { IfOk result (λ r. IsAnsweredBy r.relayed.finished.last.value.line r.watched.seat.value) }
    ensures refused { IfErr result (λ back. back ≡ journal) }
{
    let count = posts.len() as u16 + 1;
    let Ok((mut seats, line_end)) = make(alloc, count, count) else {
        return Err(journal);
    };
    let seat = seats.take_last();
    let setup = ReporterSetup {
        rt,
        alloc,
        plan,
        seat,
        pace,
        counters,
        writer,
    };
    let work = Work {
        journal,
        gather,
        posts,
        seats,
        line_end,
    };
    let Both {
        relayed,
        output: (writer, left),
        had_thread,
    } = run_beside(rt, alloc, plan, work, bell, watch, setup, stop_flag);
    take_back(writer);
    let mut relayed = relayed?;
    let seat = Snapshot::of(&left.seat);
    relayed.finished.lines.law_left(left.seat);
    Ok(Reported {
        relayed,
        watched: FinishedReporter {
            pace: left.pace,
            counters: left.counters,
            seat,
            end: left.end,
        },
        had_thread,
    })
}

/// Does nothing, but this use of a returned reference ties it to the one that was lent.
fn take_back<W>(writer: &mut W)
    ensures { writer.new ≡ writer.old }
{}

/// A reporter before its start: its seat, schedule, counters and writer.
#[derive(Drop)]
struct ReporterSetup<'a, 'w, R: Wait, P: ReportClock, C: Counters, W: Write> {
    rt: &'a R,
    alloc: Global,
    plan: &'a Plan,
    seat: Seat,
    pace: P,
    counters: C,
    writer: &'w mut W,
}

/// Its remains.
#[derive(Drop)]
struct Left<P: ReportClock, C: Counters> {
    pace: P,
    counters: C,
    seat: LeftSeat,
    end: ReporterEnd,
}

impl<'a, 'w, R: Wait, P: ReportClock + Drop, C: Counters + Drop, W: Write> Task
    for ReporterSetup<'a, 'w, R, P, C, W> {
    ghost use Rattle.std.specs.Prelude.{◌≡◌};
    ghost use Rattle.rly_plan.specs.Sound.{IsSoundPlan};
    ghost use Rattle.rly_daemon_reporter.specs.HelpersReporterAtSeat.{HasLeft};

    type Output = (&'w mut W, Left<P, C>);

    ghost can_run = { λ w. IsSoundPlan w.plan.now };

    ghost run_gives = { λ w r. (r.0.ghost_name ≡ w.writer.ghost_name)
        × HasLeft P.told C.seen w.plan.now w.pace w.counters w.seat (W.contents w.writer.now)
        (W.contents r.0.now) r.1 };

    fn run(self) -> (&'w mut W, Left<P, C>) {
        let ReporterSetup {
            rt,
            alloc,
            plan,
            seat,
            pace,
            counters,
            writer,
        } = self;
        let left = report_at(rt, alloc, plan, seat, pace, counters, writer);
        (writer, left)
    }
}

/// Runs a reporter at its seat, from its start to its end.
fn report_at<R: Wait, P: ReportClock + Drop, C: Counters + Drop, W: Write>(
    rt: &R,
    alloc: Global,
    plan: &Plan,
    seat: Seat,
    pace: P,
    counters: C,
    writer: &mut W,
) -> Left<P, C>
    requires { IsSoundPlan plan.now }
    ensures { HasLeft P.told C.seen plan.now pace counters seat (W.contents writer.old) (W.contents writer.new) result }
{
    report_as::<Brand, R, P, C, W>(rt, alloc, plan, seat, pace, counters, writer)
}

fn report_as<I: TurnOwner, R: Wait, P: ReportClock + Drop, C: Counters + Drop, W: Write>(
    rt: &R,
    alloc: Global,
    plan: &Plan,
    seat: Seat,
    pace: P,
    counters: C,
    writer: &mut W,
) -> Left<P, C>
    requires sound { IsSoundPlan plan.now }
    requires seat { I.seat ≡ Some seat }
    ensures { HasLeft P.told C.seen plan.now pace counters seat (W.contents writer.old) (W.contents writer.new) result }
{
    let mut reporter = Reporter {
        desk: SeatDesk::<I>::new(seat),
        pace,
        counters,
    };
    let end = reporter_run(rt, alloc, plan, &mut reporter, writer);
    let Reporter {
        desk,
        pace,
        counters,
    } = reporter;
    // The relay ends once each seat has left.
    let seat = desk.leave(rt);
    Left {
        pace,
        counters,
        seat,
        end,
    }
}
