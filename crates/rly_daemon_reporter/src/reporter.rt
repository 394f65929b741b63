ghost use Rattle.std.specs.Prelude.{◌≡◌, ◌≤◌, ◌∷◌, [], Bool, IfOk, OnOk, length, true, vec_capacity};
ghost use Rattle.rly_core.specs.Bounds.{IsIn};
ghost use Rattle.rly_plan.specs.Sound.{IsSoundPlan};
ghost use Rattle.rly_daemon_report.specs.Hops.{show_asks};
ghost use Rattle.rly_daemon_report.specs.declared.counted_report.Counted.{Counted as ACounted};
ghost use Rattle.rly_daemon_reporter.specs.HelpersReporterRun.{GoesOn, HasAdded, HasMade, HasWrittenText};
ghost use Rattle.rly_daemon_reporter.specs.ReporterRun.{Due as ADue, HasReported};
ghost use Rattle.rly_threads_workers.specs.DeskExchanges.{batch_outcome};
ghost use Rattle.rly_link.specs.LinkHistory.{TellsMore};

use crate::counters::Counters;
use crate::report_clock::ReportClock;
use rly_daemon_reply::write_whole;
use rly_daemon_report::{Counted, show_asks, text_of_answers};
use rly_line::BatchError;
use rly_machine::{Answer, Ask};
use rly_plan::Plan;
use rly_threads_workers::Desk;
use std::alloc::{AllocError, Global};
use std::io::Write;
use std::marker::Model;
use std::sync::Wait;

/// The reason why a reporter ended.
#[derive(Clone, Copy, PartialEq, Eq)]
pub enum ReporterEnd {
    /// No more reports are due.
    NoneDue,
    /// Its asks weren't answered: the queue is closed.
    Closed,
    /// Its writer failed.
    Output,
}

/// The interfaces of a reporter, apart from its writer. The model: their ghost histories.
#[derive(Drop)]
pub struct Reporter<K: Desk, P: ReportClock, C: Counters> {
    /// Executes its asks.
    pub desk: K,
    /// Schedules its reports.
    pub pace: P,
    /// Reads the counters.
    pub counters: C,
}

impl<K: Desk, P: ReportClock, C: Counters> Model for Reporter<K, P, C> {
    ghost use Rattle.rly_daemon_reporter.specs.ReporterRun.{ReporterView};

    ghost Value = { ReporterView };

    ghost view = { λ r. record { asked = K.asked r.desk; paced = P.told r.pace; seen = C.seen r.counters } };
}

/// Writes a report whenever one is due, until no more are due, the queue is closed or the writer fails. A report is
/// skipped if memory is refused for it.
pub fn reporter_run<R: Wait, K: Desk, P: ReportClock, C: Counters, W: Write>(
    rt: &R,
    alloc: Global,
    plan: &Plan,
    reporter: &mut Reporter<K, P, C>,
    writer: &mut W,
) -> ReporterEnd
    requires { IsSoundPlan plan.now }
    // Its asks and its text are exactly those of its moments, answers and counts, in order.
    ensures { HasReported plan.now reporter.old reporter.new (W.contents writer.old) (W.contents writer.new) result }
{
    for _report in rt.forever() {
        let Some(moment) = reporter.due(rt) else {
            return ReporterEnd::NoneDue;
        };
        if let Err(end) = reporter.report(rt, alloc, plan, moment, writer) {
            return end;
        }
    }
    unreachable!()
}

impl<K: Desk, P: ReportClock, C: Counters> Reporter<K, P, C> {
    /// Waits until a report is due, and returns the moment, unless no more are due.
    fn due<R: Wait>(&mut self, rt: &R) -> Option<u64>
        ensures told { TellsMore self.old.paced self.new.paced (result ∷ []) }
        ensures same { self.new ≡ record self.old { paced = self.new.paced } }
    {
        self.pace.next(rt)
    }

    /// Makes one report.
    fn report<R: Wait, W: Write>(
        &mut self,
        rt: &R,
        alloc: Global,
        plan: &Plan,
        moment: u64,
        writer: &mut W,
    ) -> Result<(), ReporterEnd>
        requires { IsSoundPlan plan.now }
        ensures { (due : ADue) × (due.moment ≡ moment)
            × HasMade plan.now due self.old self.new (W.contents writer.old) (W.contents writer.new) result }
    {
        let Ok((mut asks, mut answers)) = lists_for(alloc, plan) else {
            return Ok(());
        };
        match self.ask(rt, &mut asks, &mut answers) {
            Ok(()) => self.tell(alloc, plan, moment, &answers, writer),
            Err(_) => Err(ReporterEnd::Closed),
        }
    }

    /// Submits all of these together.
    fn ask<R: Wait>(
        &mut self,
        rt: &R,
        asks: &mut Vec<Ask>,
        answers: &mut Vec<Answer>,
    ) -> Result<(), BatchError>
        requires count { IsIn 1 64 (length asks.old.items) }
        requires empty { answers.old.items ≡ [] }
        requires room { length asks.old.items ≤ vec_capacity answers.old }
        ensures asked { TellsMore self.old.asked self.new.asked
            ((asks.old.items, batch_outcome result answers.new.items) ∷ []) }
        ensures each { OnOk result (length answers.new.items ≡ length asks.old.items) }
        ensures same { self.new ≡ record self.old { asked = self.new.asked } }
    {
        self.desk.call_all(rt, asks, answers)
    }

    /// Reads the counters, and writes the text of a report with these answers.
    fn tell<W: Write>(
        &mut self,
        alloc: Global,
        plan: &Plan,
        moment: u64,
        answers: &[Answer],
        writer: &mut W,
    ) -> Result<(), ReporterEnd>
        requires sound { IsSoundPlan plan.now }
        requires each { length answers.now ≡ length plan.now.hops }
        ensures { (counted : ACounted) × (refused : Bool)
            × HasWrittenText plan.now moment answers.now counted refused self.old self.new
            (W.contents writer.old) (W.contents writer.new) result }
    {
        let counted = self.look();
        match text_of_answers(alloc, plan, moment, answers, &counted) {
            Ok(text) => write_report(writer, text.as_bytes()),
            Err(AllocError) => Ok(()),
        }
    }

    /// Reads the counters.
    fn look(&mut self) -> Counted
        ensures seen { TellsMore self.old.seen self.new.seen (result ∷ []) }
        ensures same { self.new ≡ record self.old { seen = self.new.seen } }
    {
        self.counters.look()
    }
}

/// Writes the text of a report, and flushes.
fn write_report<W: Write>(writer: &mut W, text: &[u8]) -> Result<(), ReporterEnd>
    ensures written { HasAdded result (W.contents writer.old) (W.contents writer.new) text.now }
    ensures open_still { GoesOn result true }
{
    match write_whole(writer, text) {
        Ok(()) => match writer.flush() {
            Ok(()) => Ok(()),
            Err(_) => Err(ReporterEnd::Output),
        },
        Err(_) => Err(ReporterEnd::Output),
    }
}

/// The Shows of a report, and an empty list with room for their answers.
fn lists_for(alloc: Global, plan: &Plan) -> Result<(Vec<Ask>, Vec<Answer>), AllocError>
    requires { IsSoundPlan plan.now }
    ensures asks { IfOk result (λ lists. lists.0.items ≡ show_asks plan.now) }
    ensures count { IfOk result (λ lists. length lists.0.items ≡ length plan.now.hops) }
    ensures answers { IfOk result (λ lists. (lists.1.items ≡ []) × (length plan.now.hops ≤ vec_capacity lists.1)) }
{
    let asks = show_asks(alloc, plan)?;
    let answers = Vec::with_capacity(alloc, plan.hop_count())?;
    Ok((asks, answers))
}
