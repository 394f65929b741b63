//! The running relay with a reporter in parallel.

ghost use Rattle.std.specs.Prelude.{◌≡◌, ◌≤◌, ◌+◌, ◌∷◌, ◌++◌, ◌&&◌, [], Bool, Err, IfErr, IfOk, None, Ok, OnOk, length, map};
ghost use Rattle.rly_core.specs.declared.refusal.Refusal.TheVariants as refusal;
ghost use Rattle.rly_station.specs.declared.serve_fault.ServeFault.TheVariants as fault;
ghost use Rattle.rly_station.specs.declared.file_fault.Cause.TheVariants as cause;
ghost use Rattle.rly_station.specs.Keys.{AreKeysOf};
ghost use Rattle.rly_daemon_serve.specs.Helpers.{own_station, post_below, station_of};
ghost use Rattle.rly_daemon_serve.specs.ReportedRelay.{HasReports};
ghost use Rattle.rly_daemon_serve.specs.ServedRelay.{FitsPlan, HasRunOver, LacksRoom, end_fault};
ghost use Rattle.rly_posts.specs.Duties.{duties, duty_over};
ghost use Rattle.rly_spool_log.specs.SpoolLog.{first_log};
ghost use Rattle.rly_station.specs.Workers.{workers_of};
ghost use Rattle.rly_hop.specs.Spelling.{longest_message};
ghost use Rattle.rly_journal.specs.Journal.{JournalState};
ghost use Rattle.rly_plan.specs.Sound.{IsSoundPlan};
ghost use Rattle.rly_daemon_reporter.specs.CountedLink.{new_counted};
ghost use Rattle.rly_daemon_reporter.specs.TalliedLink.{counted_below, link_below};
ghost use Rattle.rly_threads.specs.Relay.{IsRelayEnd};
ghost use Rattle.rly_line.specs.EndViews.{names_of};
ghost use Rattle.rly_line.specs.ResponderView.{IsAnsweredBy};
ghost use Rattle.rly_daemon_reporter.specs.ReporterAtSeat.{HasWatchedAt};

use crate::served_relay::{RelaySettings, Served, end_fault, ready_posts, report_start};
use crate::wall_report_clock::WallReportClock;
use rly_daemon_reporter::{Counters, ReportClock, Reported, TalliedLink, Tally, run_reported};
use rly_disk::Disk;
use rly_flush::RoundWatch;
use rly_hop::StationId;
use rly_journal::Journal;
use rly_link::{Link, Post, Turn, Waker, Worker};
use rly_link_auth::MeteredLink;
use rly_link_udp::{SenderWaker, WallClock};
use rly_plan::Plan;
use rly_posts::NeighbourLink;
use rly_spool_log::SpoolWatch;
use rly_station::{ErrorLines, PlanKeys, ServeFault, neighbour_of};
use std::alloc::{AllocError, Global};
use std::fs::{File, Files};
use std::io::Write;
use std::net::Net;
use std::sync::{Arc, OnceLock, Wait};
use std::thread::Threads;
use std::time::{Clock, Duration};

/// The link of a neighbour whose counts are reported.
type TalliedNeighbourLink<'a, H> = TalliedLink<NeighbourLink<&'a H>, &'a H>;

/// A worker of the relay, its link, its clock and its waker.
type TalliedPost<'a, H> = Post<TalliedNeighbourLink<'a, H>, WallClock<&'a H>, SenderWaker>;

/// The results of a relay over UDP and its reporter.
pub type UdpReported<'a, 'o, D, H> = Reported<
    D,
    TalliedNeighbourLink<'a, H>,
    WallClock<&'a H>,
    SenderWaker,
    WallReportClock<'o, &'a H>,
    Arc<Tally, Global>,
>;

/// The inputs of a station's reporter.
#[derive(Drop)]
pub struct Reports<'o> {
    /// Seconds between two reports: 0 = none.
    pub seconds: u64,
    /// The counters of the workers.
    pub tally: Arc<Tally, Global>,
    /// The stop flag of the relay, set once it ends.
    pub stop_flag: &'o OnceLock<bool>,
}

/// The same as `serve`, with a report to a writer at once, and one every `seconds` seconds. If the turns are
/// limited, the reporter sleeps as often as a worker has turns, and ends then too. If the system has no thread for
/// the reporter, it serves without reports, and the fault at its end is `Worker`.
pub fn serve_reporting<
    'a,
    'o,
    H: AllocGlobal + Files<File = File> + Clock + Net + Threads + Wait + Sync,
    D: Disk + Drop,
    W: Write + Send,
    E: Write,
>(
    rt: &'a H,
    journal: Journal<D>,
    plan: &Plan,
    keys: PlanKeys<'_>,
    settings: RelaySettings,
    size: u64,
    lines: Arc<ErrorLines, Global>,
    reports: Reports<'o>,
    writer: &mut W,
    errors: &mut E,
) -> Result<Served<UdpReported<'a, 'o, D, H>>, (ServeFault, D)>
where
    H::Dir: Send + Sync,
    H::Stream: Send + Sync,
    H::Listener: Send + Sync,
    requires sound { IsSoundPlan plan.now }
    requires keys { AreKeysOf plan.now keys }
    ensures room { OnOk result (FitsPlan plan.now journal.state.params) }
    ensures lacks { LacksRoom plan.now journal.state.params
        → (result ≡ Err (fault.Refused refusal.BadGeometry cause.Plan, journal.disk))
        × (writer.new ≡ writer.old) × (errors.new ≡ errors.old) }
    // On an error the device is as it was: no call of it was made.
    ensures nothing { IfErr result (λ failed. failed.1 ≡ journal.disk) }
    // Each worker of the plan that had a thread did at its post and its seat what the plan says of it, as far as its link
    // tells, and the journal is what its flusher's rounds made of it, also if it broke. The reporter had a seat as well.
    ensures ran { IfOk result
        (λ served. HasRunOver D.state link_below (length (workers_of plan.now) + 1) plan.now keys.entry journal
        settings.turns served.end.relayed) }
    // It ended well exactly if its journal isn't broken, each worker ran until its turns were ended, the reporter had a
    // thread, and all was told.
    ensures fault { IfOk result (λ served. (told : Bool) × (served.fault
        ≡ end_fault served.end.relayed.finished.broken (served.end.relayed.complete && served.end.had_thread) told)) }
    // A relay without a limit of turns never ends well.
    ensures ends { IfOk result (λ served. served.fault ≡ None → 1 ≤ settings.turns) }
    // The bytes written are a report at each due moment, of the answers to the reporter's seat.
    ensures reported { IfOk result
        (λ served. HasReports plan.now served.end.relayed.finished.last.value.line (W.contents writer.old)
        (W.contents writer.new) served.end.watched.seat.value served.end.watched.end) }
{
    let (posts, mut bell, mut watch, is_told) = match tallied_start(
        rt,
        &journal,
        plan,
        keys,
        settings,
        size,
        lines,
        &reports.tally,
        errors,
    ) {
        Ok(started) => started,
        Err(fault) => return Err((fault, journal.into_disk())),
    };
    let Reports {
        seconds,
        tally,
        stop_flag,
    } = reports;
    let pace = WallReportClock::new(rt, stop_flag, seconds, settings.turns);
    run_tallied(
        rt,
        rt.alloc(),
        journal,
        settings.gather,
        plan,
        posts,
        &mut bell,
        &mut watch,
        pace,
        tally,
        writer,
        stop_flag,
        is_told,
    )
}

/// Runs a relay whose workers have these posts, with a reporter in parallel, and returns its end.
fn run_tallied<
    R: Threads + Wait + Clock + Sync,
    D: Disk + Drop,
    L: Link + Drop + Send,
    T: Turn + Drop + Send,
    K: Waker + Drop + Send,
    P: ReportClock + Drop + Send,
    C: Counters + Drop + Send,
    W: Write + Send,
    B: Waker,
    V: RoundWatch,
>(
    rt: &R,
    alloc: Global,
    journal: Journal<D>,
    gather: Duration,
    plan: &Plan,
    posts: Vec<Post<L, T, K>>,
    bell: &mut B,
    watch: &mut V,
    pace: P,
    counters: C,
    writer: &mut W,
    stop_flag: &OnceLock<bool>,
    is_told: bool,
) -> Result<Served<Reported<D, L, T, K, P, C>>, (ServeFault, D)>
    requires count { (1 ≤ length posts.items) × (length posts.items ≤ 255) }
    requires sound { IsSoundPlan plan.now }
    ensures nothing { IfErr result (λ failed. failed.1 ≡ journal.disk) }
    ensures end { IfOk result (λ served. IsRelayEnd D.state L.heard L.sent T.told T.endless K.woken plan.now journal
        (length posts.items + 1) posts.items served.end.relayed) }
    ensures fault { IfOk result (λ served. served.fault
        ≡ end_fault served.end.relayed.finished.broken (served.end.relayed.complete && served.end.had_thread) is_told) }
    ensures watched { IfOk result (λ served. HasWatchedAt P.told C.seen plan.now pace counters
        served.end.relayed.finished.last.value.line.of (names_of served.end.relayed.finished.last.value.line.lines)
        (W.contents writer.old) (W.contents writer.new) served.end.watched
        × IsAnsweredBy served.end.relayed.finished.last.value.line served.end.watched.seat.value) }
{
    let outcome = run_reported(
        rt, alloc, journal, gather, plan, posts, bell, watch, pace, counters, writer, stop_flag,
    );
    served_of(outcome, true, is_told)
}

/// The end of a relay and its reporter. `had_thread` is whether the rest of the station had its threads.
pub(crate) fn served_of<
    D: Disk + Drop,
    L: Link + Drop,
    T: Turn + Drop,
    K: Waker + Drop,
    P: ReportClock + Drop,
    C: Counters + Drop,
>(
    outcome: Result<Reported<D, L, T, K, P, C>, Journal<D>>,
    had_thread: bool,
    is_told: bool,
) -> Result<Served<Reported<D, L, T, K, P, C>>, (ServeFault, D)>
    ensures nothing { IfErr result
        (λ failed. (back : JournalState D) × (outcome ≡ Err back) × (failed.1 ≡ back.disk)) }
    ensures same { IfOk result (λ served. outcome ≡ Ok served.end) }
    ensures fault { IfOk result (λ served. served.fault ≡ end_fault served.end.relayed.finished.broken
        ((served.end.relayed.complete && served.end.had_thread) && had_thread) is_told) }
{
    match outcome {
        Ok(end) => {
            let is_complete = end.relayed.complete && end.had_thread && had_thread;
            let fault = end_fault(end.relayed.finished.broken, is_complete, is_told);
            Ok(Served { end, fault })
        }
        Err(journal) => Err((AllocError.into(), journal.into_disk())),
    }
}

/// The workers of a plan, whose links publish their counts to a tally, the watch of the spool, and whether the startup
/// lines were written.
pub(crate) fn tallied_start<
    'a,
    H: AllocGlobal + Files<File = File> + Clock + Net,
    D: Disk,
    E: Write,
>(
    rt: &'a H,
    journal: &Journal<D>,
    plan: &Plan,
    keys: PlanKeys<'_>,
    settings: RelaySettings,
    size: u64,
    lines: Arc<ErrorLines, Global>,
    tally: &Arc<Tally, Global>,
    errors: &mut E,
) -> Result<
    (
        Vec<TalliedPost<'a, H>>,
        SenderWaker,
        SpoolWatch<&'a H>,
        bool,
    ),
    ServeFault,
>
    requires { IsSoundPlan plan.now }
    ensures room { OnOk result (FitsPlan plan.now journal.now.state.params) }
    ensures lacks { LacksRoom plan.now journal.now.state.params
        → (result ≡ Err (fault.Refused refusal.BadGeometry cause.Plan)) × (errors.new ≡ errors.old) }
    ensures posts { IfOk result (λ started. map (duty_over link_below) started.0.items
        ≡ duties plan.now keys.entry (longest_message journal.now.state.params.payload) settings.turns) }
    ensures watch { IfOk result (λ started. started.2 ≡ first_log journal.now.state) }
{
    let (posts, bell, watch) = ready_posts(
        rt,
        journal,
        plan,
        keys,
        settings.turns,
        settings.is_patient,
        lines,
    )?;
    let is_told = report_start(rt.alloc(), journal, plan, size, &posts, errors).is_ok();
    match tallied_posts(rt, plan, posts, tally) {
        Ok(posts) => Ok((posts, bell, watch, is_told)),
        Err(refused) => Err(refused.into()),
    }
}

/// The same posts, whose links publish their counts to a tally.
fn tallied_posts<
    'a,
    H: AllocGlobal + Clock,
    L: MeteredLink + Drop,
    T: Turn + Drop,
    K: Waker + Drop,
>(
    rt: &'a H,
    plan: &Plan,
    posts: Vec<Post<L, T, K>>,
    tally: &Arc<Tally, Global>,
) -> Result<Vec<Post<TalliedLink<L, &'a H>, T, K>>, AllocError>
    ensures { IfOk result (λ told. map post_below told.items ≡ posts.items) }
{
    let mut told = Vec::new(rt.alloc());
    for post in posts {
        add_tallied_post(rt, plan, post, tally, &mut told)?;
    }
    Ok(told)
}

/// One more post, whose link publishes its counts to a tally.
fn add_tallied_post<'a, H: Clock, L: MeteredLink + Drop, T: Turn + Drop, K: Waker + Drop>(
    clock: &'a H,
    plan: &Plan,
    post: Post<L, T, K>,
    tally: &Arc<Tally, Global>,
    told: &mut Vec<Post<TalliedLink<L, &'a H>, T, K>>,
) -> Result<(), AllocError>
    ensures { OnOk result (map post_below told.new.items ≡ map post_below told.old.items ++ post ∷ []) }
{
    let tally = Arc::try_clone(tally)?;
    told.push(tallied_post(clock, plan, post, tally))?;
    Ok(())
}

/// The same post, whose link publishes its counts to a tally.
fn tallied_post<'a, H: Clock, L: MeteredLink, T: Turn, K: Waker>(
    clock: &'a H,
    plan: &Plan,
    post: Post<L, T, K>,
    tally: Arc<Tally, Global>,
) -> Post<TalliedLink<L, &'a H>, T, K>
    ensures { post_below result ≡ post }
{
    let Post {
        worker,
        link,
        turn,
        waker,
    } = post;
    let link = tallied_link(clock, plan, worker, link, tally);
    Post {
        worker,
        link,
        turn,
        waker,
    }
}

/// A worker's link, which publishes its counts to a tally.
fn tallied_link<'a, H: Clock, L: MeteredLink>(
    clock: &'a H,
    plan: &Plan,
    worker: Worker,
    link: L,
    tally: Arc<Tally, Global>,
) -> TalliedLink<L, &'a H>
    ensures below { link_below result ≡ link }
    // It counts the packets between this station and the neighbour's.
    ensures counted { counted_below result ≡ new_counted link worker (own_station plan.now) (station_of plan.now worker) }
{
    let own = StationId(plan.station());
    let station = station_of(plan, worker);
    TalliedLink::new(link, worker, own, station, clock, tally)
}

/// The station of a worker's neighbour: 0 if the neighbour isn't in the plan.
fn station_of(plan: &Plan, worker: Worker) -> StationId
    ensures { result ≡ station_of plan.now worker }
{
    match neighbour_of(plan, worker) {
        Some(neighbour) => StationId(neighbour.station),
        None => StationId(0),
    }
}
