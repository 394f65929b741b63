//! The running relay: its requirements on the device, its workers, and its outcome.

ghost use Rattle.std.specs.Prelude.{◌≡◌, ◌≤◌, ℕ, Bool, Err, IfErr, IfOk, List, None, OnOk, Option, false, length, map};
ghost use Rattle.std.specs.Io.KnownBytes.{Appends};
ghost use Rattle.rly_core.specs.declared.refusal.Refusal.TheVariants as refusal;
ghost use Rattle.rly_hop.specs.Spelling.{longest_message};
ghost use Rattle.rly_plan.specs.Sound.{IsSoundPlan};
ghost use Rattle.rly_plan_show.specs.CodelText.{codel_text};
ghost use Rattle.rly_daemon_serve.specs.ServedRelay.{FitsPlan, HasRun, LacksRoom, end_fault};
ghost use Rattle.rly_posts.specs.Duties.{duties, duty_at};
ghost use Rattle.rly_spool_log.specs.SpoolLog.{first_log};
ghost use Rattle.rly_station.specs.Keys.{AreKeysOf};
ghost use Rattle.rly_station.specs.declared.file_fault.Cause.TheVariants as cause;
ghost use Rattle.rly_station.specs.declared.serve_fault.ServeFault.TheVariants as fault;
ghost use Rattle.rly_threads.specs.Relay.{IsRelayEnd};

use rly_audit::live_items;
use rly_core::{Params, Refusal};
use rly_disk::Disk;
use rly_flush::RoundWatch;
use rly_hop::longest_message;
use rly_journal::Journal;
use rly_link::{Link, Post, Turn, Waker};
use rly_link_udp::{SenderWaker, WallClock};
use rly_plan::Plan;
use rly_plan_show::codel_text_of;
use rly_posts::{NeighbourLink, UdpPost, posts_of};
use rly_spool_log::SpoolWatch;
use rly_station::{Cause, ErrorLines, Logger, PlanKeys, ServeFault, WorkerName};
use rly_threads::{Relayed, run_relay};
use std::alloc::{AllocError, Global};
use std::fs::{File, Files};
use std::io;
use std::io::Write;
use std::net::Net;
use std::sync::{Arc, Wait};
use std::thread::Threads;
use std::time::{Clock, Duration};

/// How a relay runs.
#[derive(Clone, Copy)]
pub struct RelaySettings {
    /// The number of turns of each worker: 0 = without limit.
    pub turns: u64,
    /// The pause of a round, in which it gathers more calls.
    pub gather: Duration,
    /// Whether a link that can't be opened is opened later.
    pub is_patient: bool,
}

/// A relay that was started, at its end.
#[derive(Drop)]
pub struct Served<R> {
    /// Its end, with its journal and all its workers.
    pub end: R,
    /// Why it didn't end well: `Broken`, `Worker` or `Unreported`.
    pub fault: Option<ServeFault>,
}

/// The result of a relay over UDP.
pub type UdpRelayed<'a, D, H> = Relayed<D, NeighbourLink<&'a H>, WallClock<&'a H>, SenderWaker>;

/// Runs the relay of a plan, with the keys of its links, on a journal until each worker had its turns (0: without
/// limit), and returns its end. The workers log their warnings on the lines. When ready, it logs what it serves
/// and the device's size, `size` bytes; if the log fails it still serves, and the fault at its end is `Unreported`.
/// Once the journal is broken each worker ends at its next turn, and the fault is `Broken`. If the system has no
/// thread for one of them, the others end at once, and the fault is `Worker`. An error means that nothing was started,
/// and hands the disk back.
pub fn serve<
    'a,
    H: AllocGlobal + Files<File = File> + Clock + Net + Threads + Wait + Sync,
    D: Disk + Drop,
    E: Write,
>(
    rt: &'a H,
    journal: Journal<D>,
    plan: &Plan,
    keys: PlanKeys<'_>,
    settings: RelaySettings,
    size: u64,
    lines: Arc<ErrorLines, Global>,
    errors: &mut E,
) -> Result<Served<UdpRelayed<'a, D, H>>, (ServeFault, D)>
where
    H::Dir: Send + Sync,
    H::Stream: Send + Sync,
    H::Listener: Send + Sync,
    requires sound { IsSoundPlan plan.now }
    requires keys { AreKeysOf plan.now keys }
    ensures room { OnOk result (FitsPlan plan.now journal.state.params) }
    ensures lacks { LacksRoom plan.now journal.state.params
        → (result ≡ Err (fault.Refused refusal.BadGeometry cause.Plan, journal.disk)) × (errors.new ≡ errors.old) }
    // On an error the device is as it was: no call of it was made.
    ensures nothing { IfErr result (λ failed. failed.1 ≡ journal.disk) }
    // Each worker of the plan that had a thread did at its post and its seat what the plan says of it, as far as its link
    // tells, and the journal is what its flusher's rounds made of it, also if it broke.
    ensures ran { IfOk result (λ served. HasRun D.state plan.now keys.entry journal settings.turns served.end) }
    // It ended well exactly if its journal isn't broken, each worker ran until its turns were ended, and all was told.
    ensures fault { IfOk result
        (λ served. (told : Bool) × (served.fault ≡ end_fault served.end.finished.broken served.end.complete told)) }
    // A relay without a limit of turns never ends well.
    ensures ends { IfOk result (λ served. served.fault ≡ None → 1 ≤ settings.turns) }
{
    let (posts, mut bell, mut watch) = match ready_posts(
        rt,
        &journal,
        plan,
        keys,
        settings.turns,
        settings.is_patient,
        lines,
    ) {
        Ok(ready) => ready,
        Err(fault) => return Err((fault, journal.into_disk())),
    };
    let is_told = report_start(rt.alloc(), &journal, plan, size, &posts, errors).is_ok();
    run_posts(
        rt,
        rt.alloc(),
        journal,
        settings.gather,
        plan,
        posts,
        &mut bell,
        &mut watch,
        is_told,
    )
}

/// Runs a relay whose workers have these posts, and returns its end.
fn run_posts<
    R: Threads + Wait + Clock + Sync,
    D: Disk + Drop,
    L: Link + Drop + Send,
    T: Turn + Drop + Send,
    K: Waker + Drop + Send,
    B: Waker,
    V: RoundWatch,
>(
    rt: &R,
    alloc: Global,
    journal: Journal<D>,
    gather: Duration,
    plan: &Plan,
    posts: Vec<Post<L, T, K>>,
    bell: &mut B,
    watch: &mut V,
    is_told: bool,
) -> Result<Served<Relayed<D, L, T, K>>, (ServeFault, D)>
    requires count { (1 ≤ length posts.items) × (length posts.items ≤ 256) }
    requires sound { IsSoundPlan plan.now }
    ensures nothing { IfErr result (λ failed. failed.1 ≡ journal.disk) }
    ensures end { IfOk result (λ served. IsRelayEnd D.state L.heard L.sent T.told T.endless K.woken plan.now journal
        (length posts.items) posts.items served.end) }
    ensures fault { IfOk result
        (λ served. served.fault ≡ end_fault served.end.finished.broken served.end.complete is_told) }
{
    match run_relay(rt, alloc, journal, gather, plan, posts, bell, watch) {
        Ok(end) => {
            let fault = end_fault(end.finished.broken, end.complete, is_told);
            Ok(Served { end, fault })
        }
        Err(journal) => Err((AllocError.into(), journal.into_disk())),
    }
}

/// The workers of a plan for whose neighbours a journal has room, each with its link and its clock, and the watch of the
/// spool. A broken journal is refused.
pub(crate) fn ready_posts<'a, H: AllocGlobal + Files<File = File> + Clock + Net, D: Disk>(
    rt: &'a H,
    journal: &Journal<D>,
    plan: &Plan,
    keys: PlanKeys<'_>,
    turns: u64,
    is_patient: bool,
    lines: Arc<ErrorLines, Global>,
) -> Result<(Vec<UdpPost<'a, H>>, SenderWaker, SpoolWatch<&'a H>), ServeFault>
    requires { IsSoundPlan plan.now }
    ensures room { OnOk result (FitsPlan plan.now journal.now.state.params) }
    ensures lacks { LacksRoom plan.now journal.now.state.params
        → result ≡ Err (fault.Refused refusal.BadGeometry cause.Plan) }
    ensures whole { OnOk result (journal.now.broken ≡ false) }
    ensures posts { IfOk result (λ posts. map duty_at posts.0.items
        ≡ duties plan.now keys.entry (longest_message journal.now.state.params.payload) turns) }
    ensures watch { IfOk result (λ ready. ready.2 ≡ first_log journal.now.state) }
{
    let longest = longest_served(journal, plan)?;
    let teller = Logger::new(Arc::try_clone(&lines)?);
    let watch = SpoolWatch::new(rt.alloc(), rt, journal, teller)?;
    let (posts, bell) = posts_of(rt, plan, keys, longest, turns, is_patient, lines)?;
    Ok((posts, bell, watch))
}

/// The length in bytes of the longest message of a journal that has room for a plan's neighbours and isn't broken.
fn longest_served<D: Disk>(journal: &Journal<D>, plan: &Plan) -> Result<usize, ServeFault>
    ensures room { OnOk result (FitsPlan plan.now journal.now.state.params) }
    ensures lacks { LacksRoom plan.now journal.now.state.params
        → result ≡ Err (fault.Refused refusal.BadGeometry cause.Plan) }
    ensures whole { OnOk result (journal.now.broken ≡ false) }
    ensures longest { IfOk result (λ longest. longest ≡ longest_message journal.now.state.params.payload) }
{
    let params = journal.params();
    check_room(plan, params)?;
    if journal.is_broken() {
        return Err(ServeFault::Refused(Refusal::Broken, Cause::NoCause));
    }
    Ok(longest_message(params.payload))
}

/// Logs what is served: the station, its neighbours, the used part of the device, the links without a key, and what
/// CoDel of the device does at the hops.
pub(crate) fn report_start<
    'a,
    H: AllocGlobal + Files<File = File> + Clock + Net,
    D: Disk,
    E: Write,
>(
    alloc: Global,
    journal: &Journal<D>,
    plan: &Plan,
    size: u64,
    posts: &[UdpPost<'a, H>],
    errors: &mut E,
) -> io::Result<()>
    requires { journal.now.broken ≡ false }
    ensures codel { OnOk result ((before : Option (List ℕ))
        × Appends before (E.contents errors.new) (codel_text plan.now journal.now.state.params)) }
{
    let station = plan.station();
    let peers = plan.peer_count();
    let hops = plan.hop_count();
    let live = live_items(journal);
    let items = journal.params().items;
    writeln!(
        errors,
        "rly: serving station {station}, {peers} peers, {hops} hops, device {size} bytes, {live} of {items} live"
    )?;
    report_open(posts, errors)?;
    report_codel(alloc, journal, plan, errors)
}

/// Logs which links have no key, if any.
fn report_open<'a, H: AllocGlobal + Files<File = File> + Clock + Net, E: Write>(
    posts: &[UdpPost<'a, H>],
    errors: &mut E,
) -> io::Result<()> {
    let mut before = "rly: links without a key:";
    let mut is_any = false;
    for post in posts {
        if post.link.is_open() {
            write!(errors, "{before} {}", WorkerName(post.worker))?;
            before = ",";
            is_any = true;
        }
    }
    if is_any {
        writeln!(errors)?;
    }
    Ok(())
}

/// Logs what CoDel of the device does at each hop with contacts.
fn report_codel<D: Disk, E: Write>(
    alloc: Global,
    journal: &Journal<D>,
    plan: &Plan,
    errors: &mut E,
) -> io::Result<()>
    ensures { OnOk result (Appends (E.contents errors.old) (E.contents errors.new)
        (codel_text plan.now journal.now.state.params)) }
{
    journal.law_sound();
    let text = codel_text_of(alloc, plan, &journal.params())?;
    errors.write_all(text.as_bytes())
}

/// Refuses a plan that has more peers or hops than the device.
fn check_room(plan: &Plan, params: Params) -> Result<(), ServeFault>
    ensures room { OnOk result (FitsPlan plan.now params) }
    ensures lacks { IfErr result
        (λ refused. (refused ≡ fault.Refused refusal.BadGeometry cause.Plan) × LacksRoom plan.now params) }
{
    let peers = plan.peer_count() as u64;
    let hops = plan.hop_count() as u64;
    if peers > params.peers || hops > params.hops {
        return Err(ServeFault::Refused(Refusal::BadGeometry, Cause::Plan));
    }
    Ok(())
}

/// Why a relay that was started didn't end well: its journal broke, or not all had a thread and ran until their turns
/// ran out, or the startup lines weren't written.
pub(crate) fn end_fault(is_broken: bool, is_complete: bool, is_told: bool) -> Option<ServeFault>
    ensures { result ≡ end_fault is_broken is_complete is_told }
{
    if is_broken {
        return Some(ServeFault::Refused(Refusal::Broken, Cause::NoCause));
    }
    if !is_complete {
        return Some(ServeFault::Worker);
    }
    if !is_told {
        return Some(ServeFault::Unreported);
    }
    None
}
