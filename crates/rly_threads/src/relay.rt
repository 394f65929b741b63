//! The relay: the committer and the workers, each in a thread of its own.

ghost use Rattle.std.specs.Prelude.{◌≡◌, ◌≤◌, ◌||◌, [], IfErr, IfOk, IfSome, Some, length, not, true, vec_capacity};
ghost use Rattle.std.specs.List.{AllByRecursion, AllZip, list_all, zip};
ghost use Rattle.std.specs.Option.{is_some};
ghost use Rattle.rly_flush.specs.FlusherHistory.{IsServed};
ghost use Rattle.rly_flush.specs.RoundWatch.{HasWatched};
ghost use Rattle.rly_line.specs.EndViews.{names_of, new_reply_ends};
ghost use Rattle.rly_line.specs.ResponderView.{IsLeftBy, IsSeatOf};
ghost use Rattle.rly_threads.specs.HelpersCut.{AreSeatsOf, GivesBack, IsFor, IsHeard, IsJoined};
ghost use Rattle.rly_threads.specs.Relay.{AreAnsweredBy, HasEnded, IsRelayEnd, IsRelayEndAt, has_run_out, is_to_end};

use crate::cut::{CutTurn, TurnOwner, tell_workers};
use crate::seat_desk::SeatDesk;
use rly_core::Params;
use rly_disk::Disk;
use rly_flush::{Finished, Flusher, RoundWatch};
use rly_journal::Journal;
use rly_line::{ClosedEnd, LeftSeat, LineEnd, Seat, make};
use rly_link::{Link, Post, Turn, Waker, Worker};
use rly_plan::Plan;
use rly_threads_workers::{Ends, receiver_run, sender_run};
use std::alloc::Global;
use std::marker::Brand;
use std::snapshot::Snapshot;
use std::sync::{OnceLock, OnceToken, Wait};
use std::thread;
use std::thread::{Promise, PromisedHandle, Scope, Threads};
use std::time::{Clock, Duration};

/// A worker that had a thread, after its end.
#[derive(Drop)]
pub struct Ended<L: Link, T: Turn, W: Waker> {
    /// Its post.
    pub post: Post<L, T, W>,
    /// The remains of its seat, for proofs. It has no size at run time.
    pub seat: Snapshot<LeftSeat>,
    /// Whether it was stopped before its turns ran out.
    pub was_cut: bool,
}

/// The result of a relay after all workers ended.
#[derive(Drop)]
pub struct Relayed<D: Disk, L: Link, T: Turn, W: Waker> {
    /// The result of its flusher.
    pub finished: Finished<D>,
    /// Its workers, in the order of their posts. `None`: it got no thread, and did nothing.
    pub ended: Vec<Option<Ended<L, T, W>>>,
    /// Whether its workers were stopped early: the journal broke, or one of them got no thread.
    pub is_cut: bool,
    /// Whether each worker got a thread and ran until its turns ran out.
    pub complete: bool,
}

/// Starts each worker in a thread of its own, and waits until all have ended. The calling thread runs the flusher,
/// which answers their calls meanwhile; its rounds pause for `gather` to gather more calls, and are shown to `watch`. Once
/// the journal is broken each worker stops at its next turn, and at once if one of them got no thread; `bell` then ends
/// their waits. If memory is refused for the queues, the flusher or the threads' results, nothing is started, and the
/// journal is handed back.
pub fn run_relay<
    R: Threads + Wait + Clock + Sync,
    D: Disk + Drop,
    L: Link + Drop + Send,
    T: Turn + Drop + Send,
    W: Waker + Drop + Send,
    B: Waker,
    V: RoundWatch,
>(
    rt: &R,
    alloc: Global,
    journal: Journal<D>,
    gather: Duration,
    plan: &Plan,
    posts: Vec<Post<L, T, W>>,
    bell: &mut B,
    watch: &mut V,
) -> Result<Relayed<D, L, T, W>, Journal<D>>
    requires { (1 ≤ length posts.items) × (length posts.items ≤ 256) }
    // At the end of a new line that has a seat for each worker.
    ensures end { IfOk result (λ relayed. IsRelayEnd D.state L.heard L.sent T.told T.endless W.woken plan.now journal
        (length posts.items) posts.items relayed) }
    ensures refused { IfErr result (λ back. back ≡ journal) }
{
    let workers = posts.len() as u16;
    let Ok((seats, line_end)) = make(alloc, workers, workers) else {
        return Err(journal);
    };
    let stop_flag = OnceLock::new();
    run_relay_at(
        rt, alloc, journal, gather, plan, posts, bell, watch, seats, line_end, &stop_flag,
    )
}

/// The same as `run_relay`, at the end of a new queue and with a stop flag of the caller's. Each worker gets the
/// seat of its index. Others may have seats of that queue too: the relay ends once they have left them as well,
/// unless the journal broke. The flag is set once the workers are to end or the relay has ended: a reader that sees
/// it set needs to make no more calls. If memory is refused, the queue is closed and the flag set.
pub fn run_relay_at<
    R: Threads + Wait + Clock + Sync,
    D: Disk + Drop,
    L: Link + Drop + Send,
    T: Turn + Drop + Send,
    W: Waker + Drop + Send,
    B: Waker,
    V: RoundWatch,
>(
    rt: &R,
    alloc: Global,
    journal: Journal<D>,
    gather: Duration,
    plan: &Plan,
    posts: Vec<Post<L, T, W>>,
    bell: &mut B,
    watch: &mut V,
    seats: Vec<Seat>,
    line_end: LineEnd,
    stop_flag: &OnceLock<bool>,
) -> Result<Relayed<D, L, T, W>, Journal<D>>
    requires each { length seats.items ≡ length posts.items }
    requires seats { AllByRecursion (IsSeatOf line_end.of (names_of line_end.lines)) seats.items }
    requires new { line_end ≡ record line_end { taken = []; lines = new_reply_ends 0 (names_of line_end.lines) } }
    // At the end of the line that is given.
    ensures end { IfOk result
        (λ relayed. IsRelayEndAt D.state L.heard L.sent T.told T.endless W.woken plan.now journal line_end
        (zip posts.items seats.items) relayed) }
    ensures refused { IfErr result (λ back. back ≡ journal) }
{
    thread::scope(
        thread::scope_env(),
        rt,
        move |scope| -> Result<Relayed<D, L, T, W>, Journal<D>>
            requires each { length seats.items ≡ length posts.items }
            requires seats { AllByRecursion (IsSeatOf line_end.of (names_of line_end.lines)) seats.items }
            requires new { line_end
                ≡ record line_end { taken = []; lines = new_reply_ends 0 (names_of line_end.lines) } }
            ensures end { IfOk result
                (λ relayed. IsRelayEndAt D.state L.heard L.sent T.told T.endless W.woken plan.entry.now journal line_end
                (zip posts.items seats.items) relayed) }
            ensures refused { IfErr result (λ back. back ≡ journal) }
        {
            relay_in(
                scope, rt, alloc, journal, gather, plan, posts, bell, watch, seats, line_end,
                stop_flag,
            )
        },
    )
}

/// Reserves the memory of a relay, and runs it in threads of a scope. If memory is refused, nothing is started.
fn relay_in<
    's,
    'a: 's,
    E,
    R: Threads + Wait + Clock + Sync,
    D: Disk + Drop,
    L: Link + Drop + Send + 's,
    T: Turn + Drop + Send + 's,
    W: Waker + Drop + Send + 's,
    B: Waker,
    V: RoundWatch,
>(
    scope: &Scope<'s, E>,
    rt: &'s R,
    alloc: Global,
    journal: Journal<D>,
    gather: Duration,
    plan: &'s Plan,
    posts: Vec<Post<L, T, W>>,
    bell: &mut B,
    watch: &mut V,
    seats: Vec<Seat>,
    line_end: LineEnd,
    stop_flag: &'a OnceLock<bool>,
) -> Result<Relayed<D, L, T, W>, Journal<D>>
    requires each { length seats.items ≡ length posts.items }
    requires seats { AllByRecursion (IsSeatOf line_end.of (names_of line_end.lines)) seats.items }
    requires new { line_end ≡ record line_end { taken = []; lines = new_reply_ends 0 (names_of line_end.lines) } }
    ensures end { IfOk result
        (λ relayed. IsRelayEndAt D.state L.heard L.sent T.told T.endless W.woken plan.now journal line_end
        (zip posts.items seats.items) relayed) }
    ensures refused { IfErr result (λ back. back ≡ journal) }
{
    let params = journal.params();
    let Ok(threads) = Vec::with_capacity(alloc, posts.len()) else {
        call_off(rt, line_end, stop_flag);
        return Err(journal);
    };
    let Ok(ended) = Vec::with_capacity(alloc, posts.len()) else {
        call_off(rt, line_end, stop_flag);
        return Err(journal);
    };
    let flusher = match Flusher::new(alloc, journal, line_end) {
        Ok(flusher) => flusher.with_gather(gather),
        Err((journal, line_end)) => {
            call_off(rt, line_end, stop_flag);
            return Err(journal);
        }
    };
    let threads = start_all(
        scope, rt, alloc, plan, params, posts, seats, stop_flag, threads,
    );
    Ok(serve_to_end(rt, flusher, threads, stop_flag, bell, watch, ended))
}

/// Nothing is started: closes the queues and sets the stop flag.
fn call_off<R: Wait>(rt: &R, line_end: LineEnd, stop_flag: &OnceLock<bool>) {
    let _closed = line_end.close(rt);
    let _said = tell_workers(rt, stop_flag, true);
}

/// Starts a thread for each worker for which there is one, and puts them into an empty list with room for them.
fn start_all<
    's,
    'a: 's,
    E,
    R: Wait + Sync,
    L: Link + Drop + Send + 's,
    T: Turn + Drop + Send + 's,
    W: Waker + Drop + Send + 's,
>(
    scope: &Scope<'s, E>,
    rt: &'s R,
    alloc: Global,
    plan: &'s Plan,
    params: Params,
    posts: Vec<Post<L, T, W>>,
    seats: Vec<Seat>,
    stop_flag: &'a OnceLock<bool>,
    empty: Vec<Thread<'a, L, T, W>>,
) -> Vec<Thread<'a, L, T, W>>
    requires seats { length seats.items ≡ length posts.items }
    requires empty { (empty.items ≡ []) × (vec_capacity empty ≡ length posts.items) }
    ensures { AllZip (IsFor plan.now params stop_flag.now.id) (zip posts.items seats.items) result.items }
{
    let mut threads = empty;
    for (seat, post) in seats.into_iter().zip(posts) {
        let thread = start(scope, rt, alloc, plan, params, post, seat, stop_flag);
        threads.push_reserved(thread);
    }
    threads
}

/// Runs the flusher for these workers until it ends, sets their stop flag, and waits until they have ended. If one
/// of them got no thread, the others end at once.
fn serve_to_end<
    'a,
    R: Threads + Wait + Clock,
    D: Disk + Drop,
    L: Link + Drop,
    T: Turn + Drop,
    W: Waker + Drop,
    B: Waker,
    V: RoundWatch,
>(
    rt: &R,
    flusher: Flusher<D>,
    threads: Vec<Thread<'a, L, T, W>>,
    stop_flag: &'a OnceLock<bool>,
    bell: &mut B,
    watch: &mut V,
    empty: Vec<Option<Ended<L, T, W>>>,
) -> Relayed<D, L, T, W>
    requires empty { (empty.items ≡ []) × (length threads.items ≤ vec_capacity empty) }
    requires stop_flag { AllByRecursion
        (λ thread. IfSome thread (λ t. t.promise.stop_flag.value.id ≡ stop_flag.now.id)) threads.items }
    requires seats { AreSeatsOf flusher.line.of (names_of flusher.line.lines) threads.items }
    ensures broken { result.finished.broken ≡ result.finished.journal.broken }
    ensures served { IsServed D.state flusher result.finished.last.value }
    ensures left { result.finished.last.value.journal ≡ result.finished.journal }
    ensures closed { IsLeftBy result.finished.last.value.line result.finished.lines }
    ensures joined { AllZip
        (GivesBack (IsJoined L.heard L.sent T.told T.endless W.woken result.is_cut result.finished.lines))
        threads.entry.items result.ended.items }
    ensures answered { AreAnsweredBy result.finished.last.value.line result.ended.items }
    ensures told { result.is_cut ≡ is_to_end result.finished.broken result.ended.items }
    ensures watched { HasWatched (V.shown watch.old) (V.shown watch.new) flusher result.finished.last.value }
    ensures complete { result.complete ≡ list_all has_run_out result.ended.items }
{
    let mut flusher = flusher;
    forget_missing(&mut flusher, &threads);
    let are_all = have_started(&threads);
    let (mut finished, said) = serve_and_tell(rt, flusher, stop_flag, bell, watch, are_all);
    let ended = join_all(rt, threads, &said, &mut finished.lines, empty);
    Relayed {
        complete: have_run_out(&ended),
        is_cut: *stop_flag.value(&said),
        finished,
        ended,
    }
}

/// Runs the flusher until it ends, and sets the workers' stop flag: if the journal broke, or at once if not all of
/// them are present. Those that wait then are woken.
fn serve_and_tell<'a, R: Wait + Clock, D: Disk + Drop, B: Waker, V: RoundWatch>(
    rt: &R,
    flusher: Flusher<D>,
    stop_flag: &'a OnceLock<bool>,
    bell: &mut B,
    watch: &mut V,
    are_all: bool,
) -> (Finished<D>, OnceToken<'a, bool>)
    ensures broken { result.0.broken ≡ result.0.journal.broken }
    ensures journal { result.0.last.value.journal ≡ result.0.journal }
    ensures ends { IsServed D.state flusher result.0.last.value }
    ensures closed { IsLeftBy result.0.last.value.line result.0.lines }
    ensures of { result.1.of ≡ stop_flag.now.id }
    ensures said { result.1.value ≡ (result.0.broken || not are_all) }
    ensures watched { HasWatched (V.shown watch.old) (V.shown watch.new) flusher result.0.last.value }
{
    if are_all {
        let finished = flusher.serve(rt, watch);
        let said = tell_workers(rt, stop_flag, finished.broken);
        bell.wake_all();
        (finished, said)
    } else {
        let said = tell_workers(rt, stop_flag, true);
        bell.wake_all();
        (flusher.serve(rt, watch), said)
    }
}

/// Drops the seats of the workers that got no thread.
fn forget_missing<'a, D: Disk + Drop, L: Link + Drop, T: Turn + Drop, W: Waker + Drop>(
    flusher: &mut Flusher<D>,
    threads: &[Thread<'a, L, T, W>],
)
    ensures { flusher.new ≡ flusher.old }
{
    for thread in threads.iter() {
        if thread.is_none() {
            flusher.forget(1);
        }
    }
}

/// Whether each of these workers has a thread.
fn have_started<'a, L: Link + Drop, T: Turn + Drop, W: Waker + Drop>(
    threads: &[Thread<'a, L, T, W>],
) -> bool
    ensures { result ≡ list_all is_some threads.now }
{
    threads.iter().all(Option::is_some)
}

/// The result of a worker's thread: the worker's post, after it did there and at its seat as the plan defines, and
/// the stop flag as read at its stop.
#[derive(Drop)]
struct Duty<L: Link + Drop, T: Turn + Drop, W: Waker + Drop> {
    plan: Snapshot<Plan>,
    params: Params,
    post: Snapshot<Post<L, T, W>>,
    seat: Snapshot<Seat>,
    stop_flag: Snapshot<OnceLock<bool>>,
}

impl<'a, L: Link + Drop, T: Turn + Drop, W: Waker + Drop> Promise<Left<'a, L, T, W>>
    for Duty<L, T, W> {
    ghost use Rattle.std.specs.Option.{is_some};
    ghost use Rattle.rly_threads.specs.HelpersCut.{IsHeard};
    ghost use Rattle.rly_threads.specs.Relay.{HasEnded};

    ghost kept_by = { λ duty left. HasEnded L.heard L.sent T.told T.endless W.woken duty.plan.value duty.params
        (duty.post.value, duty.seat.value)
        left.post left.seat (is_some left.heard) × IsHeard duty.stop_flag.value.id left.heard };
}

/// The duty of a worker at a post and a seat.
fn duty_of<L: Link + Drop, T: Turn + Drop, W: Waker + Drop>(
    plan: &Plan,
    params: Params,
    post: &Post<L, T, W>,
    seat: &Seat,
    stop_flag: &OnceLock<bool>,
) -> Duty<L, T, W>
    ensures plan { result.plan.value ≡ plan.now }
    ensures params { result.params ≡ params }
    ensures post { result.post.value ≡ post.now }
    ensures seat { result.seat.value ≡ seat.now }
    ensures stop_flag { result.stop_flag.value ≡ stop_flag.now }
{
    Duty {
        plan: Snapshot::of(plan),
        params,
        post: Snapshot::of(post),
        seat: Snapshot::of(seat),
        stop_flag: Snapshot::of(stop_flag),
    }
}

/// The remains of a worker.
#[derive(Drop)]
struct Left<'a, L: Link, T: Turn, W: Waker> {
    post: Post<L, T, W>,
    /// The remains of its seat.
    seat: LeftSeat,
    /// The stop flag as read at its stop.
    heard: Option<OnceToken<'a, bool>>,
}

/// The thread of a worker, if it got one.
type Thread<'a, L, T, W> = Option<PromisedHandle<Left<'a, L, T, W>, Duty<L, T, W>>>;

/// Starts the thread of a worker, if there is one for it.
fn start<
    's,
    'a: 's,
    E,
    R: Wait + Sync,
    L: Link + Drop + Send + 's,
    T: Turn + Drop + Send + 's,
    W: Waker + Drop + Send + 's,
>(
    scope: &Scope<'s, E>,
    rt: &'s R,
    alloc: Global,
    plan: &'s Plan,
    params: Params,
    post: Post<L, T, W>,
    seat: Seat,
    stop_flag: &'a OnceLock<bool>,
) -> Thread<'a, L, T, W>
    ensures { IsFor plan.now params stop_flag.now.id (post, seat) result }
{
    let started = scope.spawn_with(
        duty_of(plan, params, &post, &seat, stop_flag),
        move || work(rt, alloc, plan, params, post, seat, stop_flag),
    );
    match started {
        Ok(thread) => Some(thread),
        Err(_refused) => None,
    }
}

/// Waits until all these threads have ended, and puts their results into an empty list with room for them. The stop
/// flag was set before.
fn join_all<'a, R: Threads + Wait, L: Link + Drop, T: Turn + Drop, W: Waker + Drop>(
    rt: &R,
    threads: Vec<Thread<'a, L, T, W>>,
    said: &OnceToken<'a, bool>,
    lines: &mut ClosedEnd,
    empty: Vec<Option<Ended<L, T, W>>>,
) -> Vec<Option<Ended<L, T, W>>>
    requires empty { empty.items ≡ [] }
    requires room { length threads.items ≤ vec_capacity empty }
    requires stop_flag { AllByRecursion
        (λ thread. IfSome thread (λ t. t.promise.stop_flag.value.id ≡ said.now.of)) threads.items }
    requires seats { AreSeatsOf lines.old.of (names_of lines.old.lines) threads.items }
    ensures same { lines.new ≡ lines.old }
    ensures joined { AllZip
        (GivesBack (IsJoined L.heard L.sent T.told T.endless W.woken said.now.value lines.old)) threads.entry.items
        result.items }
{
    let mut ended = empty;
    for thread in threads {
        ended.push_reserved(join(rt, thread, said, lines));
    }
    ended
}

/// Waits until this thread has ended, and gets the history that its seat knows.
fn join<'a, R: Threads + Wait, L: Link + Drop, T: Turn + Drop, W: Waker + Drop>(
    rt: &R,
    thread: Thread<'a, L, T, W>,
    said: &OnceToken<'a, bool>,
    lines: &mut ClosedEnd,
) -> Option<Ended<L, T, W>>
    requires stop_flag { IfSome thread (λ t. t.promise.stop_flag.value.id ≡ said.now.of) }
    requires seat { IfSome thread (λ t. IsSeatOf lines.old.of (names_of lines.old.lines) t.promise.seat.value) }
    ensures same { lines.new ≡ lines.old }
    ensures joined { GivesBack
        (IsJoined L.heard L.sent T.told T.endless W.woken said.now.value lines.old) thread.entry result }
{
    let left = thread?.join(rt);
    let was_cut = match &left.heard {
        Some(heard) => {
            heard.agrees(said);
            true
        }
        None => false,
    };
    let seat = Snapshot::of(&left.seat);
    lines.law_left(left.seat);
    Some(Ended {
        post: left.post,
        seat,
        was_cut,
    })
}

/// Whether each of these got a thread, and ran until its turns ran out.
fn have_run_out<L: Link, T: Turn, W: Waker>(ended: &[Option<Ended<L, T, W>>]) -> bool
    ensures { result ≡ list_all has_run_out ended.now }
{
    ended.iter().all(has_run_out)
}

/// Whether this one got a thread, and ran until its turns ran out.
fn has_run_out<L: Link, T: Turn, W: Waker>(ended: &Option<Ended<L, T, W>>) -> bool
    ensures { result ≡ has_run_out ended.now }
{
    match ended {
        Some(worker) => !worker.was_cut,
        None => false,
    }
}

/// Runs a worker at its post, from its start to its end, in a spool with these parameters.
fn work<'a, R: Wait, L: Link + Drop, T: Turn + Drop, W: Waker + Drop>(
    rt: &R,
    alloc: Global,
    plan: &Plan,
    params: Params,
    post: Post<L, T, W>,
    seat: Seat,
    stop_flag: &'a OnceLock<bool>,
) -> Left<'a, L, T, W>
    ensures ended { HasEnded L.heard L.sent T.told T.endless W.woken plan.now params (post, seat)
        result.post result.seat (is_some result.heard) }
    ensures heard { IsHeard stop_flag.now.id result.heard }
{
    work_as::<Brand, R, L, T, W>(rt, alloc, plan, params, post, seat, stop_flag)
}

fn work_as<'a, O: TurnOwner, R: Wait, L: Link + Drop, T: Turn + Drop, W: Waker + Drop>(
    rt: &R,
    alloc: Global,
    plan: &Plan,
    params: Params,
    post: Post<L, T, W>,
    seat: Seat,
    stop_flag: &'a OnceLock<bool>,
) -> Left<'a, L, T, W>
    requires first { T.told post.turn ≡ O.first }
    requires endless { T.endless post.turn ≡ O.endless }
    requires seat { O.seat ≡ Some seat }
    requires lock { stop_flag.now.id ≡ O.lock }
    ensures ended { HasEnded L.heard L.sent T.told T.endless W.woken plan.now params (post, seat)
        result.post result.seat (is_some result.heard) }
    ensures heard { IsHeard stop_flag.now.id result.heard }
{
    let Post {
        worker,
        link,
        turn,
        waker,
    } = post;
    let mut ends = Ends {
        link,
        desk: SeatDesk::<O>::new(seat),
        turn: CutTurn::<'_, T, O>::new(turn, stop_flag),
        waker,
    };
    match worker {
        Worker::Receiver(peer) => receiver_run(rt, alloc, plan, peer, &mut ends),
        Worker::Sender(hop) => sender_run(rt, alloc, plan, hop, &params, &mut ends),
    }
    let Ends {
        link,
        desk,
        turn,
        waker,
    } = ends;
    let (turn, heard) = turn.into_parts();
    // The flusher ends once each seat has left.
    let seat = desk.leave(rt);
    Left {
        post: Post {
            worker,
            link,
            turn,
            waker,
        },
        seat,
        heard,
    }
}
