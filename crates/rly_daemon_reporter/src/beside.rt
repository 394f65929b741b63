//! A relay with a parallel task in a thread of its own.

ghost use Rattle.std.specs.Prelude.{◌≡◌, [], length};
ghost use Rattle.std.specs.List.{AllByRecursion};
ghost use Rattle.rly_line.specs.EndViews.{names_of, new_reply_ends};
ghost use Rattle.rly_line.specs.ResponderView.{IsSeatOf};
ghost use Rattle.rly_daemon_reporter.specs.HelpersReporterAtSeat.{CanRelay, HasRelayed};

use rly_disk::Disk;
use rly_flush::RoundWatch;
use rly_journal::Journal;
use rly_line::{LineEnd, Seat};
use rly_link::{Link, Post, Turn, Waker};
use rly_plan::Plan;
use rly_threads::{Relayed, run_relay_at};
use std::alloc::Global;
use std::snapshot::Snapshot;
use std::sync::{OnceLock, Wait};
use std::thread;
use std::thread::{Promise, Scope, Threads};
use std::time::{Clock, Duration};

/// A task that runs in parallel with a relay. The thread's closure holds a value of a type parameter: of a `&mut`
/// that it held itself nothing would be known afterwards.
pub(crate) trait Task {
    type Output;

    ghost can_run: { Self → Type 0 };

    ghost run_gives: { Self → Self.Output → Type 0 };

    fn run(self) -> Self::Output
        requires { can_run self }
        ensures { run_gives self result };
}

/// The inputs of a relay.
#[derive(Drop)]
pub(crate) struct Work<D: Disk, L: Link, T: Turn, K: Waker> {
    pub(crate) journal: Journal<D>,
    /// The pause of a round, in which it gathers more calls.
    pub(crate) gather: Duration,
    pub(crate) posts: Vec<Post<L, T, K>>,
    pub(crate) seats: Vec<Seat>,
    pub(crate) line_end: LineEnd,
}

/// The results of a relay and its parallel task.
#[derive(Drop)]
pub(crate) struct Both<D: Disk, L: Link, T: Turn, K: Waker, A> {
    /// The result of the relay, or its journal if memory is refused.
    pub(crate) relayed: Result<Relayed<D, L, T, K>, Journal<D>>,
    /// The result of the task.
    pub(crate) output: A,
    /// Whether the task got a thread.
    pub(crate) had_thread: bool,
}

/// Runs a relay, whose rounds are shown to `watch`, and in parallel a task that has one seat of its queue. If there is no thread for the task, the
/// relay doesn't wait for that seat, and the task runs after the relay.
pub(crate) fn run_beside<
    R: Threads + Wait + Clock + Sync,
    D: Disk + Drop,
    L: Link + Drop + Send,
    T: Turn + Drop + Send,
    K: Waker + Drop + Send,
    S: Task<Output = A> + Drop + Send,
    A: Drop + Send,
    B: Waker,
    V: RoundWatch,
>(
    rt: &R,
    alloc: Global,
    plan: &Plan,
    work: Work<D, L, T, K>,
    bell: &mut B,
    watch: &mut V,
    task: S,
    stop_flag: &OnceLock<bool>,
) -> Both<D, L, T, K, A>
    requires run { S.can_run task }
    requires work { CanRelay work }
    ensures gives { S.run_gives task result.output }
    ensures relayed { HasRelayed D.state L.heard L.sent T.told T.endless K.woken plan.now work result.relayed }
{
    thread::scope(
        thread::scope_env(),
        rt,
        move |scope| -> Both<D, L, T, K, A>
            requires run { S.can_run task }
            requires work { CanRelay work }
            ensures gives { S.run_gives task result.output }
            ensures relayed { HasRelayed D.state L.heard L.sent T.told T.endless K.woken plan.entry.now work
                result.relayed }
        { run_in(scope, rt, alloc, plan, work, bell, watch, task, stop_flag) },
    )
}

/// The same, with the thread of the task in a scope.
fn run_in<
    's,
    E,
    R: Threads + Wait + Clock + Sync,
    D: Disk + Drop,
    L: Link + Drop + Send,
    T: Turn + Drop + Send,
    K: Waker + Drop + Send,
    S: Task<Output = A> + Drop + Send + 's,
    A: Drop + Send + 's,
    B: Waker,
    V: RoundWatch,
>(
    scope: &Scope<'s, E>,
    rt: &R,
    alloc: Global,
    plan: &Plan,
    work: Work<D, L, T, K>,
    bell: &mut B,
    watch: &mut V,
    task: S,
    stop_flag: &OnceLock<bool>,
) -> Both<D, L, T, K, A>
    requires run { S.can_run task }
    requires work { CanRelay work }
    ensures gives { S.run_gives task result.output }
    ensures relayed { HasRelayed D.state L.heard L.sent T.told T.endless K.woken plan.now work result.relayed }
{
    let started = scope.spawn_with(
        Given {
            task: Snapshot::of(&task),
        },
        move || -> A
            requires { S.can_run task }
            ensures { S.run_gives task result }
        { task.run() },
    );
    match started {
        Ok(thread) => {
            let relayed = relay(rt, alloc, plan, work, bell, watch, stop_flag, 0);
            Both {
                relayed,
                output: thread.join(rt),
                had_thread: true,
            }
        }
        Err(refused) => {
            let relayed = relay(rt, alloc, plan, work, bell, watch, stop_flag, 1);
            let task = refused.value;
            Both {
                relayed,
                output: task(),
                had_thread: false,
            }
        }
    }
}

/// Runs a relay; `gone` of its seats were dropped.
fn relay<
    R: Threads + Wait + Clock + Sync,
    D: Disk + Drop,
    L: Link + Drop + Send,
    T: Turn + Drop + Send,
    K: Waker + Drop + Send,
    B: Waker,
    V: RoundWatch,
>(
    rt: &R,
    alloc: Global,
    plan: &Plan,
    work: Work<D, L, T, K>,
    bell: &mut B,
    watch: &mut V,
    stop_flag: &OnceLock<bool>,
    gone: usize,
) -> Result<Relayed<D, L, T, K>, Journal<D>>
    requires { CanRelay work }
    ensures { HasRelayed D.state L.heard L.sent T.told T.endless K.woken plan.now work result }
{
    let Work {
        journal,
        gather,
        posts,
        seats,
        line_end,
    } = work;
    let mut line_end = line_end;
    line_end.forget(gone);
    run_relay_at(
        rt, alloc, journal, gather, plan, posts, bell, watch, seats, line_end, stop_flag,
    )
}

/// The result of a task's thread.
#[derive(Drop)]
struct Given<S: Task> {
    task: Snapshot<S>,
}

impl<S: Task> Promise<S::Output> for Given<S> {
    ghost kept_by = { λ given output. S.run_gives given.task.value output };
}
