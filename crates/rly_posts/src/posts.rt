//! The posts of a plan's workers: each with its link, its clock and its waker.

ghost use Rattle.std.specs.List.{list_all};
ghost use Rattle.std.specs.Option.{is_none};
ghost use Rattle.std.specs.Prelude.{◌≡◌, ◌++◌, ◌∷◌, [], IfOk, None, OnOk, Some, false, map, string_bytes, true};
ghost use Rattle.rly_plan.specs.Sound.{IsSoundFolder, IsSoundNeighbour, IsSoundPlan};
ghost use Rattle.rly_hop.specs.Spelling.{IsStation};
ghost use Rattle.rly_posts.specs.Duties.{IsOpened, duties, duty_at, duty_of, folder_duty_of, link_duty};
ghost use Rattle.rly_posts.specs.Duties.{link_duty_at, refusal_at};
ghost use Rattle.rly_posts.specs.Neighbour.{buffer_of, has_open, refusal_of};
ghost use Rattle.rly_posts.specs.WatchedFolders.{watched_by, watched_folders, watches};
ghost use Rattle.rly_link_udp.specs.FolderWatch.{path_of};
ghost use Rattle.rly_link_udp.specs.LinkDuties.{folders_of, folders_watched};
ghost use Rattle.rly_station.specs.ReceiveBuffers.{buffer_warnings, wanted_buffer};
ghost use Rattle.rly_station.specs.Warnings.{logged_warnings};

use crate::incoming_link::incoming_link_of;
use crate::neighbour_link::NeighbourLink;
use crate::open_links::check_open;
use crate::outgoing_link::outgoing_link_of;
use crate::watched_folders::watched_folders;
use rly_hop::StationId;
use rly_link::{Post, Worker};
use rly_link_udp::{FolderPath, SenderWaker, Signals, WallClock, clock_of, socket_link_of};
use rly_plan::{FarEnd, FolderEnd, Neighbour, Plan};
use rly_station::{
    ErrorLines, KeyedWorker, Logger, PlanKeys, ServeFault, buffer_warning, neighbour_of,
    wanted_buffer,
};
use std::alloc::{AllocError, Global};
use std::fs::{File, Files};
use std::net::Net;
use std::sync::Arc;
use std::time::Clock;

/// A worker of the relay, its link, its clock and its waker.
pub type UdpPost<'a, H> = Post<NeighbourLink<&'a H>, WallClock<&'a H>, SenderWaker>;

/// The workers of a plan, each with its clock and its link, which carries messages of at most `longest` bytes. They
/// log their warnings on the lines. With them comes a waker that ends the waits of all. A link whose address the system
/// refuses is opened later, if they are patient and another link is open; otherwise the fault is `Link`.
pub fn posts_of<'a, H: AllocGlobal + Files<File = File> + Clock + Net>(
    rt: &'a H,
    plan: &Plan,
    keys: PlanKeys<'_>,
    longest: usize,
    turns: u64,
    is_patient: bool,
    lines: Arc<ErrorLines, Global>,
) -> Result<(Vec<UdpPost<'a, H>>, SenderWaker), ServeFault>
    requires { IsSoundPlan plan.now }
    ensures duties { IfOk result (λ posts. map duty_at posts.0.items ≡ duties plan.now keys.entry longest turns) }
    // The clock of the first peer watches the folders of all links, and no other clock any.
    ensures watches { IfOk result (λ posts. map watches posts.0.items
        ≡ map (watched_by (watched_folders keys.entry)) keys.entry) }
    // At least one link is open, and if it isn't patient each is.
    ensures open { IfOk result (λ posts. has_open (map refusal_at posts.0.items) ≡ true) }
    ensures all { is_patient ≡ false → IfOk result (λ posts. list_all is_none (map refusal_at posts.0.items) ≡ true) }
{
    let signals = Signals::open(rt.alloc(), plan, lines)?;
    let posts = shared_posts(rt, plan, keys, longest, turns, is_patient, &signals)?;
    check_open(rt.alloc(), plan, posts.as_slice())?;
    let mut teller = signals.logger()?;
    warn_of_buffers(posts.as_slice(), longest, &mut teller);
    let bell = signals.waker()?;
    Ok((posts, bell))
}

/// The same, for workers that share these signals.
fn shared_posts<'a, H: AllocGlobal + Files<File = File> + Clock + Net>(
    rt: &'a H,
    plan: &Plan,
    keys: PlanKeys<'_>,
    longest: usize,
    turns: u64,
    is_patient: bool,
    signals: &Signals,
) -> Result<Vec<UdpPost<'a, H>>, ServeFault>
    requires { IsSoundPlan plan.now }
    ensures duties { IfOk result (λ posts. map duty_at posts.items ≡ duties plan.now keys.entry longest turns) }
    ensures watches { IfOk result (λ posts. map watches posts.items
        ≡ map (watched_by (watched_folders keys.entry)) keys.entry) }
    ensures all { is_patient ≡ false → IfOk result (λ posts. list_all is_none (map refusal_at posts.items) ≡ true) }
{
    let mut posts = Vec::new(rt.alloc());
    let links = keys.into_links();
    let folders = watched_folders(rt.alloc(), links.as_slice())?;
    for link in links {
        add_post(
            rt,
            plan,
            link,
            longest,
            turns,
            is_patient,
            folders.as_slice(),
            signals,
            &mut posts,
        )?;
    }
    Ok(posts)
}

/// Appends the post of one more worker.
fn add_post<'a, H: AllocGlobal + Files<File = File> + Clock + Net>(
    rt: &'a H,
    plan: &Plan,
    keyed: KeyedWorker<'_>,
    longest: usize,
    turns: u64,
    is_patient: bool,
    folders: &[FolderPath],
    signals: &Signals,
    posts: &mut Vec<UdpPost<'a, H>>,
) -> Result<(), ServeFault>
    requires { IsSoundPlan plan.now }
    ensures duties { OnOk result (map duty_at posts.new.items
        ≡ map duty_at posts.old.items ++ duty_of plan.now longest turns keyed.entry ∷ []) }
    ensures watches { OnOk result (map watches posts.new.items
        ≡ map watches posts.old.items ++ watched_by (map path_of folders.now) keyed.entry ∷ []) }
    ensures all { is_patient ≡ false → OnOk result (list_all is_none (map refusal_at posts.new.items)
        ≡ list_all is_none (map refusal_at posts.old.items)) }
{
    let post = post_of(
        rt, plan, keyed, longest, turns, is_patient, folders, signals,
    )?;
    match posts.push(post) {
        Ok(()) => Ok(()),
        Err(_refused) => Err(AllocError.into()),
    }
}

/// A worker of a plan, with its link, its clock and its waker. The waker has the bells of all workers, and the link has that
/// of its own worker. The clock of the first peer watches the folders. Warnings go to the lines. A worker whose neighbour isn't
/// in the plan has no link.
fn post_of<'a, H: AllocGlobal + Files<File = File> + Clock + Net>(
    rt: &'a H,
    plan: &Plan,
    keyed: KeyedWorker<'_>,
    longest: usize,
    turns: u64,
    is_patient: bool,
    folders: &[FolderPath],
    signals: &Signals,
) -> Result<UdpPost<'a, H>, ServeFault>
    requires { IsSoundPlan plan.now }
    ensures duty { IfOk result (λ post. duty_at post ≡ duty_of plan.now longest turns keyed.entry) }
    ensures watches { IfOk result (λ post. watches post ≡ watched_by (map path_of folders.now) keyed.entry) }
    ensures open { is_patient ≡ false → IfOk result IsOpened }
{
    let worker = keyed.worker;
    let Some(neighbour) = neighbour_of(plan, worker) else {
        return Err(ServeFault::Worker);
    };
    let link = link_of(
        rt, plan, neighbour, keyed, longest, turns, is_patient, signals,
    )?;
    let turn = clock_of(rt, worker, turns, folders, signals)?;
    let waker = signals.waker()?;
    Ok(Post {
        worker,
        link,
        turn,
        waker,
    })
}

/// The link of a worker to its neighbour: a socket, which is sealed if there is a key, or a folder.
fn link_of<'a, H: AllocGlobal + Files<File = File> + Clock + Net>(
    rt: &'a H,
    plan: &Plan,
    neighbour: &Neighbour,
    keyed: KeyedWorker<'_>,
    longest: usize,
    turns: u64,
    is_patient: bool,
    signals: &Signals,
) -> Result<NeighbourLink<&'a H>, ServeFault>
    requires sound { IsSoundPlan plan.now }
    requires neighbour { IsSoundNeighbour neighbour.now }
    ensures duty { IfOk result
        (λ link. Some (link_duty link) ≡ link_duty_at plan.now longest turns keyed.entry neighbour.now) }
    ensures open { is_patient ≡ false → IfOk result (λ link. refusal_of link ≡ None) }
{
    let KeyedWorker {
        worker,
        key,
        folder,
    } = keyed;
    let peer = StationId(neighbour.station);
    match (&neighbour.far, folder) {
        (FarEnd::Socket(socket), _) => {
            let key = key.map(|key| key.into_key());
            let link = socket_link_of(
                rt,
                plan,
                peer,
                worker,
                &socket.addresses,
                key,
                longest,
                turns,
                is_patient,
                signals,
            )?;
            Ok(NeighbourLink::Socket(link))
        }
        (FarEnd::Folder(end), Some(path)) => folder_link_of(
            rt, plan, peer, end, worker, path, longest, turns, signals,
        ),
        (FarEnd::Folder(_), None) => Err(ServeFault::Worker),
    }
}

/// The link of a worker to a folder that plays station `peer`.
fn folder_link_of<'a, H: AllocGlobal + Files<File = File> + Clock + Net>(
    rt: &'a H,
    plan: &Plan,
    peer: StationId,
    end: &FolderEnd,
    worker: Worker,
    path: String,
    longest: usize,
    turns: u64,
    signals: &Signals,
) -> Result<NeighbourLink<&'a H>, ServeFault>
    requires sound { IsSoundPlan plan.now }
    requires station { IsStation peer }
    requires folder { IsSoundFolder end.now }
    ensures { IfOk result
        (λ link. link_duty link ≡ folder_duty_of plan.now longest turns worker peer end.now (string_bytes path)) }
{
    match worker {
        Worker::Receiver(_) => {
            let link = incoming_link_of(
                rt, plan, peer, end, worker, path, longest, turns, signals,
            )?;
            Ok(NeighbourLink::Incoming(link))
        }
        Worker::Sender(_) => {
            let link = outgoing_link_of(rt, plan, peer, end, worker, path, turns, signals)?;
            Ok(NeighbourLink::Outgoing(link))
        }
    }
}

/// Logs the first of these links whose receive buffer is smaller than it wants. All want the same, and the system has
/// one limit.
fn warn_of_buffers<H: AllocGlobal + Files<File = File> + Clock + Net>(
    posts: &[UdpPost<'_, H>],
    longest: usize,
    teller: &mut Logger,
)
    ensures { logged_warnings teller.new ≡ logged_warnings teller.old
        ++ buffer_warnings (wanted_buffer longest) (map (λ post. buffer_of post.link) posts.now) }
{
    let wanted = wanted_buffer(longest);
    for post in posts {
        if let Some(warning) = buffer_warning(wanted, post.link.receive_buffer()) {
            teller.log(warning);
            return;
        }
    }
}
