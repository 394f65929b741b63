//! The link of a receiver to a folder, whose files become datagrams.

ghost use Rattle.std.specs.Prelude.{◌≡◌, IfOk, IfSome, string_bytes};
ghost use Rattle.rly_core.specs.Bounds.{IsIn};
ghost use Rattle.rly_folder_file.specs.FileFolder.{folder_path, is_locked};
ghost use Rattle.rly_hop.specs.Spelling.{IsStation};
ghost use Rattle.rly_link_folder.specs.Inbox.{destination_of, longest_of, routes_of, takes_rest};
ghost use Rattle.rly_plan.specs.Sound.{IsSoundFolder, IsSoundPlan};
ghost use Rattle.rly_posts.specs.FolderLog.{log_view};
ghost use Rattle.rly_posts.specs.Folders.{HasNotedPeer, incoming_duty, incoming_duty_of, limit_of};

use crate::admission::{admission_of, probe_of};
use crate::folder_log::FolderLog;
use crate::open_folder::{OpenFolder, fault_of_folder, open_folder};
use rly_folder_file::FileFolder;
use rly_hop::StationId;
use rly_link::{Link, LinkFault, Sleep, Worker};
use rly_link_folder::{Admission, FolderLink, PeerNeighbour};
use rly_link_udp::{Signals, UdpLink};
use rly_plan::{FolderEnd, Plan};
use rly_station::ServeFault;
use std::alloc::Global;
use std::fs::{File, Files};
use std::net::Net;
use std::snapshot::Snapshot;
use std::time::Clock;

/// The maximum number of Data on their way.
const WINDOW: u64 = 64;

/// The link of a peer that is a folder.
#[derive(Drop)]
pub struct IncomingLink<C: Clock + Drop> {
    link: FolderLink<PeerNeighbour<FileFolder<C>>, UdpLink<C>>,
    /// The folder as it was opened.
    opened: Snapshot<FileFolder<C>>,
    log: FolderLog,
}

impl<C: AllocGlobal + Files<File = File> + Clock + Clone + Drop> IncomingLink<C> {
    /// The link of station `own` to a folder that plays station `peer`. Each of its datagrams has a limit in milliseconds,
    /// if there is one.
    fn new(
        alloc: Global,
        opened: OpenFolder<C>,
        own: StationId,
        peer: StationId,
        rules: Admission,
        limit: Option<u32>,
        probe: u16,
        log: FolderLog,
    ) -> IncomingLink<C>
        requires stations { IsStation own × IsStation peer }
        requires limit { IfSome limit (IsIn 1 1099511627) }
        ensures { incoming_duty result ≡ record {
          path = folder_path opened.folder;
          is_locked = is_locked opened.folder;
          plays = peer;
          station = own;
          routes = routes_of rules;
          rest = takes_rest rules;
          longest = longest_of rules;
          destination = destination_of rules;
          limit = limit_of limit;
          window = 64;
          probe = probe;
          rests = opened.bell.longest;
          tries = opened.bell.longest_until;
          log = log_view log;
        } }
    {
        let OpenFolder { folder, bell } = opened;
        let opened = Snapshot::of(&folder);
        let limit = limit_of(limit);
        let neighbour = PeerNeighbour::new(alloc, peer, own, rules, WINDOW, limit, probe, folder);
        IncomingLink {
            link: FolderLink::new(neighbour, bell),
            opened,
            log,
        }
    }

    /// Logs what the last call brought.
    fn note(&mut self)
        ensures noted { HasNotedPeer self.old.link.neighbour self.old.log self.new.log }
        ensures rest { self.new ≡ record self.old { log = self.new.log } }
    {
        let neighbour = self.link.neighbour();
        self.log.note(neighbour.folder());
        self.log.note_phase(neighbour.phase());
    }
}

impl<C: AllocGlobal + Files<File = File> + Clock + Clone + Drop> Link for IncomingLink<C> {
    ghost use Rattle.std.specs.Prelude.{◌≡◌, ◌≤◌, None, Some, IfOk, IfSome, IsOk, OnErr, OnOk, length, take};
    ghost use Rattle.rly_folder_file.specs.FileFolder.{file_state};
    ghost use Rattle.rly_link.specs.LinkHistory.{FailuresRose};
    ghost use Rattle.rly_link_folder.specs.PeerNeighbour.{GivesPacket, HearsPacket};
    ghost use Rattle.rly_posts.specs.Folders.{HasNotedPeer};

    ghost heard = { λ _. None };

    ghost sent = { λ _. None };

    ghost failed = { λ l. l.link.bell.failures };

    fn recv(&mut self, sleep: Sleep, buffer: &mut [u8]) -> Result<Option<usize>, LinkFault>
        ensures bound { IfOk result (λ found. IfSome found (λ count. count ≤ length buffer.new)) }
        ensures rise { OnErr result (FailuresRose self.old.link.bell.failures self.new.link.bell.failures) }
        ensures no_failure { OnOk result (self.new.link.bell.failures ≡ self.old.link.bell.failures) }
        // A packet is the neighbour's next one.
        ensures packet { IfOk result (λ found. IfSome found (λ count.
            GivesPacket file_state (Some (take count buffer.new)) self.old.link.neighbour self.new.link.neighbour)) }
        ensures noted { HasNotedPeer self.new.link.neighbour self.old.log self.new.log }
        ensures opened { self.new.opened ≡ self.old.opened }
    {
        let outcome = self.link.recv(sleep, buffer);
        self.note();
        outcome
    }

    fn send(&mut self, packet: &[u8]) -> Result<(), LinkFault>
        ensures rise { OnErr result (FailuresRose self.old.link.bell.failures self.new.link.bell.failures) }
        ensures no_failure { OnOk result (self.new.link.bell.failures ≡ self.old.link.bell.failures) }
        ensures ok { IsOk result }
        ensures hears { HearsPacket file_state packet.now self.old.link.neighbour self.new.link.neighbour }
        ensures noted { HasNotedPeer self.new.link.neighbour self.old.log self.new.log }
        ensures opened { self.new.opened ≡ self.old.opened }
    {
        let outcome = self.link.send(packet);
        self.note();
        outcome
    }

    fn failures(&self) -> u64 {
        self.link.failures()
    }
}

/// An age limit in microseconds, from one in milliseconds: 0 if there is none.
fn limit_of(limit: Option<u32>) -> u64
    requires { IfSome limit (IsIn 1 1099511627) }
    ensures { result ≡ limit_of limit }
{
    match limit {
        Some(limit) => u64::from(limit) * 1_000,
        None => 0,
    }
}

/// The link of a receiver to the folder at a path, which plays station `peer` of a plan. Messages have at most `longest`
/// bytes.
pub(crate) fn incoming_link_of<'a, H: AllocGlobal + Files<File = File> + Clock + Net>(
    rt: &'a H,
    plan: &Plan,
    peer: StationId,
    end: &FolderEnd,
    worker: Worker,
    path: String,
    longest: usize,
    turns: u64,
    signals: &Signals,
) -> Result<IncomingLink<&'a H>, ServeFault>
    requires sound { IsSoundPlan plan.now }
    requires station { IsStation peer }
    requires folder { IsSoundFolder end.now }
    ensures { IfOk result
        (λ link. incoming_duty link ≡ incoming_duty_of plan.now longest turns worker peer end.now (string_bytes path)) }
{
    let rules = admission_of(rt.alloc(), plan, peer, longest, end.destination)?;
    let log = FolderLog::new(worker, signals)?;
    match open_folder(rt, worker, path.as_str(), turns, signals) {
        Ok(opened) => Ok(IncomingLink::new(
            rt.alloc(),
            opened,
            StationId(plan.station()),
            peer,
            rules,
            end.limit,
            probe_of(plan),
            log,
        )),
        Err(word) => Err(fault_of_folder(worker, path, word)),
    }
}
