//! The link of a sender to a folder, whose datagrams become files.

ghost use Rattle.std.specs.Prelude.{◌≡◌, IfOk, string_bytes};
ghost use Rattle.rly_folder_file.specs.FileFolder.{folder_path, is_locked};
ghost use Rattle.rly_hop.specs.Spelling.{IsStation};
ghost use Rattle.rly_plan.specs.Sound.{IsSoundPlan};
ghost use Rattle.rly_posts.specs.FolderLog.{log_view};
ghost use Rattle.rly_posts.specs.Folders.{HasNotedHop, outgoing_duty, outgoing_duty_of};

use crate::folder_log::FolderLog;
use crate::folder_words::word_of_failure;
use crate::open_folder::{OpenFolder, fault_of_folder, open_folder};
use rly_folder_file::FileFolder;
use rly_hop::StationId;
use rly_link::{Link, LinkFault, Sleep, Worker};
use rly_link_folder::{FolderLink, HopNeighbour, Outbox};
use rly_link_udp::{Signals, UdpLink};
use rly_plan::{FolderEnd, Plan};
use rly_station::{FolderWord, ServeFault};
use std::fs::{File, Files};
use std::net::Net;
use std::snapshot::Snapshot;
use std::time::Clock;

/// The link of a hop that is a folder.
#[derive(Drop)]
pub struct OutgoingLink<C: Clock + Drop> {
    link: FolderLink<HopNeighbour<FileFolder<C>>, UdpLink<C>>,
    /// The folder as it was opened.
    opened: Snapshot<FileFolder<C>>,
    log: FolderLog,
}

impl<C: AllocGlobal + Files<File = File> + Clock + Clone + Drop> OutgoingLink<C> {
    /// The link of station `own` to a folder that plays station `peer`, and takes no more at `most` files. `Err` if its
    /// files can't be listed.
    fn new(
        opened: OpenFolder<C>,
        own: StationId,
        peer: StationId,
        most: u32,
        log: FolderLog,
    ) -> Result<OutgoingLink<C>, FolderWord>
        requires stations { IsStation own × IsStation peer }
        ensures { IfOk result (λ link. outgoing_duty link ≡ record {
          path = folder_path opened.folder;
          is_locked = is_locked opened.folder;
          plays = peer;
          station = own;
          most = most;
          rests = opened.bell.longest;
          tries = opened.bell.longest_until;
          log = log_view log;
        }) }
    {
        let OpenFolder { folder, bell } = opened;
        let opened = Snapshot::of(&folder);
        match Outbox::open(folder, u64::from(most)) {
            Ok(outbox) => {
                let neighbour = HopNeighbour::new(peer, own, outbox);
                Ok(OutgoingLink {
                    link: FolderLink::new(neighbour, bell),
                    opened,
                    log,
                })
            }
            Err(folder) => Err(word_of_failure(folder.fault())),
        }
    }

    /// Logs what the last call brought.
    fn note(&mut self)
        ensures noted { HasNotedHop self.old.link.neighbour self.old.log self.new.log }
        ensures rest { self.new ≡ record self.old { log = self.new.log } }
    {
        self.log.note(self.link.neighbour().folder());
    }
}

impl<C: AllocGlobal + Files<File = File> + Clock + Clone + Drop> Link for OutgoingLink<C> {
    ghost use Rattle.std.specs.Prelude.{◌≡◌, ◌≤◌, None, Some, IfOk, IfSome, IsOk, OnErr, OnOk, length, take};
    ghost use Rattle.rly_folder_file.specs.FileFolder.{file_state};
    ghost use Rattle.rly_link.specs.LinkHistory.{FailuresRose};
    ghost use Rattle.rly_link_folder.specs.HopNeighbour.{GivesReply, HearsPacket};
    ghost use Rattle.rly_posts.specs.Folders.{HasNotedHop};

    ghost heard = { λ _. None };

    ghost sent = { λ _. None };

    ghost failed = { λ l. l.link.bell.failures };

    fn recv(&mut self, sleep: Sleep, buffer: &mut [u8]) -> Result<Option<usize>, LinkFault>
        ensures bound { IfOk result (λ found. IfSome found (λ count. count ≤ length buffer.new)) }
        ensures rise { OnErr result (FailuresRose self.old.link.bell.failures self.new.link.bell.failures) }
        ensures no_failure { OnOk result (self.new.link.bell.failures ≡ self.old.link.bell.failures) }
        // A packet is the neighbour's next one.
        ensures packet { IfOk result (λ found. IfSome found (λ count.
            GivesReply (Some (take count buffer.new)) self.old.link.neighbour self.new.link.neighbour)) }
        ensures noted { HasNotedHop self.new.link.neighbour self.old.log self.new.log }
        ensures opened { self.new.opened ≡ self.old.opened }
    {
        let outcome = self.link.recv(sleep, buffer);
        self.note();
        outcome
    }

    fn send(&mut self, packet: &[u8]) -> Result<(), LinkFault>
        ensures rise { OnErr result (FailuresRose self.old.link.bell.failures self.new.link.bell.failures) }
        ensures no_failure { OnOk result (self.new.link.bell.failures ≡ self.old.link.bell.failures) }
        ensures ok { IsOk result }
        ensures hears { HearsPacket file_state packet.now self.old.link.neighbour self.new.link.neighbour }
        ensures noted { HasNotedHop self.new.link.neighbour self.old.log self.new.log }
        ensures opened { self.new.opened ≡ self.old.opened }
    {
        let outcome = self.link.send(packet);
        self.note();
        outcome
    }

    fn failures(&self) -> u64 {
        self.link.failures()
    }
}

/// The link of a sender to the folder at a path, which plays station `peer` of a plan.
pub(crate) fn outgoing_link_of<'a, H: AllocGlobal + Files<File = File> + Clock + Net>(
    rt: &'a H,
    plan: &Plan,
    peer: StationId,
    end: &FolderEnd,
    worker: Worker,
    path: String,
    turns: u64,
    signals: &Signals,
) -> Result<OutgoingLink<&'a H>, ServeFault>
    requires sound { IsSoundPlan plan.now }
    requires station { IsStation peer }
    ensures { IfOk result
        (λ link. outgoing_duty link ≡ outgoing_duty_of plan.now turns worker peer end.now (string_bytes path)) }
{
    let log = FolderLog::new(worker, signals)?;
    let link = match open_folder(rt, worker, path.as_str(), turns, signals) {
        Ok(opened) => OutgoingLink::new(opened, StationId(plan.station()), peer, end.most, log),
        Err(word) => Err(word),
    };
    match link {
        Ok(link) => Ok(link),
        Err(word) => Err(fault_of_folder(worker, path, word)),
    }
}
