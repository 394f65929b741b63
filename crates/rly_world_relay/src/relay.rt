//! A simulated relay: the real journal on a disk in memory that fails as requested.

ghost use Rattle.std.specs.Prelude.{◌≡◌, ◌<◌, [], ℕ, List, None, Err, IfOk, OnErr, OnOk, map, replicate};
ghost use Rattle.std.specs.Prelude.{slice_index_or};
ghost use Rattle.rly_disk.specs.DiskModel.{Settled};
ghost use Rattle.rly_disk.specs.MemDisk.{mem_state};
ghost use Rattle.rly_segment.specs.Device.{IsLayout, device_length};
ghost use Rattle.rly_segment.specs.Formatted.{IsFormatted};
ghost use Rattle.rly_world.specs.RelaySteps.{Hears, Put};
ghost use Rattle.rly_world.specs.RelayWorld.{new_seat, new_world};
ghost use Rattle.rly_world_relay.specs.HelpersSeats.{views_of};
ghost use Rattle.rly_world_relay.specs.Relay.{Happened, IsCrash, IsOnly, IsOpening, Shows, disk_in};
ghost use Rattle.rly_world_relay.specs.Steps.{HappenedRound, IsStep};

use crate::batch::Batch;
use crate::round::{MAX_CALLS, gather, reply_all, reserve, serve};
use crate::seat::Seat;
use crate::spool::Spool;
use crate::step::Step;
use rly_core::limits::MAX_SEGMENTS;
use rly_core::{Geometry, Refusal};
use rly_disk::{After, FaultDisk, MemDisk, Torn};
use rly_journal::Journal;
use rly_machine::{Answer, Ask, SeatId};
use rly_segment::{FormatFault, format};
use std::alloc::{AllocError, Global};
use std::marker::Model;
use std::mem;

/// The bytes of a device before its segments.
const FIRST_SEGMENT: u64 = 64;

/// Every segment is shorter than this, in bytes.
const SEGMENT_LENGTH_LIMIT: u64 = 1 << 31;

/// Maximum number of requests in a batch.
const MAX_BATCH: usize = 64;

/// One relay on a disk in memory. In contracts it is its seats, its submission queue, the kept batch, and its journal
/// or its disk; each call is a list of events of the model.
#[derive(Drop)]
pub struct Relay {
    alloc: Global,
    seats: Vec<Seat>,
    line: Vec<Batch>,
    kept: Option<Batch>,
    spool: Spool,
}

impl Model for Relay {
    ghost use Rattle.rly_world_relay.specs.HelpersSeats.{views_of};
    ghost use Rattle.rly_world_relay.specs.Relay.{RelayState};

    ghost Value = { RelayState };

    ghost view = { λ r.
        record { seats = views_of r.seats.items; line = r.line.items; kept = r.kept; spool = r.spool } };
}

impl Relay {
    /// Makes a relay with `seats` seats that isn't open yet, on a formatted disk in memory. Returns `BadGeometry` if
    /// the geometry is outside its limits.
    pub fn new(alloc: Global, geometry: &Geometry, seats: u16) -> Result<Relay, Refusal>
        ensures world { IfOk result (λ relay. (bytes : List ℕ) × IsFormatted geometry.now bytes
            × Shows relay (new_world geometry.now.params seats bytes)) }
        ensures refused { result ≡ Err Refusal.BadGeometry → ¬ IsLayout geometry.now (device_length geometry.now) }
    {
        let disk = new_disk(alloc, geometry)?;
        let Ok(seats) = new_seats(alloc, seats) else {
            return Err(Refusal::OutOfMemory);
        };
        Ok(Relay {
            alloc,
            seats,
            line: Vec::new(alloc),
            kept: None,
            spool: Spool::Shut(disk),
        })
    }

    /// Makes one step. If an allocation fails, nothing was done.
    pub fn step(&mut self, step: Step) -> Result<(), AllocError>
        ensures err { OnErr result (self.new ≡ self.old) }
        ensures step { OnOk result (IsStep step self.old self.new) }
    {
        match step {
            Step::Put(seat, asks) => self.put(seat, asks),
            Step::Round(most) => self.round(most),
            Step::Hear(seat) => self.hear(seat),
            Step::Crash(torn) => {
                self.crash(torn);
                Ok(())
            }
            Step::Opening { at, torn, after } => {
                self.opening(at, torn, after);
                Ok(())
            }
        }
    }

    /// Returns the replies that a seat has received since the relay was opened; none if the seat doesn't exist.
    pub fn replies_of(&self, seat: SeatId) -> &[Answer]
        ensures { result.now ≡ (slice_index_or self.now.seats seat.0 new_seat).known }
    {
        let index = usize::from(seat.0);
        if index >= self.seats.len() {
            return &[];
        }
        self.seats[index].known()
    }

    /// A seat submits 1 to 64 requests, unless it waits for replies. If an allocation fails, nothing was done.
    fn put(&mut self, seat: SeatId, asks: Vec<Ask>) -> Result<(), AllocError>
        ensures err { OnErr result (self.new ≡ self.old) }
        ensures event { OnOk result (Happened (IsOnly (Put seat.0 asks.items)) self.old self.new) }
    {
        let index = usize::from(seat.0);
        if index >= self.seats.len()
            || self.seats[index].waits()
            || asks.is_empty()
            || asks.len() > MAX_BATCH
        {
            return Ok(());
        }
        self.line.reserve(1)?;
        let batch = self.seats[index].put(self.alloc, seat, asks)?;
        self.line.push_reserved(batch);
        Ok(())
    }

    /// Takes batches until they have at least `most` requests, runs a round of the journal, and puts the replies into
    /// the reply queues. If an allocation fails, nothing was done.
    fn round(&mut self, most: u64) -> Result<(), AllocError>
        ensures err { OnErr result (self.new ≡ self.old) }
        ensures round { OnOk result (HappenedRound most self.old self.new) }
    {
        reserve(&mut self.seats)?;
        let mut calls = Vec::with_capacity(self.alloc, MAX_CALLS)?;
        let mut answers = Vec::with_capacity(self.alloc, MAX_CALLS)?;
        let Spool::Opened(journal) = &mut self.spool else {
            return Ok(());
        };
        gather(most, &mut self.kept, &mut self.line, &mut calls);
        if calls.is_empty() {
            return Ok(());
        }
        serve(self.alloc, journal, &mut calls, &mut answers);
        reply_all(&mut self.seats, answers);
        Ok(())
    }

    /// A seat receives the replies in its reply queue. If an allocation fails, nothing was done.
    fn hear(&mut self, seat: SeatId) -> Result<(), AllocError>
        ensures err { OnErr result (self.new ≡ self.old) }
        ensures event { OnOk result (Happened (IsOnly (Hears seat.0)) self.old self.new) }
    {
        let index = usize::from(seat.0);
        if index >= self.seats.len() || !self.seats[index].has_replies() {
            return Ok(());
        }
        self.seats[index].hear()?;
        Ok(())
    }

    /// Stops the relay; its disk gets the bytes that such a crash leaves. All other state is lost.
    fn crash(&mut self, torn: Torn)
        ensures event { Happened (IsCrash torn (disk_in self.old.spool)) self.old self.new }
    {
        let disk = self.stop();
        self.spool = Spool::Shut(disk.crash(torn));
    }

    /// Opens the relay on its disk, whose call number `at`, counted from 1, fails; with 0 none does. All other state is
    /// lost, and the relay isn't open if that fails.
    fn opening(&mut self, at: u64, torn: u64, after: After)
        ensures event { Happened (IsOpening self.new.spool) self.old self.new }
    {
        let disk = FaultDisk::new(self.stop(), at, torn, after);
        self.spool = match Journal::open(self.alloc, disk) {
            Ok(journal) => Spool::Opened(journal),
            Err((_, disk)) => Spool::Shut(disk.into_inner()),
        };
    }

    /// Returns the disk, and drops all other state.
    fn stop(&mut self) -> MemDisk
        ensures disk { result ≡ disk_in self.old.spool }
        ensures seats { self.new.seats ≡ map (λ seat. new_seat) self.old.seats }
        ensures line { self.new.line ≡ [] }
        ensures kept { self.new.kept ≡ None }
    {
        for seat in self.seats.iter_mut() {
            seat.forget();
        }
        self.line.clear();
        self.kept = None;
        let none = MemDisk::new(self.alloc, Vec::new(self.alloc));
        mem::replace(&mut self.spool, Spool::Shut(none)).into_disk()
    }
}

/// Returns a formatted disk in memory.
fn new_disk(alloc: Global, geometry: &Geometry) -> Result<MemDisk, Refusal>
    ensures formatted { IfOk result (λ disk. IsFormatted geometry.now (mem_state disk).seen) }
    ensures settled { IfOk result (λ disk. Settled (mem_state disk)) }
    ensures refused { result ≡ Err Refusal.BadGeometry → ¬ IsLayout geometry.now (device_length geometry.now) }
{
    if geometry.segments > MAX_SEGMENTS || geometry.length >= SEGMENT_LENGTH_LIMIT {
        return Err(Refusal::BadGeometry);
    }
    let size = FIRST_SEGMENT + geometry.segments * geometry.length;
    let Ok(bytes) = vec![in alloc; 0u8; size as usize] else {
        return Err(Refusal::OutOfMemory);
    };
    let mut disk = MemDisk::new(alloc, bytes);
    match format(alloc, &mut disk, geometry) {
        Ok(()) => Ok(disk),
        Err(FormatFault::OutOfMemory) => Err(Refusal::OutOfMemory),
        Err(FormatFault::BadGeometry) => Err(Refusal::BadGeometry),
        Err(FormatFault::Device) => Err(Refusal::Device),
    }
}

/// Makes `count` seats that have submitted nothing.
fn new_seats(alloc: Global, count: u16) -> Result<Vec<Seat>, AllocError>
    ensures { IfOk result (λ seats. views_of seats.items ≡ replicate count new_seat) }
{
    let mut seats = Vec::with_capacity(alloc, usize::from(count))?;
    for _ in 0..count {
        seats.push_reserved(Seat::new(alloc));
    }
    Ok(seats)
}
