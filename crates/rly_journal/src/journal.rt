ghost use Rattle.std.specs.Prelude.{◌+◌, ◌++◌, IsOk, OnErr, OnOk, ◌≡◌, ◌≢◌, ◌⊎◌, ◌≤◌, Err, IfErr, IfOk, List};
ghost use Rattle.std.specs.Prelude.{MatchResult, Ok, [], true, false, length, vec_capacity, if◌then◌else◌};
ghost use Rattle.rly_core.specs.declared.refusal.Refusal.{Refusal as ARefusal};
ghost use Rattle.rly_core.specs.declared.refusal.Refusal.TheVariants as refusal;
ghost use Rattle.std.specs.List.{zip};
ghost use Rattle.rly_core.specs.Bounds.{IsIn};
ghost use Rattle.rly_disk.specs.DiskModel.{Later, Settled};
ghost use Rattle.rly_machine.specs.declared.call.Answer.{Answer as AnAnswer};
ghost use Rattle.rly_journal.specs.Journal.{holds_command, IsDueFor, IsRound, IsSafe, IsShut, MakesRound, MakesShut};
ghost use Rattle.rly_journal.specs.HelpersReady.{IsReadied, IsServed};
ghost use Rattle.rly_journal.specs.Rounds.{AreLostWhereWanted, refusals};
ghost use Rattle.rly_gate.specs.GroupReads.{OnlyRead};
ghost use Rattle.rly_journal.specs.Groups.{empty_group};
ghost use Rattle.rly_machine.specs.Sound.{IsSound};
ghost use Rattle.rly_machine.specs.State.{has_peer, last_at, live_bytes, live_items};
ghost use Rattle.rly_machine.specs.Query.{HasBytes, fetch_reply, item_of, show_reply};
ghost use Rattle.rly_machine.specs.declared.reply.Reply.{Reply as AReply};
ghost use Rattle.rly_journal.specs.OpenCalls.{BreaksOpening, MakesOpening, open_calls_succeeded};
ghost use Rattle.rly_journal.specs.Log.{IsDurable, IsFull, IsSameHead};
ghost use Rattle.rly_journal.specs.Recovery.{Stands};
ghost use Rattle.rly_journal.specs.RoundCalls.{IsRenewal, MayRenew, Renewal};
ghost use Rattle.rly_journal.specs.OpenFaults.{IsRefused};
ghost use Rattle.rly_journal.specs.Fetches.{AreFetching, IsFetchedAs, IsLostRead, reply_to_fetch};
ghost use Rattle.rly_disk.specs.Trials.{Tries, Try};
ghost use Rattle.rly_journal.specs.HelpersJournal.{IsAtEnd, IsLoggedFor, IsShaped};

use crate::evaluation::{Accepted, evaluate, refuse_calls};
use crate::group::Group;
use crate::next_segment::{RenewFault, append, is_full, renew};
use crate::open_fault::OpenFault;
use crate::recovery::{Recovered, recover};
use crate::tail::Tail;
use http_server::Log;
use rly_core::limits::{MAX_PAYLOAD, MAX_ROUND};
use rly_core::{HopId, Params, PeerId, Refusal};
use rly_disk::Disk;
use rly_journal_fetch::{Outcome, answer_all, place_of, read_payload, refuse_all};
use rly_journal_index::{Index, law_fetched};
use rly_machine::{Answer, Ask, Call, Command, Payload, Reply};
use std::alloc::{AllocError, Global};
use std::marker::Model;
use std::snapshot::Snapshot;

/// A spool on a device, where its payloads stay. In contracts it is its disk, the end of the journal there, its running
/// state with bytes, and whether it is broken. Ghost fields define that state: the disk and the index at opening, and
/// the commands accepted since.
#[derive(Drop)]
pub struct Journal<D: Disk> {
    disk: D,
    tail: Tail,
    index: Index,
    group: Group,
    outcomes: Vec<Outcome>,
    position: u64,
    broken: bool,
    first_disk: Snapshot<D>,
    first_index: Snapshot<Index>,
    accepted: Accepted,
}

impl<D: Disk> Model for Journal<D> {
    ghost use Rattle.std.specs.Prelude.{map, vec_capacity};
    ghost use Rattle.rly_journal.specs.Journal.{JournalState};
    ghost use Rattle.rly_journal.specs.HelpersJournal.{IsIdle, IsSoundJournal};
    ghost use Rattle.rly_journal.specs.ShownState.{shown_state};

    ghost Value = { JournalState D };

    ghost view = { λ j. record {
      disk = j.disk;
      tail = j.tail;
      state = shown_state (D.state j.first_disk.value).seen j.first_index.value.spool.state
          (map (λ e. e.0.value) j.accepted.items);
      position = j.position;
      broken = j.broken;
    } };

    ghost invariant = { λ j. IsSoundJournal (D.state j.disk) j.tail j.index
        (shown_state (D.state j.first_disk.value).seen j.first_index.value.spool.state
        (map (λ e. e.0.value) j.accepted.items)) j.position j.broken
        × IsIdle j.tail.geometry.params.payload j.group j.outcomes.items (vec_capacity j.outcomes) };
}

/// The parts of a newly opened journal.
#[derive(Drop)]
struct Begun {
    found: Recovered,
    group: Group,
    outcomes: Vec<Outcome>,
}

impl<D: Disk> Journal<D> {
    /// Opens a device: makes its last writes durable, and reads the recovered state, but no payload by device address.
    /// Writes nothing. On an error the disk is returned.
    pub fn open(alloc: Global, disk: D) -> Result<Journal<D>, (OpenFault, D)>
        // On an honest disk the state is the one that the device recovers to.
        ensures stands { (D.state disk).honest → IfOk result (λ journal. Stands (D.state disk).seen journal.state) }
        ensures whole { IfOk result (λ journal. (journal.broken ≡ false) × (journal.position ≡ journal.state.seq)) }
        // The error is the first failed check.
        ensures refused { (D.state disk).honest → IfErr result (λ failed. IsRefused (D.state disk).seen failed.0) }
        ensures only { MatchResult result (λ journal. OnlyRead (D.state disk) (D.state journal.disk))
            (λ failed. OnlyRead (D.state disk) (D.state failed.1)) }
        ensures settled { (D.state disk).honest → IfOk result (λ journal. Settled (D.state journal.disk)) }
        // A refused image is durable: it is refused again after a crash.
        ensures stays_refused { (D.state disk).honest
            → IfErr result (λ failed. failed.0 ≢ OpenFault.Device → Settled (D.state failed.1)) }
        // One sync, and then reads. `Device` is returned if one of them failed, and it was the last.
        ensures trace { MatchResult result (λ journal. MakesOpening D.state journal.tail disk journal.disk)
            (λ failed. BreaksOpening D.state (open_calls_succeeded failed.0) disk failed.1) }
    {
        let mut disk = disk;
        match begin(alloc, &mut disk) {
            Ok(begun) => {
                let tail = begun.found.tail;
                let position = begun.found.index.machine().seq();
                let first_disk = Snapshot::of(&disk);
                let first_index = Snapshot::of(&begun.found.index);
                begun.found.index.law_index();
                Ok(Journal {
                    disk,
                    tail,
                    index: begun.found.index,
                    group: begun.group,
                    outcomes: begun.outcomes,
                    position,
                    broken: false,
                    first_disk,
                    first_index,
                    accepted: Log::new(),
                })
            }
            Err(fault) => Err((fault, disk)),
        }
    }

    /// Replies to 1 to 64 calls in order, after the accepted commands among them are durable. If memory allocation
    /// fails for the replies, nothing changed.
    pub fn round(
        &mut self,
        alloc: Global,
        calls: &mut Vec<Call>,
        answers: &mut Vec<Answer>,
    ) -> Result<(), AllocError>
        requires { IsIn 1 64 (length calls.old.items) }
        ensures err { OnErr result
            ((self.new ≡ self.old) × (calls.new.items ≡ calls.old.items) × (answers.new.items ≡ answers.old.items)) }
        ensures reserved { length answers.old.items + length calls.old.items ≤ vec_capacity answers.old → IsOk result }
        ensures emptied { OnOk result (calls.new.items ≡ []) }
        ensures answers { OnOk result ((given : List AnAnswer) × (answers.new.items ≡ answers.old.items ++ given)
            × IsRound D.state self.old self.new calls.old.items given) }
        // The reply 14 occurs only for a Take or a Pick that passes all checks and for a Fetch of bytes, and 13 only
        // for such a Fetch; or either for all calls, if a segment is due but was not opened.
        ensures lost { OnOk result ((given : List AnAnswer) × (answers.new.items ≡ answers.old.items ++ given)
            × (AreLostWhereWanted self.old.state (zip calls.old.items given)
            ⊎ IsShut self.old self.new calls.old.items given)) }
        // The device calls: an opening of a segment or none, then the append of the accepted commands as one group,
        // then the reads for its Fetches, each whether or not earlier ones failed. If a segment is due but was not
        // opened, the clause gives the refusal of all calls and the failed call.
        ensures trace { self.old.broken ≡ false
            → OnOk result (MakesRound D.state self.old self.new calls.old.items answers.old.items answers.new.items
            ⊎ ((self.new.state ≡ self.old.state) × (told : ARefusal)
            × (answers.new.items ≡ answers.old.items ++ refusals told self.old.position calls.old.items)
            × MakesShut D.state self.old self.new calls.old.items told)) }
        // A crash at any moment of the round leaves all of its commands or none of them.
        ensures any_moment { (D.state self.old.disk).honest → self.old.broken ≡ false
            → OnOk result (IsSafe D.state self.old self.new calls.old.items) }
        ensures durable { (D.state self.new.disk).honest → self.new.broken ≡ false
            → OnOk result (Settled (D.state self.new.disk) × Stands (D.state self.new.disk).seen self.new.state) }
        ensures syncs { (D.state self.new.disk).syncs ≤ (D.state self.old.disk).syncs + 5 }
        ensures few_syncs { (IsDueFor self.old calls.old.items → ⊥)
            → (D.state self.new.disk).syncs ≤ (D.state self.old.disk).syncs + 2 }
        // If a segment is due, one is opened or all calls are refused; if none is due, none is opened.
        ensures opened { IsDueFor self.old calls.old.items → OnOk result (self.new.broken ≡ false
            → (self.new.tail.generation ≡ self.old.tail.generation + 1)
            ⊎ ((given : List AnAnswer) × (answers.new.items ≡ answers.old.items ++ given)
            × IsShut self.old self.new calls.old.items given)) }
        ensures stays { (IsDueFor self.old calls.old.items → ⊥) → IsSameHead self.old.tail self.new.tail }
        ensures later { Later (D.state self.old.disk) (D.state self.new.disk) }
        // Neither list loses capacity.
        ensures calls_capacity { vec_capacity calls.new ≡ vec_capacity calls.old }
        ensures answers_capacity { vec_capacity answers.old ≤ vec_capacity answers.new }
    {
        answers.reserve(calls.len())?;
        self.law_sound();
        if self.broken {
            refuse_calls(calls, answers, Refusal::Broken, self.position);
            return Ok(());
        }
        match self.make_ready(alloc, calls) {
            Ok(()) => self.serve(alloc, calls, answers),
            Err(refusal) => refuse_calls(calls, answers, refusal, self.position),
        }
        self.law_durable();
        Ok(())
    }

    /// Opens a segment if one is due, or returns the refusal for all calls.
    fn make_ready(&mut self, alloc: Global, calls: &[Call]) -> Result<(), Refusal>
        requires { self.old.broken ≡ false }
        ensures { IsReadied D.state self.old self.new calls.now result }
    {
        if !holds_command(calls) || !is_full(&self.tail) {
            return Ok(());
        }
        match renew(alloc, &mut self.disk, &mut self.tail, &mut self.index) {
            Ok(()) => Ok(()),
            Err(RenewFault::OutOfMemory) => Err(Refusal::OutOfMemory),
            Err(RenewFault::Read) => Err(Refusal::DeviceRead),
            Err(RenewFault::Device) => {
                self.broken = true;
                Err(Refusal::Unsure)
            }
        }
    }

    /// Evaluates the calls, makes their changes durable, and then replies to them.
    fn serve(&mut self, alloc: Global, calls: &mut Vec<Call>, answers: &mut Vec<Answer>)
        requires broken { self.old.broken ≡ false }
        requires count { length calls.old.items ≤ 64 }
        requires room { length answers.old.items + length calls.old.items ≤ vec_capacity answers.old }
        requires ready { IsDueFor self.old calls.old.items → ⊥ }
        ensures emptied { calls.new.items ≡ [] }
        ensures served { IsServed D.state self.old self.new calls.old.items answers.old.items answers.new.items }
        ensures calls_capacity { vec_capacity calls.new ≡ vec_capacity calls.old }
        ensures answers_capacity { vec_capacity answers.new ≡ vec_capacity answers.old }
    {
        self.index.law_index();
        evaluate(
            alloc,
            &mut self.index,
            &mut self.group,
            self.tail.gate,
            &mut self.accepted,
            calls,
            &mut self.outcomes,
        );
        if self.group.is_empty() {
            answer_all(alloc, &mut self.disk, &mut self.outcomes, answers);
            return;
        }
        match append(&mut self.disk, &mut self.tail, &mut self.group) {
            Ok(()) => {
                self.position = self.index.machine().seq();
                answer_all(alloc, &mut self.disk, &mut self.outcomes, answers);
            }
            Err(_) => {
                self.broken = true;
                refuse_all(&mut self.outcomes, answers, Refusal::Unsure, self.position);
            }
        }
    }

    /// Returns the payload in flight under a custody number, by one read of the device if it has bytes.
    pub fn fetch(&mut self, alloc: Global, hop: HopId, number: u64) -> Result<Vec<u8>, Refusal>
        // On any disk it has the length of the machine's payload, on an honest one it is that payload.
        ensures found { IfOk result (λ bytes. (self.old.broken ≡ false)
            × IsFetchedAs (D.state self.old.disk) (fetch_reply (item_of self.old.state hop number)) bytes.items) }
        // The error is 13 if the read failed, and 14 if the allocation failed: both only for a payload that has bytes.
        ensures refused { IfErr result
            (λ told. ((self.old.broken ≡ true) × (told ≡ refusal.Broken)) ⊎ ((self.old.broken ≡ false)
            × ((fetch_reply (item_of self.old.state hop number) ≡ AReply.Refused told)
            ⊎ (IsLostRead told × HasBytes (fetch_reply (item_of self.old.state hop number)))))) }
        // Only the disk's counters change.
        ensures same { self.new ≡ record self.old { disk = self.new.disk } }
        ensures only { OnlyRead (D.state self.old.disk) (D.state self.new.disk) }
        ensures trace { (rows : List Try) × Tries D.state rows self.old.disk self.new.disk
            × (self.old.broken ≡ true → rows ≡ [])
            × (self.old.broken ≡ false
            → AreFetching (fetch_reply (item_of self.old.state hop number)) (reply_to_fetch result) rows) }
    {
        if self.broken {
            return Err(Refusal::Broken);
        }
        self.index.law_index();
        law_fetched(&self.disk);
        let place = match self.index.item(hop, number) {
            Ok(item) => place_of(&item.payload),
            Err(refusal) => return Err(refusal),
        };
        let payload = match read_payload(alloc, &mut self.disk, place) {
            Ok(payload) => payload,
            Err(refusal) => return Err(refusal),
        };
        Ok(payload.into_bytes())
    }

    /// Returns all counters of a hop, or that the hop doesn't exist, or that the journal is broken.
    pub fn ask_show(&self, hop: HopId) -> Reply
        ensures { result ≡ (if self.now.broken then AReply.Refused refusal.Broken else show_reply self.now.state hop) }
    {
        if self.broken {
            return Reply::Refused(Refusal::Broken);
        }
        law_fetched(&self.disk);
        self.index.ask_show(hop)
    }

    /// Returns the last number taken from a peer, or that the peer doesn't exist, or that the journal is broken.
    pub fn last(&self, peer: PeerId) -> Result<u64, Refusal>
        ensures { result ≡ (if self.now.broken then Err refusal.Broken
            else if has_peer self.now.state peer then Ok (last_at self.now.state peer) else Err refusal.NoSuchPeer) }
    {
        if self.broken {
            return Err(Refusal::Broken);
        }
        let machine = self.index.machine();
        machine.law_sound();
        if peer.0 == 0 || u64::from(peer.0) > machine.params().peers {
            return Err(Refusal::NoSuchPeer);
        }
        Ok(machine.last(peer))
    }

    /// Returns the parameters of the spool.
    pub fn params(&self) -> Params
        ensures { result ≡ self.now.state.params }
    {
        self.index.machine().params()
    }

    /// Returns the number of live datagrams.
    pub fn item_count(&self) -> u64
        ensures { result ≡ live_items self.now.state }
    {
        self.index.machine().item_count()
    }

    /// Returns the number of live payload bytes.
    pub fn byte_count(&self) -> u64
        ensures { result ≡ live_bytes length self.now.state }
    {
        self.index.machine().byte_count()
    }

    /// Returns the number of accepted commands, up to the last reply.
    pub fn position(&self) -> u64
        ensures { result ≡ self.now.position }
    {
        self.position
    }

    /// Returns true iff a write or a sync failed: every later call is refused, until the device is reopened.
    pub fn is_broken(&self) -> bool
        ensures { result ≡ self.now.broken }
    {
        self.broken
    }

    /// Returns the disk.
    pub fn into_disk(self) -> D
        ensures { result ≡ self.disk }
    {
        let Journal {
            disk,
            tail: _tail,
            index: _index,
            group: _group,
            outcomes: _outcomes,
            position: _position,
            broken: _broken,
            first_disk: _first_disk,
            first_index: _first_index,
            accepted: _accepted,
        } = self;
        disk
    }

    /// The invariant of a journal that isn't broken, on an honest disk: no write is pending, and the bytes that the
    /// device reads recover to the running state.
    pub fn law_durable(&self)
        ensures { (D.state self.now.disk).honest → self.now.broken ≡ false
            → Settled (D.state self.now.disk) × Stands (D.state self.now.disk).seen self.now.state }
    {
        let _ = &self.tail;
    }

    /// The invariant of a journal that isn't broken: its position is that of its running state.
    pub fn law_counted(&self)
        ensures { self.now.broken ≡ false → self.now.position ≡ self.now.state.seq }
    {
        let _ = &self.tail;
    }

    /// The invariant of every journal's running state, on any disk.
    pub fn law_sound(&self)
        ensures { IsSound length self.now.state }
    {
        self.index.law_index();
    }

    /// The end of a journal that isn't broken, on an honest disk: in the newest segment, at the first closed gate after
    /// the head. So a segment is due for `round` if and only if it is due by the bytes that the device reads.
    pub fn law_tail(&self)
        ensures { (D.state self.now.disk).honest → self.now.broken ≡ false
            → IsDurable (D.state self.now.disk) self.now.tail self.now.state }
    {
        let _ = &self.tail;
    }

    /// The properties of a segment that is opened when one is due, on an honest disk: its head may be written over the
    /// bytes that the device reads, holds the running state, and leaves room for the largest group.
    pub fn law_renewed(&self)
        ensures { (D.state self.now.disk).honest → self.now.broken ≡ false → IsFull self.now.tail → (r : Renewal)
            → IsRenewal (D.state self.now.disk) self.now.tail self.now.state r
            → MayRenew (D.state self.now.disk).seen self.now.tail self.now.state r }
    {
        self.law_sound();
        law_wide(&self.tail);
    }
}

/// Makes a device's last writes durable, and reads the recovered state.
fn begin<D: Disk>(alloc: Global, disk: &mut D) -> Result<Begun, OpenFault>
    ensures shaped { IfOk result (λ begun. IsShaped (D.state disk.new).size begun.found.tail begun.found.index) }
    ensures ends { IfOk result (λ begun. IsAtEnd begun.found.tail begun.found.index) }
    ensures group { IfOk result (λ begun. begun.group ≡ empty_group begun.found.tail.geometry.params.payload) }
    ensures outcomes { IfOk result (λ begun. begun.outcomes.items ≡ []) }
    ensures room { IfOk result (λ begun. 64 ≤ vec_capacity begun.outcomes) }
    ensures logged { (D.state disk.old).honest
        → IfOk result (λ begun. IsLoggedFor (D.state disk.old).seen begun.found.tail begun.found.index) }
    ensures refused { (D.state disk.old).honest → IfErr result (λ fault. IsRefused (D.state disk.old).seen fault) }
    ensures trace { MatchResult result (λ begun. MakesOpening D.state begun.found.tail disk.old disk.new)
        (λ fault. BreaksOpening D.state (open_calls_succeeded fault) disk.old disk.new) }
{
    let Ok(()) = disk.sync() else {
        return Err(OpenFault::Device);
    };
    match recover(alloc, disk) {
        Ok(found) => match make_room(alloc, found.tail.geometry.params.payload) {
            Ok((group, outcomes)) => Ok(Begun {
                found,
                group,
                outcomes,
            }),
            Err(_) => Err(OpenFault::OutOfMemory),
        },
        Err(fault) => Err(fault),
    }
}

/// Allocates the memory that every round needs, for its group with payloads of at most `payload` bytes, and for the
/// outcomes of its calls.
fn make_room(alloc: Global, payload: u64) -> Result<(Group, Vec<Outcome>), AllocError>
    requires { payload ≤ MAX_PAYLOAD }
    ensures group { IfOk result (λ room. room.0 ≡ empty_group payload) }
    ensures outcomes { IfOk result (λ room. room.1.items ≡ []) }
    ensures room { IfOk result (λ room. 64 ≤ vec_capacity room.1) }
{
    let group = Group::new(alloc, payload)?;
    let outcomes = Vec::with_capacity(alloc, MAX_ROUND as usize)?;
    Ok((group, outcomes))
}

/// The number of gates in a `Tail`.
fn law_wide(tail: &Tail)
    ensures { length tail.now.closed ≡ 256 }
{
    let _closed = tail.closed;
}

/// Returns true iff a round has a command.
fn holds_command(calls: &[Call]) -> bool
    ensures { result ≡ holds_command calls.now }
{
    calls.iter().any(|call| matches!(call.ask, Ask::Command(_)))
}
