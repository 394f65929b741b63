//! Laws of one relay after every list of events: functions with an empty body whose contract is
//! the law.

ghost use Rattle.std.specs.Prelude.{◌≡◌, ◌↔◌, ◌+◌, ◌++◌, ◌∷◌, [], Bool, IsTrue, List, Some, map, ℕ};
ghost use Rattle.rly_core.specs.declared.params.Geometry.{Geometry as AGeometry};
ghost use Rattle.rly_journal.specs.declared.tail.Tail.{Tail as ATail};
ghost use Rattle.rly_gate.specs.Calls.{append_calls};
ghost use Rattle.rly_journal.specs.Log.{IsFull, IsLogged};
ghost use Rattle.rly_journal.specs.Recovery.{IsRecovery, Recovery, gate_of};
ghost use Rattle.rly_record.specs.Spelling.{body_of};
ghost use Rattle.rly_disk.specs.Trace.{DeviceEvent, images_after, seen_after};
ghost use Rattle.rly_machine.specs.State.{State};
ghost use Rattle.rly_gate.specs.Group.{IsClosed};
ghost use Rattle.rly_segment.specs.Calls.{replace_calls};
ghost use Rattle.rly_segment.specs.Formatted.{IsFormatted};
ghost use Rattle.rly_segment.specs.Heads.{segment_place};
ghost use Rattle.rly_segment_checkpoint.specs.declared.stored.Stored.{Stored as AStored};
ghost use Rattle.rly_world.specs.RelayPhases.{IsDueIn, next_head};
ghost use Rattle.rly_world.specs.RelayLaw.{HoldsTold};
ghost use Rattle.rly_world.specs.RelaySteps.{Calls, Event, GoesOn, Run};
ghost use Rattle.rly_world.specs.RelayWorld.{Answering, Body, Device, IsImageOf, Phase, Ready, Round, Seal, World};
ghost use Rattle.rly_world.specs.RelayWorld.{Writing};
ghost use Rattle.rly_world.specs.RelayWorld.{asked_of, round_commands, new_world, seen_of};

/// From a formatted device with no write pending, after every list of events: each crash image recovers to the state
/// after a prefix of the accepted commands, with every command that a reply accepted.
pub fn law_relay()
    ensures { (g : AGeometry) (seats : ℕ) (bytes : List ℕ) (events : List Event) (w : World) → IsFormatted g bytes
        → Run (new_world g.params seats bytes) events w → (image : List ℕ) → IsImageOf w.device image
        → HoldsTold w image }
{}

/// No round is stuck between its device calls: after every list of events, the remaining bytes of a phase may be
/// written and synced.
pub fn law_relay_goes_on()
    ensures { (g : AGeometry) (seats : ℕ) (bytes : List ℕ) (events : List Event) (w : World) (round : Round)
        (phase : Phase)
        → IsFormatted g bytes → Run (new_world g.params seats bytes) events w
        → w.round ≡ Some round → round.stage ≡ Writing phase → GoesOn w phase }
{}

/// The calls with which a journal appends a group are possible, in that order, while the round's commands are
/// unwritten, and lead to a round with its replies.
pub fn law_relay_appends()
    ensures { (g : AGeometry) (seats : ℕ) (bytes : List ℕ) (events : List Event) (w : World) (round : Round)
        (x : Recovery)
        → IsFormatted g bytes → Run (new_world g.params seats bytes) events w
        → w.round ≡ Some round → round.stage ≡ Writing Body → IsRecovery w.device.synced x
        → (new : World) × Run w (map Calls (append_calls (gate_of x) (body_of (round_commands w)))) new
        × (new.round ≡ Some (record round { stage = Answering })) × (new.device.since ≡ []) }
{}

/// And so are those with which it opens a segment, while its gate isn't closed yet, with the head that it chose. They
/// lead to a round that is ready to be evaluated.
pub fn law_relay_replaces()
    ensures { (g : AGeometry) (seats : ℕ) (bytes : List ℕ) (events : List Event) (w : World) (round : Round)
        (segment : ℕ)
        (copy : State AStored) (closed : Bool) (x : Recovery) → IsFormatted g bytes
        → Run (new_world g.params seats bytes) events w
        → w.round ≡ Some round → round.stage ≡ Writing (Seal segment copy) → IsRecovery w.device.synced x
        → (IsTrue closed ↔ IsClosed (seen_of w.device) (segment_place x.geometry segment))
        → (new : World) × Run w
        (map Calls (replace_calls (segment_place x.geometry segment) closed (next_head x copy))) new
        × (new.round ≡ Some (record round { stage = Ready })) × (new.device.since ≡ []) }
{}

/// A segment is due by the bytes that the device reads if and only if it is due for a journal that ends there.
pub fn law_due()
    ensures { (image : List ℕ) (tail : ATail) (s : State (List ℕ)) → IsLogged image tail s
        → IsDueIn image ↔ IsFull tail }
{}

/// The device of the model behaves like an honest disk: after a call, done or failed, the bytes that it reads and its
/// crash images are those of the disk model.
pub fn law_device()
    ensures seen { (device : Device) (call : DeviceEvent)
        → seen_of (asked_of device call) ≡ seen_after call (seen_of device) }
    ensures images { (device : Device) (call : DeviceEvent) (image : List ℕ) → IsImageOf (asked_of device call) image
        ↔ images_after call (seen_of device) (IsImageOf device) image }
{}
