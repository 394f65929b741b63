//! Laws of payloads by device address: functions with an empty body whose contract is the law.

ghost use Rattle.std.specs.Prelude.{◌≡◌, ◌≢◌, ◌+◌, ◌<◌, ◌≤◌, ℕ, All, IsTrue, List, length, sum_by};
ghost use Rattle.rly_core.specs.Bounds.{IsIn};
ghost use Rattle.rly_core.specs.declared.params.Geometry.{Geometry};
ghost use Rattle.rly_machine.specs.Accepted.{is_accepted};
ghost use Rattle.rly_machine.specs.Map.{payload_of, payloads_of};
ghost use Rattle.rly_machine.specs.Sound.{IsSound};
ghost use Rattle.rly_machine.specs.State.{State};
ghost use Rattle.rly_machine.specs.Step.{step};
ghost use Rattle.rly_machine.specs.declared.command.Command.{Command};
ghost use Rattle.rly_segment_checkpoint.specs.Stored.{IsStorable, payload_in, state_in, stored_length};
ghost use Rattle.rly_segment_checkpoint.specs.declared.head_form.HeadForm.{HeadForm};
ghost use Rattle.rly_segment_checkpoint.specs.declared.stored.DeviceAddress.{DeviceAddress};
ghost use Rattle.rly_segment_checkpoint.specs.declared.stored.Stored.{Stored};
ghost use Rattle.rly_segment_checkpoint.specs.declared.stored.Stored.TheVariants.{Placed};
ghost use Rattle.rly_reclaim.specs.SegmentChoice.{IsFree, IsVictim, MayOpen};
ghost use Rattle.rly_reclaim.specs.Room.{Fits};
ghost use Rattle.rly_reclaim.specs.RemovedPayloads.{removed_payloads};
ghost use Rattle.rly_reclaim.specs.Places.{LiesNotIn, bytes_in, live_by_segment, live_in};
ghost use Rattle.rly_reclaim.specs.LiveRoom.{HasRoomFor, collected_state, inline_bytes};

/// If segments are long enough, the victim of a sound state has few live bytes, and the new head has room with the
/// largest group after it.
pub fn law_live_room()
    ensures { (g : Geometry) (s : State Stored) (current free victim : ℕ) → IsIn 2 256 g.segments → Fits g
        → IsSound stored_length s → s.params ≡ g.params
        → IsFree (live_by_segment g s) current free → IsVictim (live_by_segment g s) free victim
        → HasRoomFor g s victim }
{}

/// The state of the next head, with the victim's payloads inline: it has as many inline bytes as the victim had live
/// ones, none of its payloads lies in the victim, and over an image in which these were read it recovers to the same
/// state.
pub fn law_collected()
    ensures bytes { (g : Geometry) (victim : ℕ) (read : DeviceAddress → List ℕ) (s : State Stored)
        → ((place : DeviceAddress) → length (read place) ≡ place.length)
        → inline_bytes (collected_state g victim read s) ≡ inline_bytes s + live_in g victim s }
    ensures emptied { (g : Geometry) (victim : ℕ) (read : DeviceAddress → List ℕ) (s : State Stored)
        → live_in g victim (collected_state g victim read s) ≡ 0 }
    ensures others { (g : Geometry) (victim : ℕ) (read : DeviceAddress → List ℕ) (s : State Stored) (segment : ℕ)
        → segment ≢ victim
        → live_in g segment (collected_state g victim read s) ≡ live_in g segment s }
    ensures sound { (g : Geometry) (victim : ℕ) (read : DeviceAddress → List ℕ) (s : State Stored)
        → ((place : DeviceAddress) → length (read place) ≡ place.length)
        → IsSound stored_length s → IsSound stored_length (collected_state g victim read s) }
    ensures same { (g : Geometry) (victim : ℕ) (image : List ℕ) (s : State Stored)
        → state_in image (collected_state g victim (λ place. payload_in image (Placed place)) s) ≡ state_in image s }
{}

/// A segment without live bytes has none after a command that brings none into it: so a segment that may be opened
/// still may.
pub fn law_stays_empty()
    ensures { (g : Geometry) (segment : ℕ) (s : State Stored) (command : Command Stored) → live_in g segment s ≡ 0
        → All (λ payload. bytes_in g segment payload ≡ 0) (payload_of command)
        → live_in g segment (step stored_length s command).0 ≡ 0 }
{}

/// An accepted command adds the bytes of its payload to a segment's live bytes, and subtracts those of the payloads
/// that it removes.
pub fn law_leaving()
    ensures { (g : Geometry) (segment : ℕ) (s : State Stored) (command : Command Stored)
        → IsTrue (is_accepted (step stored_length s command).1)
        → live_in g segment (step stored_length s command).0
        + sum_by (bytes_in g segment) (removed_payloads stored_length s command)
        ≡ live_in g segment s + sum_by (bytes_in g segment) (payload_of command) }
{}

/// No payload by device address lies in a segment without live bytes; such a segment may be opened, if it isn't the
/// current one.
pub fn law_none_lies()
    ensures lies { (which : HeadForm) (g : Geometry) (segment : ℕ) (s : State Stored)
        → All (IsStorable which) (payloads_of s)
        → live_in g segment s ≡ 0 → All (LiesNotIn g segment) (payloads_of s) }
    ensures opens { (g : Geometry) (current segment : ℕ) (s : State Stored) → segment < g.segments → segment ≢ current
        → live_in g segment s ≡ 0 → MayOpen (live_by_segment g s) current segment }
{}
