//! Laws of a group and of the device addresses that it returns: functions with an empty body whose
//! contract is the law.

ghost use Rattle.std.specs.Prelude.{◌≡◌, ◌+◌, ◌-◌, ◌<◌, ◌≤◌, ◌++◌, ◌∷◌, [], List, length, map, true, ℕ};
ghost use Rattle.std.specs.List.{AllByRecursion};
ghost use Rattle.rly_core.specs.Bounds.{IsIn};
ghost use Rattle.rly_core.specs.declared.params.Geometry.{Geometry};
ghost use Rattle.rly_disk.specs.DiskModel.{SameOutside};
ghost use Rattle.rly_disk.specs.Trace.{Makes};
ghost use Rattle.rly_gate.specs.Calls.{append_calls};
ghost use Rattle.rly_gate.specs.GroupReads.{HoldsGroup};
ghost use Rattle.rly_machine.specs.Fold.{fold};
ghost use Rattle.rly_machine.specs.Map.{map_command};
ghost use Rattle.rly_machine.specs.State.{State};
ghost use Rattle.rly_machine.specs.declared.command.Command.{Command};
ghost use Rattle.rly_record.specs.Spelling.{HasRecord, IsShort, body_of, longest_body, record_length};
ghost use Rattle.rly_reclaim.specs.Room.{IsDue, group_room};
ghost use Rattle.rly_segment_checkpoint.specs.Stored.{payload_in, stored_length};
ghost use Rattle.rly_segment_checkpoint.specs.declared.stored.Stored.{Stored};
ghost use Rattle.rly_segment_checkpoint.specs.declared.stored.Stored.TheVariants.{Inline};
ghost use Rattle.rly_segment.specs.Device.{IsLayout};
ghost use Rattle.rly_segment.specs.Heads.{segment_end, segment_place};
ghost use Rattle.rly_journal_index.specs.IndexRelation.{IsBrought, IsCommandAlike, IsIndex, StandsForBytes};
ghost use Rattle.rly_journal.specs.Groups.{GroupState, Holds, empty_group, group_body, record_place, with_record};
ghost use Rattle.rly_journal.specs.GroupAddresses.{Commands, placed_at, placed_group};

use rly_disk::Disk;

/// A new group has no commands, and one more after each staged record that is kept. It is written with their body.
pub fn law_holds()
    ensures none { (most : ℕ) → Holds [] (empty_group most) }
    ensures more { (commands : Commands) (command : Command (List ℕ)) (group : GroupState) → Holds commands group
        → HasRecord command
        → IsShort group.most command → Holds (commands ++ command ∷ []) (with_record group command) }
    ensures body { (commands : Commands) (group : GroupState) → Holds commands group
        → group_body group ≡ body_of commands }
{}

/// The addresses that a group returns are those of its commands at its gate, in order: each record follows the one
/// before, and the gate the last one. A command with its payload by address, or inline, differs only in the payload.
pub fn law_places()
    ensures told { (gate : ℕ) (commands : Commands) (command : Command (List ℕ)) (group : GroupState)
        → Holds commands group
        → placed_group gate (commands ++ command ∷ [])
        ≡ placed_group gate commands ++ placed_at (record_place gate group) command ∷ [] }
    ensures next { (gate : ℕ) (command : Command (List ℕ)) (group : GroupState)
        → record_place gate (with_record group command) ≡ record_place gate group + record_length length command }
    ensures after { (gate : ℕ) (group : GroupState) → gate + (5 + length (group_body group)) ≡ record_place gate group }
    ensures alike { (place : ℕ) (command : Command (List ℕ)) → IsCommandAlike (placed_at place command) command }
    ensures inline { (command : Command (List ℕ)) → IsCommandAlike (map_command Inline command) command }
{}

/// The room that segments keep for the largest group is its body, its length, its gate and one gate more.
pub fn law_room()
    ensures room { (payload : ℕ) → group_room payload ≡ longest_body payload + 6 }
    ensures worked { (group_room 1200 ≡ 78280) × (group_room 8192 ≡ 525768) }
{}

/// An index may apply a staged command with its address: its record and the gate after it lie in the segment, if no new
/// segment is due.
pub fn law_brought()
    ensures brought { (g : Geometry) (segment used gate : ℕ) (commands : Commands) (command : Command (List ℕ))
        (group : GroupState)
        → group.most ≡ g.params.payload → segment < g.segments → segment_place g segment ≤ gate
        → (IsDue g (gate - segment_place g segment) → ⊥) → Holds commands group → length commands < 64
        → HasRecord command
        → IsShort g.params.payload command → segment_place g segment ≤ used → used ≤ record_place gate group
        → IsBrought g segment used (record_place gate group + record_length length command)
        (placed_at (record_place gate group) command) }
    ensures room { (g : Geometry) (segment gate : ℕ) (commands : Commands) (group : GroupState)
        → group.most ≡ g.params.payload → segment_place g segment ≤ gate
        → (IsDue g (gate - segment_place g segment) → ⊥)
        → Holds commands group → length commands ≤ 64 → gate + 6 + length (group_body group) ≤ segment_end g segment }
{}

/// After a group was written, on an honest disk it is at its gate, all other bytes are unchanged, and its commands with
/// device addresses recover to the commands.
pub fn law_grouped<D: Disk>(old: &D, new: &D)
    ensures stands { (gate end : ℕ) (commands : Commands) (group : GroupState) → Holds commands group
        → IsIn 1 64 (length commands)
        → Makes D.state (append_calls gate (group_body group)) true old.now new.now → (D.state old.now).honest
        → gate + 6 + length (group_body group) ≤ end → end ≤ (D.state old.now).size
        → HoldsGroup (D.state new.now).seen gate end (body_of commands) }
    ensures outside { (gate : ℕ) (commands : Commands) (group : GroupState) → Holds commands group
        → IsIn 1 64 (length commands)
        → Makes D.state (append_calls gate (group_body group)) true old.now new.now → (D.state old.now).honest
        → gate + 6 + length (group_body group) ≤ (D.state old.now).size
        → SameOutside gate (6 + length (group_body group)) (D.state old.now).seen (D.state new.now).seen }
    ensures commands { (gate : ℕ) (commands : Commands) (group : GroupState) → Holds commands group
        → IsIn 1 64 (length commands)
        → Makes D.state (append_calls gate (group_body group)) true old.now new.now → (D.state old.now).honest
        → gate + 6 + length (group_body group) ≤ (D.state old.now).size
        → map (map_command (payload_in (D.state new.now).seen)) (placed_group gate commands) ≡ commands }
{}

/// If the device has a group at a gate, an index may apply any prefix of its commands, and recovers to the spool with
/// bytes after those commands: for a group that a round wrote, and for one that an opening reads.
pub fn law_gathered<D: Disk>(disk: &D)
    ensures index { (g : Geometry) (segment gate end : ℕ) (commands more : Commands) (s : State Stored)
        → segment < g.segments
        → segment_place g segment ≤ gate → end ≤ segment_end g segment
        → gate + 6 + length (body_of (commands ++ more)) ≤ end → IsIndex g segment gate s
        → IsIndex g segment (gate + 5 + length (body_of commands)) (fold stored_length s (placed_group gate commands)) }
    ensures kept { (g : Geometry) (segment gate end : ℕ) (commands more : Commands) (s : State Stored)
        (t : State (List ℕ))
        → IsLayout g (D.state disk.now).size → segment < g.segments → segment_place g segment ≤ gate
        → end ≤ segment_end g segment
        → gate + 6 + length (body_of (commands ++ more)) ≤ end
        → ((D.state disk.now).honest → HoldsGroup (D.state disk.now).seen gate end (body_of (commands ++ more)))
        → IsIndex g segment gate s → StandsForBytes (D.state disk.now) s t
        → StandsForBytes (D.state disk.now) (fold stored_length s (placed_group gate commands))
        (fold length t commands) }
{}
