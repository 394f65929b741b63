//! The effect of commands, and of the group with their records, on a spool of device addresses.

ghost use Rattle.std.specs.Prelude.{◌≡◌, ◌+◌, ◌≤◌, List, length, ℕ};
ghost use Rattle.rly_core.specs.declared.params.Geometry.{Geometry};
ghost use Rattle.rly_disk.specs.DiskModel.{SameOutside};
ghost use Rattle.rly_machine.specs.Map.{map_command};
ghost use Rattle.rly_machine.specs.State.{State};
ghost use Rattle.rly_machine.specs.Step.{step};
ghost use Rattle.rly_machine.specs.declared.command.Command.{Command};
ghost use Rattle.rly_segment_checkpoint.specs.Stored.{payload_in, stored_length};
ghost use Rattle.rly_segment_checkpoint.specs.declared.stored.Stored.{Stored};
ghost use Rattle.rly_segment.specs.Device.{IsLayout};
ghost use Rattle.rly_segment.specs.Heads.{segment_end};
ghost use Rattle.rly_journal_index.specs.IndexRelation.{IsAlike, IsBrought, IsCommandAlike, IsIndex, StandsForBytes};

use rly_disk::Disk;

/// A command is applied whose record lies in the current segment, or will after the group is written. Accepted or not,
/// the spool is then an index, used up to the end of the record. On any disk the reply is that of the spool with bytes;
/// on an honest disk with that record, it recovers to the new state of that spool.
pub fn law_commanded<D: Disk>(disk: &D)
    ensures index { (g : Geometry) (segment used next : ℕ) (s : State Stored) (placed : Command Stored)
        → IsIndex g segment used s
        → IsBrought g segment used next placed → IsIndex g segment next (step stored_length s placed).0 }
    ensures reply { (s : State Stored) (t : State (List ℕ)) (placed : Command Stored) (command : Command (List ℕ))
        → IsAlike s t → IsCommandAlike placed command → (step stored_length s placed).1 ≡ (step length t command).1 }
    ensures alike { (s : State Stored) (t : State (List ℕ)) (placed : Command Stored) (command : Command (List ℕ))
        → IsAlike s t → IsCommandAlike placed command
        → IsAlike (step stored_length s placed).0 (step length t command).0 }
    ensures kept { (g : Geometry) (segment used next : ℕ) (s : State Stored) (t : State (List ℕ))
        (placed : Command Stored)
        (command : Command (List ℕ)) → IsLayout g (D.state disk.now).size → IsIndex g segment used s
        → IsBrought g segment used next placed → IsCommandAlike placed command
        → ((D.state disk.now).honest → map_command (payload_in (D.state disk.now).seen) placed ≡ command)
        → StandsForBytes (D.state disk.now) s t
        → StandsForBytes (D.state disk.now) (step stored_length s placed).0 (step length t command).0 }
{}

/// A write of bytes in the unused part of the current segment leaves an index that recovers to the same state.
pub fn law_written<D: Disk>(old: &D, new: &D)
    ensures { (g : Geometry) (segment used n : ℕ) (s : State Stored) (t : State (List ℕ)) → IsIndex g segment used s
        → used + n ≤ segment_end g segment → ((D.state new.now).honest → (D.state old.now).honest)
        → ((D.state new.now).honest → SameOutside used n (D.state old.now).seen (D.state new.now).seen)
        → StandsForBytes (D.state old.now) s t → StandsForBytes (D.state new.now) s t }
{}
