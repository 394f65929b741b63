//! The spool of device addresses after a head was read or written.

ghost use Rattle.std.specs.Prelude.{◌≡◌, ◌<◌, List, ℕ};
ghost use Rattle.rly_core.specs.declared.params.Geometry.{Geometry};
ghost use Rattle.rly_disk.specs.DiskModel.{SameOutside};
ghost use Rattle.rly_machine.specs.State.{State};
ghost use Rattle.rly_segment_checkpoint.specs.Stored.{payload_in, stored_form, stored_length, stored_spelled};
ghost use Rattle.rly_segment_checkpoint.specs.declared.head_form.HeadForm.{HeadForm};
ghost use Rattle.rly_segment_checkpoint.specs.declared.head_form.HeadForm.TheVariants.{Second};
ghost use Rattle.rly_segment_checkpoint.specs.declared.stored.Stored.{Stored};
ghost use Rattle.rly_segment_checkpoint.specs.declared.stored.Stored.TheVariants.{Placed};
ghost use Rattle.rly_reclaim.specs.Placed.{IsPlaced};
ghost use Rattle.rly_reclaim.specs.LiveRoom.{collected_state};
ghost use Rattle.rly_segment.specs.Heads.{HoldsHeadOf, IsHeadOf, gate_after, segment_place};
ghost use Rattle.rly_segment.specs.HeadAddresses.{state_in_head};
ghost use Rattle.rly_journal_relocate.specs.Relocation.{MayMove, relocated_state, zeros_at};
ghost use Rattle.rly_journal_index.specs.IndexRelation.{IsIndex, StandsForBytes};

use rly_disk::Disk;

/// A head of either form was read. After its inline payloads got their addresses, its state is an index of the device,
/// used up to the gate after the head, and recovers to the same state as the head.
pub fn law_begun<D: Disk>(disk: &D)
    ensures index { (which : HeadForm) (g : Geometry) (segment generation : ℕ) (s : State Stored) → segment < g.segments
        → IsHeadOf stored_length (stored_spelled which) g segment generation s → IsPlaced g segment s
        → IsIndex g segment (gate_after stored_length (stored_spelled which) g segment s)
        (state_in_head which g segment s) }
    ensures kept { (which : HeadForm) (g : Geometry) (segment generation : ℕ) (s : State Stored) (t : State (List ℕ))
        → ((D.state disk.now).honest
        → HoldsHeadOf stored_length (stored_spelled which) (D.state disk.now).seen g segment generation s)
        → StandsForBytes (D.state disk.now) s t
        → StandsForBytes (D.state disk.now) (state_in_head which g segment s) t }
{}

/// The next segment was opened with a head of the collected copy (the victim's payloads inline). The relocated spool is
/// then an index of the device, used up to the gate after the new head, and recovers to the same state as before.
/// `law_but_for_bytes` of `rly_journal_relocate` says that the copy's payloads have the relocated spool's addresses,
/// for any bytes that were read.
pub fn law_opened<D: Disk>(old: &D, new: &D)
    ensures index { (g : Geometry) (target victim : ℕ) (s : State Stored) → MayMove g target victim s
        → victim < g.segments
        → IsIndex g target (gate_after stored_length stored_form g target (collected_state g victim zeros_at s))
        (relocated_state g target victim s) }
    ensures kept { (g : Geometry) (target victim generation : ℕ) (s copy : State Stored) (t : State (List ℕ))
        → MayMove g target victim s
        → ((D.state new.now).honest → (D.state old.now).honest)
        → ((D.state old.now).honest
        → copy ≡ collected_state g victim (λ place. payload_in (D.state old.now).seen (Placed place)) s)
        → state_in_head Second g target copy ≡ relocated_state g target victim s
        → ((D.state new.now).honest
        → HoldsHeadOf stored_length stored_form (D.state new.now).seen g target generation copy)
        → ((D.state new.now).honest
        → SameOutside (segment_place g target) g.length (D.state old.now).seen (D.state new.now).seen)
        → StandsForBytes (D.state old.now) s t
        → StandsForBytes (D.state new.now) (relocated_state g target victim s) t }
{}
