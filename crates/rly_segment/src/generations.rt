ghost use Rattle.std.specs.Prelude.{◌+◌, ◌<◌, ◌≤◌, ◌∷◌, [], IfOk, IfSome, List, is_ok, ℕ};
ghost use Rattle.rly_core.specs.declared.params.Geometry.{Geometry};
ghost use Rattle.rly_disk.specs.Trace.{Makes, Read};
ghost use Rattle.rly_segment.specs.Answers.{IsReadNewest};
ghost use Rattle.rly_segment.specs.Calls.{generation_reads, reads_newest};
ghost use Rattle.rly_segment.specs.HelpersNewest.{IsFound, IsReadGate};
ghost use Rattle.rly_segment.specs.Device.{IsLayout};
ghost use Rattle.rly_segment.specs.Heads.{segment_place};

use crate::layout::{FIRST_SEGMENT, number_in, segment_place};
use rly_core::Geometry;
use rly_core::limits::MAX_SEGMENTS;
use rly_disk::{Disk, DiskFault};
use rly_gate::{OPEN_GATE, fill};

/// The bytes of a head's gate and generation.
const GENERATION_END: usize = 9;

/// The newest head, and the segments whose gates are closed.
#[derive(Clone, Copy)]
pub struct NewestHead {
    /// The segment whose head is the newest.
    pub segment: u64,
    /// For each segment of the device, true iff its gate is closed.
    pub closed: [bool; MAX_SEGMENTS as usize],
}

/// The reason that no head is the newest.
#[derive(Clone, Copy, PartialEq, Eq)]
pub enum NewestFault {
    /// No head is open: the offset of the first segment. Or several share the greatest generation: the offset of the
    /// last of these.
    Damaged(u64),
    /// A read of the device failed.
    Device,
}

/// An open head with the greatest generation, the last one of a tie.
#[derive(Clone, Copy)]
pub(crate) struct Greatest {
    pub(crate) segment: u64,
    pub(crate) generation: u64,
    pub(crate) is_shared: bool,
}

/// Returns the newest head. Reads each segment's gate and generation. Allocates nothing.
pub fn newest<D: Disk>(disk: &mut D, geometry: &Geometry) -> Result<NewestHead, NewestFault>
    requires { IsLayout geometry.now (D.state disk.old).size }
    ensures within { IfOk result (λ newest. newest.segment < geometry.now.segments) }
    ensures read { (D.state disk.old).honest → IsReadNewest (D.state disk.old).seen geometry.now result }
    ensures trace { Makes D.state (generation_reads geometry.now geometry.now.segments)
        (reads_newest result) disk.old disk.new }
{
    let mut closed = [false; MAX_SEGMENTS as usize];
    let mut found = None;
    for segment in 0..geometry.segments {
        let Ok(gate) = read_gate(disk, segment_place(geometry, segment)) else {
            return Err(NewestFault::Device);
        };
        closed[segment as usize] = gate.is_none();
        found = greater(found, segment, gate);
    }
    let Some(greatest) = found else {
        return Err(NewestFault::Damaged(FIRST_SEGMENT));
    };
    if greatest.is_shared {
        let place = segment_place(geometry, greatest.segment);
        return Err(NewestFault::Damaged(place));
    }
    Ok(NewestHead {
        segment: greatest.segment,
        closed,
    })
}

/// Returns the generation of the head at an offset, or `None` if its gate is closed.
fn read_gate<D: Disk>(disk: &mut D, place: u64) -> Result<Option<u64>, DiskFault>
    requires { place + GENERATION_END ≤ (D.state disk.old).size }
    ensures read { (D.state disk.old).honest
        → IfOk result (λ gate. IsReadGate (D.state disk.old).seen place gate) }
    ensures trace { Makes D.state (Read place 9 ∷ []) (is_ok result) disk.old disk.new }
{
    let mut start = [0u8; GENERATION_END];
    fill(disk, place, &mut start)?;
    if start[0] == OPEN_GATE {
        Ok(Some(number_in(&start, 1, 8)))
    } else {
        Ok(None)
    }
}

/// Returns the greatest generation up to and including this segment, from the greatest before it.
fn greater(found: Option<Greatest>, segment: u64, gate: Option<u64>) -> Option<Greatest>
    ensures found { (image : List ℕ) (g : Geometry) → IsFound image g segment found
        → IsReadGate image (segment_place g segment) gate → IsFound image g (segment + 1) result }
    ensures within { IfSome found (λ greatest. greatest.segment < segment)
        → IfSome result (λ greatest. greatest.segment < segment + 1) }
{
    let Some(generation) = gate else {
        return found;
    };
    let Some(greatest) = found else {
        return Some(Greatest {
            segment,
            generation,
            is_shared: false,
        });
    };
    if generation < greatest.generation {
        return found;
    }
    Some(Greatest {
        segment,
        generation,
        is_shared: generation == greatest.generation,
    })
}
