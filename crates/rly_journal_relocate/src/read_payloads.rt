ghost use Rattle.std.specs.Prelude.{◌≡◌, ◌<◌, ◌≤◌, ◌^◌, All};
ghost use Rattle.rly_machine.specs.Map.{payloads_of};
ghost use Rattle.rly_segment_checkpoint.specs.Stored.{stored_length, stored_spelled};
ghost use Rattle.rly_reclaim.specs.Placed.{LiesElsewhere};
ghost use Rattle.rly_segment.specs.Heads.{gate_after, segment_end};
ghost use Rattle.rly_segment.specs.HeadAddresses.{state_in_head};

use crate::relocated_payloads::relocate_all;
use rly_core::Geometry;
use rly_machine::Machine;
use rly_segment_checkpoint::{HeadForm, Stored};

/// Sets the device addresses of a spool's inline payloads, after the spool was read from a segment's head of that form.
/// No payload's length changes, and no device is read. Allocates nothing.
pub fn relocate_read(
    form: HeadForm,
    geometry: &Geometry,
    segment: u64,
    machine: &mut Machine<Stored>,
)
    requires segment { segment < 256 }
    requires length { geometry.now.length < 2 ^ 31 }
    requires elsewhere { All (LiesElsewhere geometry.now segment) (payloads_of machine.old.state) }
    requires room { gate_after stored_length (stored_spelled form) geometry.now segment machine.old.state
        ≤ segment_end geometry.now segment }
    ensures { machine.new.state ≡ state_in_head form geometry.now segment machine.old.state }
{
    // Segments are counted from 0, so no segment has this number.
    let no_segment = geometry.segments;
    relocate_all(form, geometry, segment, no_segment, machine);
}
