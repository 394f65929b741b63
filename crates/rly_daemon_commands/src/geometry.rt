ghost use Rattle.std.specs.Prelude.{◌≡◌, ◌↔◌, IfOk, IsOk, IsOkUnless};
ghost use Rattle.rly_segment.specs.Device.{IsLayout, device_length};
ghost use Rattle.rly_daemon_commands.specs.FormatCommand.{wanted_geometry};

use rly_core::limits::{MAX_SEGMENTS, MIN_SEGMENTS, SEGMENT_LENGTH_LIMIT};
use rly_core::{Geometry, Params, Refusal};
use rly_reclaim::{fits, least_length};
use rly_segment::segment_end;

/// The geometry of a new device. Without a length its segments have the minimum. The only refusal is `BadGeometry`.
pub(crate) fn geometry_of(
    params: Params,
    segments: u64,
    length: Option<u64>,
) -> Result<Geometry, Refusal>
    ensures geometry { IfOk result (λ geometry. geometry ≡ wanted_geometry params segments length) }
    ensures exactly { IsOk result
        ↔ IsLayout (wanted_geometry params segments length) (device_length (wanted_geometry params segments length)) }
    ensures refusal { IsOkUnless result Refusal.BadGeometry }
{
    params.check()?;
    if segments < MIN_SEGMENTS || MAX_SEGMENTS < segments {
        return Err(Refusal::BadGeometry);
    }
    let least = least_length(&Geometry {
        params,
        segments,
        length: 0,
    });
    let geometry = Geometry {
        params,
        segments,
        length: length.unwrap_or(least),
    };
    if SEGMENT_LENGTH_LIMIT <= geometry.length || !fits(&geometry) {
        return Err(Refusal::BadGeometry);
    }
    Ok(geometry)
}

/// The size in bytes of a device of a geometry.
pub(crate) fn device_size(geometry: &Geometry) -> u64
    requires { IsLayout geometry.now (device_length geometry.now) }
    ensures { result ≡ device_length geometry.now }
{
    segment_end(geometry, geometry.segments - 1)
}
