ghost use Rattle.std.specs.Prelude.{◌≡◌, ◌↔◌, IfOk, IsTrue, length};
ghost use Rattle.rly_disk.specs.Trace.{Makes};
ghost use Rattle.rly_core.specs.Bounds.{IsIn};
ghost use Rattle.rly_gate.specs.Group.{IsOpen, StandsAt};
ghost use Rattle.rly_segment.specs.Answers.{IsReadHeader};
ghost use Rattle.rly_segment.specs.Calls.{header_reads, reads_header};
ghost use Rattle.rly_segment.specs.Device.{IsLayout, device_text, geometry_in, longest_in, version_in};

use crate::layout::{FIRST_SEGMENT, number_in};
use rly_core::limits::{MAX_SEGMENTS, MIN_SEGMENTS, SEGMENT_LENGTH_LIMIT};
use rly_core::{Geometry, Params};
use rly_disk::Disk;
use rly_gate::{OPEN_GATE, fill};
use rly_reclaim::fits;

/// The bytes of the header's gate, text and fields. The bytes after them are not read.
const HEADER_BYTES: usize = 53;

/// `RLYDEV01`.
pub(crate) const DEVICE_TEXT: [u8; 8] = [0x52, 0x4c, 0x59, 0x44, 0x45, 0x56, 0x30, 0x31];

/// The version of new headers.
pub(crate) const VERSION: u16 = 2;

/// Maximum payload length of a spool whose header has version 1, which has no field for it.
const FIRST_PAYLOAD: u64 = 1_200;

/// The reason for a failed read of a device's header.
#[derive(Clone, Copy, PartialEq, Eq)]
pub enum HeaderFault {
    /// The device is shorter than a header, its gate is closed, or the text or version after the gate is another.
    NotADevice,
    /// The geometry doesn't fit a device of this size.
    BadGeometry,
    /// A read of the device failed.
    Device,
}

/// Reads the geometry of a device.
pub fn read_header<D: Disk>(disk: &mut D) -> Result<Geometry, HeaderFault>
    ensures geometry { IfOk result (λ geometry. IsLayout geometry (D.state disk.old).size) }
    ensures read { (D.state disk.old).honest → IsReadHeader (D.state disk.old).seen result }
    ensures trace { Makes D.state (header_reads (D.state disk.old).size) (reads_header result) disk.old disk.new }
{
    let size = disk.size();
    if size < FIRST_SEGMENT {
        return Err(HeaderFault::NotADevice);
    }
    let mut header = [0u8; HEADER_BYTES];
    let Ok(()) = fill(disk, 0, &mut header) else {
        return Err(HeaderFault::Device);
    };
    if !is_device(&header) {
        return Err(HeaderFault::NotADevice);
    }
    let geometry = geometry_in(&header);
    if is_layout(&geometry, size) {
        Ok(geometry)
    } else {
        Err(HeaderFault::BadGeometry)
    }
}

/// Returns true iff the gate is open, and the text and a readable version follow it.
fn is_device(header: &[u8; HEADER_BYTES]) -> bool
    ensures { IsTrue result
        ↔ (IsOpen header.now 0 × StandsAt header.now 1 device_text × IsIn 1 2 (version_in header.now)) }
{
    let version = number_in(header, 9, 2);
    header[0] == OPEN_GATE
        && &header[1..9] == DEVICE_TEXT.as_slice()
        && 1 <= version
        && version <= 2
}

/// Returns the maximum payload length, by the header's version.
fn longest_in(header: &[u8; HEADER_BYTES]) -> u64
    ensures { result ≡ longest_in header.now }
{
    match number_in(header, 9, 2) {
        2 => number_in(header, 51, 2),
        _ => FIRST_PAYLOAD,
    }
}

/// Returns the geometry of the fields.
fn geometry_in(header: &[u8; HEADER_BYTES]) -> Geometry
    ensures { result ≡ geometry_in header.now }
{
    Geometry {
        params: Params {
            hops: number_in(header, 11, 2),
            peers: number_in(header, 13, 2),
            window: number_in(header, 15, 2),
            items: number_in(header, 23, 4),
            bytes: number_in(header, 27, 4),
            maxpacket: number_in(header, 31, 4),
            target: number_in(header, 35, 8),
            interval: number_in(header, 43, 8),
            payload: longest_in(header),
        },
        segments: number_in(header, 17, 2),
        length: number_in(header, 19, 4),
    }
}

/// Returns true iff a device of `size` bytes can have a geometry.
pub(crate) fn is_layout(geometry: &Geometry, size: u64) -> bool
    ensures { IsTrue result ↔ IsLayout geometry.now size }
{
    geometry.params.check().is_ok()
        && MIN_SEGMENTS <= geometry.segments
        && geometry.segments <= MAX_SEGMENTS
        && geometry.length < SEGMENT_LENGTH_LIMIT
        && fits(geometry)
        && FIRST_SEGMENT + geometry.segments * geometry.length <= size
}
