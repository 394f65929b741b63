ghost use Rattle.std.specs.Prelude.{◌≡◌, ◌+◌, ◌<◌, ◌≤◌, ◌^◌, length};
ghost use Rattle.byteorder.specs.Endian.{big_bytes};
ghost use Rattle.rly_segment.specs.Device.{number_in};
ghost use Rattle.rly_segment.specs.Heads.{segment_end, segment_place};

use byteorder::{BigEndian, ByteOrder};
use rly_core::Geometry;

/// The device offset of the first segment.
pub(crate) const FIRST_SEGMENT: u64 = 64;

/// Returns the device offset of a segment, that of its gate.
pub fn segment_place(geometry: &Geometry, segment: u64) -> u64
    requires segment { segment < 256 }
    requires length { geometry.now.length < 2 ^ 31 }
    ensures { result ≡ segment_place geometry.now segment }
{
    FIRST_SEGMENT + segment * geometry.length
}

/// Returns the device offset after a segment.
pub fn segment_end(geometry: &Geometry, segment: u64) -> u64
    requires segment { segment < 256 }
    requires length { geometry.now.length < 2 ^ 31 }
    ensures { result ≡ segment_end geometry.now segment }
{
    segment_place(geometry, segment) + geometry.length
}

/// Returns the number in `width` bytes at an offset.
pub(crate) fn number_in(bytes: &[u8], place: usize, width: usize) -> u64
    requires within { place + width ≤ length bytes.now }
    requires least { 1 ≤ width }
    requires most { width ≤ 8 }
    ensures { result ≡ number_in bytes.now place width }
{
    BigEndian::read_uint(&bytes[place..place + width], width)
}

/// Decodes a number of 8 bytes.
pub(crate) fn number_of_8(bytes: &[u8]) -> u64
    requires { length bytes.now ≡ 8 }
    ensures { big_bytes 8 result ≡ bytes.now }
{
    BigEndian::read_u64(bytes)
}

/// Decodes a number of 4 bytes.
pub(crate) fn number_of_4(bytes: &[u8]) -> u32
    requires { length bytes.now ≡ 4 }
    ensures { big_bytes 4 result ≡ bytes.now }
{
    BigEndian::read_u32(bytes)
}
