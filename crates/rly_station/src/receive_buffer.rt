//! The receive buffers that links want of the system.

ghost use Rattle.std.specs.Prelude.{◌≡◌};
ghost use Rattle.rly_station.specs.ReceiveBuffers.{buffer_warning, wanted_buffer};

use crate::warning::Warning;
use rly_link_auth::TAG_BYTES;

/// The maximum number of Data that a peer has in flight.
const WINDOW: usize = 64;

/// The bytes of receive buffer that a peer's link wants, if its messages have at most `longest` bytes: one window waits
/// while another is made durable. A tag is counted also if the link has no key, so all links want the same.
pub fn wanted_buffer(longest: usize) -> u32
    ensures { result ≡ wanted_buffer longest }
{
    let packet = longest.min(usize::from(u16::MAX)) + TAG_BYTES;
    (2 * WINDOW * packet) as u32
}

/// The warning of a link whose receive buffer has fewer bytes than it wants; none if the system doesn't say how many.
pub fn buffer_warning(wanted: u32, granted: Option<u32>) -> Option<Warning>
    ensures { result ≡ buffer_warning wanted granted }
{
    let granted = granted?;
    if granted >= wanted {
        return None;
    }
    Some(Warning::SmallBuffer { wanted, granted })
}
