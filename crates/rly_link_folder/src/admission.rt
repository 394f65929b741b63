// The datagrams that a station refuses for good, and those that its files become.
ghost use Rattle.std.specs.Prelude.{◌≡◌, ◌≤◌, ◌+◌, ◌++◌, length, take};
ghost use Rattle.rly_link_folder.specs.InboxCalls.{astray, destination_bytes, destination_in};

use rly_folder::Area;

/// The datagrams that a station takes: those whose destination has a route, or all if it takes the rest, that aren't too
/// long. The payload of a file's datagram is the file, behind the two bytes of a destination if there is one for all files.
#[derive(Drop)]
pub struct Admission {
    routes: Vec<u16>,
    rest: bool,
    longest: u16,
    destination: Option<u16>,
}

/// Returns a payload's destination: its first two bytes.
fn destination_in(payload: &[u8]) -> Option<u16>
    ensures { result ≡ destination_in payload.now }
{
    if payload.len() < 2 {
        return None;
    }
    Some(u16::from(payload[0]) * 256 + u16::from(payload[1]))
}

/// Returns the area of `refused/` for a payload with this destination that the station has no hop for.
fn astray(destination: Option<u16>) -> Area
    ensures { result ≡ astray destination }
{
    match destination {
        None => Area::TooShort,
        Some(_) => Area::NoRoute,
    }
}

impl Admission {
    ghost use Rattle.rly_link_folder.specs.Inbox.{destination_of, longest_of, payload_in, reason_in, routes_of};
    ghost use Rattle.rly_link_folder.specs.Inbox.{takes_rest};
    ghost use Rattle.rly_link_folder.specs.InboxCalls.{is_led};

    /// Makes it of the destinations that have a route, of whether the station takes what no route leads, of the length in
    /// bytes of the longest payload, and of the destination whose two bytes are put before each file: `None` if each file
    /// begins with its own.
    pub fn new(routes: Vec<u16>, rest: bool, longest: u16, destination: Option<u16>) -> Self
        ensures routes { routes_of result ≡ routes.items }
        ensures rest { takes_rest result ≡ rest }
        ensures longest { longest_of result ≡ longest }
        ensures destination { destination_of result ≡ destination }
    {
        Admission {
            routes,
            rest,
            longest,
            destination,
        }
    }

    /// Returns the number of bytes of a file that tells whether its datagram is refused.
    pub(crate) fn bytes_to_read(&self) -> usize
        ensures { result ≡ longest_of self.now + 2 }
    {
        usize::from(self.longest) + 2
    }

    /// Returns the area of `refused/` for a file whose datagram the station refuses for good.
    pub fn reason(&self, file: &[u8]) -> Option<Area>
        ensures { result ≡ reason_in self.now file.now }
    {
        let destination = self.destination_of(file);
        if !self.is_led(destination) {
            return Some(astray(destination));
        }
        if self.payload_length(file) > usize::from(self.longest) {
            return Some(Area::TooLong);
        }
        None
    }

    /// Returns whether the station has a hop for a payload with this destination.
    fn is_led(&self, destination: Option<u16>) -> bool
        ensures { result ≡ is_led (routes_of self.now) (takes_rest self.now) destination }
    {
        match destination {
            None => self.rest,
            Some(destination) => self.routes.contains(&destination) || self.rest,
        }
    }

    /// Returns the destination whose two bytes are put before each file.
    pub(crate) fn destination(&self) -> Option<u16>
        ensures { result ≡ destination_of self.now }
    {
        self.destination
    }

    /// Returns the length in bytes of the payload of a file's datagram.
    pub(crate) fn payload_length(&self, file: &[u8]) -> usize
        ensures { result ≡ length (payload_in self.now file.now) }
    {
        match self.destination {
            None => file.len(),
            Some(_) => file.len() + 2,
        }
    }

    /// Returns the destination of a file's datagram.
    fn destination_of(&self, file: &[u8]) -> Option<u16>
        ensures { result ≡ destination_in (payload_in self.now file.now) }
    {
        match self.destination {
            None => destination_in(file),
            Some(destination) => Some(destination),
        }
    }
}

/// Returns a payload that names a destination and nothing else.
pub(crate) fn destination_bytes(destination: u16) -> [u8; 2]
    ensures { result ≡ destination_bytes destination }
{
    [(destination / 256) as u8, (destination % 256) as u8]
}

/// Writes the two bytes of a destination and then a file at the front of a buffer, and returns their length in bytes.
pub(crate) fn write_after(destination: u16, file: &[u8], buffer: &mut [u8]) -> usize
    requires room { length file.now + 2 ≤ length buffer.old }
    ensures length { result ≡ length file.now + 2 }
    ensures size { length buffer.new ≡ length buffer.old }
    ensures written { take result buffer.new ≡ destination_bytes destination ++ file.now }
{
    let end = file.len() + 2;
    buffer[..2].copy_from_slice(&destination_bytes(destination));
    buffer[2..end].copy_from_slice(file);
    end
}
