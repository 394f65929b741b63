/// The number of an upstream neighbour in a command; 1 is the first peer of a spool. The peer may not exist.
#[derive(Clone, Copy, Debug, PartialEq, Eq)]
pub struct PeerId(pub u16);

/// The number of a next hop in a command; 1 is the first hop of a spool. The hop may not exist.
#[derive(Clone, Copy, Debug, PartialEq, Eq)]
pub struct HopId(pub u16);
