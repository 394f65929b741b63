use rly_core::Geometry;
use rly_core::limits::MAX_SEGMENTS;

/// The end of the journal on its device.
#[derive(Clone, Copy)]
pub struct Tail {
    /// The geometry of the device.
    pub geometry: Geometry,
    /// The segment of the newest head.
    pub segment: u64,
    /// The generation of that head.
    pub generation: u64,
    /// The device offset of the first closed gate after it.
    pub gate: u64,
    /// For each segment, true iff its gate is closed.
    pub closed: [bool; MAX_SEGMENTS as usize],
}
