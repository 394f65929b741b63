use crate::far_end::FarEnd;

/// A neighbour: its station number, 1 to 65,535, and the far end of its link.
#[derive(Drop)]
pub struct Neighbour {
    /// The neighbour's station number.
    pub station: u16,
    /// The far end of the link.
    pub far: FarEnd,
}
