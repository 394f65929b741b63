//! Data that came ahead of a gap.

mod growths;
mod links;
mod packets;
mod reorder_buffer;
mod workers;
