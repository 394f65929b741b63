//! One relay that runs.

mod cycles;
mod growths;
mod limits;
mod reads;
mod script;
