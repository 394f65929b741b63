//! Two relays that run.

mod growths;
mod lengths;
mod limits;
mod pairs;
mod script;
