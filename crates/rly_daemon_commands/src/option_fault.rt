//! The first option of `sim` or `format` that is out of its limits.

ghost use Rattle.std.specs.Prelude.{◌≡◌, OnOk};
ghost use Rattle.rly_core.specs.Bounds.{IsIn};
ghost use Rattle.rly_core.specs.Limits.{IsWithinLimits};
ghost use Rattle.rly_daemon_commands.specs.OptionFaults.{AreSizes};
ghost use Rattle.rly_daemon_commands.specs.OptionFaults.{format_fault, params_fault, sizes_fault, within};

use rly_core::limits::{
    MAX_BYTES, MAX_HOPS, MAX_INTERVAL, MAX_ITEMS, MAX_MAXPACKET, MAX_PAYLOAD, MAX_PEERS,
    MAX_SEGMENTS, MAX_WINDOW, MIN_SEGMENTS, SEGMENT_LENGTH_LIMIT,
};
use rly_core::{Geometry, Params};
use rly_reclaim::least_length;
use thiserror::Error;

/// An option of `sim` or `format`; displays as its name.
#[derive(Clone, Copy, Debug, PartialEq, Eq, Error)]
pub enum OptionName {
    #[error("--hops")]
    Hops,
    #[error("--peers")]
    Peers,
    #[error("--window")]
    Window,
    #[error("--items")]
    Items,
    #[error("--bytes")]
    Bytes,
    #[error("--maxpacket")]
    Maxpacket,
    /// Its greatest value is the interval.
    #[error("--target")]
    Target,
    #[error("--interval")]
    Interval,
    #[error("--payload")]
    Payload,
    #[error("--segments")]
    Segments,
    /// Its least value is the least that fits the other options.
    #[error("--length")]
    Length,
}

/// An option that is out of its limits: its value, and the least and the greatest that it may have; displays as the
/// second line of the refusal.
#[derive(Clone, Copy, Debug, PartialEq, Eq, Error)]
#[error("rly: options: {option} {value}: {least} to {most}")]
pub struct OptionFault {
    pub option: OptionName,
    pub value: u64,
    pub least: u64,
    pub most: u64,
}

/// The first parameter that is out of its limits, in the order of `Params::check`.
pub fn params_fault(params: &Params) -> Result<(), OptionFault>
    ensures first { result ≡ params_fault params.now }
    ensures limits { OnOk result (IsWithinLimits params.now) }
{
    sizes_fault(params)?;
    within(OptionName::Maxpacket, params.maxpacket, 0, MAX_MAXPACKET)?;
    within(OptionName::Interval, params.interval, 1, MAX_INTERVAL)?;
    within(OptionName::Target, params.target, 1, params.interval)?;
    within(OptionName::Payload, params.payload, 1, MAX_PAYLOAD)
}

/// The first size that is out of its limits.
fn sizes_fault(params: &Params) -> Result<(), OptionFault>
    ensures first { result ≡ sizes_fault params.now }
    ensures limits { OnOk result (AreSizes params.now) }
{
    within(OptionName::Hops, params.hops, 1, MAX_HOPS)?;
    within(OptionName::Peers, params.peers, 1, MAX_PEERS)?;
    within(OptionName::Window, params.window, 1, MAX_WINDOW)?;
    within(OptionName::Items, params.items, 1, MAX_ITEMS)?;
    within(OptionName::Bytes, params.bytes, 1, MAX_BYTES)
}

/// The first option of `format` that is out of its limits. The least length is that for the other options.
pub fn format_fault(params: &Params, segments: u64, length: Option<u64>) -> Result<(), OptionFault>
    ensures { result ≡ format_fault params.now segments length }
{
    params_fault(params)?;
    within(OptionName::Segments, segments, MIN_SEGMENTS, MAX_SEGMENTS)?;
    let least = least_length(&Geometry {
        params: *params,
        segments,
        length: 0,
    });
    let most = SEGMENT_LENGTH_LIMIT - 1;
    within(OptionName::Length, length.unwrap_or(least), least, most)
}

/// Whether an option has one of these values.
fn within(option: OptionName, value: u64, least: u64, most: u64) -> Result<(), OptionFault>
    ensures first { result ≡ within option value least most }
    ensures limits { OnOk result (IsIn least most value) }
{
    if least <= value && value <= most {
        return Ok(());
    }
    Err(OptionFault {
        option,
        value,
        least,
        most,
    })
}
