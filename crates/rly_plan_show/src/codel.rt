//! What CoDel of a device does at the hops of a plan.

ghost use Rattle.std.specs.Prelude.{◌≡◌, ◌++◌, IfOk, OnOk, string_bytes};
ghost use Rattle.rly_core.specs.Limits.{IsWithinLimits};
ghost use Rattle.rly_plan_show.specs.CodelText.{backlog, backlog_text, bytes_line, carried_text, codel_text};
ghost use Rattle.rly_plan_show.specs.CodelText.{hop_codel, hops_codel};
ghost use Rattle.rly_plan_show.specs.CodelText.{has_room, keeps_all, keeps_less, kept_line, lack_line, room_line};
ghost use Rattle.rly_plan_show.specs.CodelText.{rule_line, time_text};

use rly_core::Params;
use rly_core::limits::{MAX_INTERVAL, MAX_MAXPACKET};
use rly_plan::{NextHop, Plan};
use std::alloc::{AllocError, Global};

/// Microseconds of a second.
const SECOND: u64 = 1_000_000;

/// The lines of what CoDel of a device with these parameters does at each hop of a plan that has contacts, and before
/// them one if the plan has more neighbours than the device (`docs/COMMANDS.md`, "rly plan"). `Err`: out of memory.
pub fn codel_text_of(alloc: Global, plan: &Plan, params: &Params) -> Result<String, AllocError>
    requires { IsWithinLimits params.now }
    ensures { IfOk result (λ text. string_bytes text ≡ codel_text plan.now params.now) }
{
    let mut text = String::new(alloc);
    write_room(&mut text, plan, params)?;
    write_codel(&mut text, plan.hops(), params)?;
    Ok(text)
}

/// The line of a plan that has more neighbours than a device with these parameters: all four numbers. No text if the
/// device has room for it.
pub fn room_text_of(alloc: Global, plan: &Plan, params: &Params) -> Result<String, AllocError>
    ensures { IfOk result (λ text. string_bytes text ≡ room_line plan.now params.now) }
{
    let mut text = String::new(alloc);
    write_room(&mut text, plan, params)?;
    Ok(text)
}

/// The largest backlog in bytes that is there when a contact opens and of which CoDel drops nothing, if the hop is
/// drained at this rate in bytes a second.
#[tactic(auto, unfolding(crate::specs::CodelText::backlog))]
pub fn backlog_of(params: &Params, rate: u32) -> u64
    requires { IsWithinLimits params.now }
    ensures { result ≡ backlog params.now rate }
{
    let microseconds = params.target + params.interval;
    u64::from(rate).saturating_mul(microseconds) / SECOND + params.maxpacket
}

/// Appends the line of a plan that has more neighbours than a device, if it has.
fn write_room(text: &mut String, plan: &Plan, params: &Params) -> Result<(), AllocError>
    ensures { OnOk result (string_bytes text.new ≡ string_bytes text.old ++ room_line plan.now params.now) }
{
    if has_room(plan, params) {
        return Ok(());
    }
    write_lack(text, plan, params)
}

/// Appends all four numbers.
#[tactic(auto, unfolding(crate::specs::CodelText::lack_line))]
fn write_lack(text: &mut String, plan: &Plan, params: &Params) -> Result<(), AllocError>
    ensures { OnOk result (string_bytes text.new ≡ string_bytes text.old ++ lack_line plan.now params.now) }
{
    let (peers, hops) = (plan.peer_count(), plan.hop_count());
    let (most_peers, most_hops) = (params.peers, params.hops);
    writeln!(
        text,
        "rly: plan: {peers} peers and {hops} hops, but the device has --peers {most_peers} and --hops {most_hops}"
    )
}

/// Whether a device has room for the neighbours of a plan.
#[tactic(auto, unfolding(crate::specs::CodelText::has_room))]
fn has_room(plan: &Plan, params: &Params) -> bool
    ensures { result ≡ has_room plan.now params.now }
{
    plan.peer_count() as u64 <= params.peers && plan.hop_count() as u64 <= params.hops
}

/// Appends the lines of the hops.
fn write_codel(text: &mut String, hops: &[NextHop], params: &Params) -> Result<(), AllocError>
    requires { IsWithinLimits params.now }
    ensures { OnOk result (string_bytes text.new ≡ string_bytes text.old ++ hops_codel params.now hops.now) }
{
    let mut number: u64 = 0;
    for hop in hops {
        number += 1;
        write_hop_codel(text, number, hop, params)?;
    }
    Ok(())
}

/// Appends the lines of a hop, if it has contacts.
fn write_hop_codel(
    text: &mut String,
    number: u64,
    hop: &NextHop,
    params: &Params,
) -> Result<(), AllocError>
    requires { IsWithinLimits params.now }
    ensures { OnOk result (string_bytes text.new ≡ string_bytes text.old ++ hop_codel params.now (number, hop.now)) }
{
    if hop.contact_count() == 0 {
        return Ok(());
    }
    write_rule(text, number, hop, params)?;
    write_bytes(text, number, hop.rate, params)
}

/// Appends what CoDel drops of a hop.
fn write_rule(
    text: &mut String,
    number: u64,
    hop: &NextHop,
    params: &Params,
) -> Result<(), AllocError>
    requires { IsWithinLimits params.now }
    ensures { OnOk result (string_bytes text.new ≡ string_bytes text.old ++ rule_line params.now (number, hop.now)) }
{
    write!(
        text,
        "rly: hop {number}: CoDel drops what waited more than "
    )?;
    write_time(text, params.target)?;
    write!(text, " over ")?;
    write_time(text, params.interval)?;
    write!(text, " of open contact")?;
    write_backlog(text, hop.rate, params)?;
    writeln!(text)
}

/// Appends a time, in milliseconds if they are whole.
fn write_time(text: &mut String, time: u64) -> Result<(), AllocError>
    ensures { OnOk result (string_bytes text.new ≡ string_bytes text.old ++ time_text time) }
{
    if time % 1_000 == 0 {
        let milliseconds = time / 1_000;
        return write!(text, "{milliseconds} ms");
    }
    write!(text, "{time} us")
}

/// Appends how large a backlog a hop carries, if its rate is known.
fn write_backlog(text: &mut String, rate: Option<u32>, params: &Params) -> Result<(), AllocError>
    requires { IsWithinLimits params.now }
    ensures { OnOk result (string_bytes text.new ≡ string_bytes text.old ++ backlog_text params.now rate) }
{
    match rate {
        Some(rate) => write_carried(text, backlog_of(params, rate)),
        None => Ok(()),
    }
}

/// Appends the largest backlog of which nothing is dropped.
#[tactic(auto, unfolding(crate::specs::CodelText::carried_text))]
fn write_carried(text: &mut String, most: u64) -> Result<(), AllocError>
    ensures { OnOk result (string_bytes text.new ≡ string_bytes text.old ++ carried_text most) }
{
    write!(text, ": a backlog above {most} bytes is dropped")
}

/// Appends the line of a device that keeps all, and has room for a backlog that it doesn't keep at a hop's rate.
fn write_bytes(
    text: &mut String,
    number: u64,
    rate: Option<u32>,
    params: &Params,
) -> Result<(), AllocError>
    requires { IsWithinLimits params.now }
    ensures { OnOk result (string_bytes text.new ≡ string_bytes text.old ++ bytes_line params.now number rate) }
{
    let Some(rate) = rate else {
        return Ok(());
    };
    if keeps_less(params, rate) {
        return write_kept(text, number, rate, backlog_of(params, rate), params.bytes);
    }
    Ok(())
}

/// Appends how many bytes of its room a device keeps at a hop's rate.
#[tactic(auto, unfolding(crate::specs::CodelText::kept_line))]
fn write_kept(
    text: &mut String,
    number: u64,
    rate: u32,
    most: u64,
    bytes: u64,
) -> Result<(), AllocError>
    ensures { OnOk result (string_bytes text.new ≡ string_bytes text.old ++ kept_line number rate most bytes) }
{
    writeln!(
        text,
        "rly: hop {number}: --keep-all keeps {most} bytes at rate {rate}, but the device has --bytes {bytes}"
    )
}

/// Whether a device keeps all, but has room for more than what it keeps at a hop's rate.
#[tactic(auto, unfolding(crate::specs::CodelText::keeps_less))]
fn keeps_less(params: &Params, rate: u32) -> bool
    requires { IsWithinLimits params.now }
    ensures { result ≡ keeps_less params.now rate }
{
    keeps_all(params) && backlog_of(params, rate) < params.bytes
}

/// Whether the parameters of CoDel are those of `--keep-all`.
fn keeps_all(params: &Params) -> bool
    ensures { result ≡ keeps_all params.now }
{
    params.target == MAX_INTERVAL
        && params.interval == MAX_INTERVAL
        && params.maxpacket == MAX_MAXPACKET
}
