ghost use Rattle.std.specs.Prelude.{◌≡◌, ◌++◌, IfOk, OnOk, string_bytes};
ghost use Rattle.rly_daemon_report.specs.ReportText.{answer_text, device_line, hop_line, hops_text, last_text};
ghost use Rattle.rly_daemon_report.specs.ReportText.{moment_line, peer_line, peers_text, repeats_text, state_text};
ghost use Rattle.rly_daemon_report.specs.ReportText.{text_for_report, until_text};

use crate::link_counts::LinkReport;
use crate::report::{DeviceReport, HopReport, PeerReport, Report};
use rly_daemon_reply::StatusLine;
use std::alloc::{AllocError, Global};
use std::fmt;

/// The text of a report. `Err`: out of memory.
pub fn text_of(alloc: Global, report: &Report<'_>) -> Result<String, AllocError>
    ensures { IfOk result
        (λ text. string_bytes text
        ≡ text_for_report report.now.moment report.now.hops.now report.now.peers.now report.now.device) }
{
    let mut text = String::new(alloc);
    write_moment(&mut text, report.moment)?;
    write_hops(&mut text, report.moment, report.hops)?;
    write_peers(&mut text, report.moment, report.peers)?;
    write_device(&mut text, report.device)?;
    Ok(text)
}

/// Appends the moment.
fn write_moment(text: &mut String, moment: u64) -> Result<(), AllocError>
    ensures { OnOk result (string_bytes text.new ≡ string_bytes text.old ++ moment_line moment) }
{
    writeln!(text, "report {moment}")?;
    Ok(())
}

/// Appends the hops' lines, at the report's moment.
fn write_hops(text: &mut String, moment: u64, hops: &[HopReport]) -> Result<(), AllocError>
    ensures { OnOk result (string_bytes text.new ≡ string_bytes text.old ++ hops_text moment hops.now) }
{
    for hop in hops {
        write_hop(text, moment, hop)?;
    }
    Ok(())
}

/// Appends a hop's line.
fn write_hop(text: &mut String, moment: u64, hop: &HopReport) -> Result<(), AllocError>
    ensures { OnOk result (string_bytes text.new ≡ string_bytes text.old ++ hop_line moment hop.now) }
{
    write_answer(text, hop)?;
    let state = state_text(hop.is_open);
    write!(text, " contact {state}")?;
    write_until(text, hop.change)?;
    let link = &hop.link;
    let wrong = link.wrong;
    write!(text, " wrong {wrong}{}", Packets { link })?;
    write_repeats(text, link)?;
    write_last(text, moment, link.last)?;
    writeln!(text)?;
    Ok(())
}

/// Appends a hop's numbers, or the refusal of its Show.
fn write_answer(text: &mut String, hop: &HopReport) -> Result<(), AllocError>
    ensures { OnOk result (string_bytes text.new ≡ string_bytes text.old ++ answer_text hop.now.hop hop.now.answer) }
{
    match &hop.answer {
        Ok(status) => {
            let hop = hop.hop;
            write!(text, "{}", StatusLine { hop, status })
        }
        Err(refusal) => {
            let hop = hop.hop.0;
            write!(text, "hop {hop} {refusal}")
        }
    }
}

/// The name of a contact's state.
fn state_text(is_open: bool) -> &'static str
    ensures { result.now ≡ state_text is_open }
{
    if is_open { "open" } else { "closed" }
}

/// Appends the moment at which a contact changes, if it does.
fn write_until(text: &mut String, change: Option<u64>) -> Result<(), AllocError>
    ensures { OnOk result (string_bytes text.new ≡ string_bytes text.old ++ until_text change) }
{
    if let Some(moment) = change {
        write!(text, " until {moment}")?;
    }
    Ok(())
}

/// Appends the peers' lines, at the report's moment.
fn write_peers(text: &mut String, moment: u64, peers: &[PeerReport]) -> Result<(), AllocError>
    ensures { OnOk result (string_bytes text.new ≡ string_bytes text.old ++ peers_text moment peers.now) }
{
    for peer in peers {
        write_peer(text, moment, peer)?;
    }
    Ok(())
}

/// Appends a peer's line.
fn write_peer(text: &mut String, moment: u64, peer: &PeerReport) -> Result<(), AllocError>
    ensures { OnOk result (string_bytes text.new ≡ string_bytes text.old ++ peer_line moment peer.now) }
{
    let (id, link) = (peer.peer.0, &peer.link);
    let wrong = link.wrong;
    write!(text, "peer {id}{} wrong {wrong}", Packets { link })?;
    write_repeats(text, link)?;
    write_last(text, moment, link.last)?;
    writeln!(text)?;
    Ok(())
}

/// The packets of a link. It displays as their counts, each after its name.
#[derive(Drop)]
struct Packets<'a> {
    link: &'a LinkReport,
}

impl fmt::Display for Packets<'_> {
    ghost use Rattle.std.specs.Prelude.{Some};
    ghost use Rattle.rly_daemon_report.specs.ReportText.{packets_text};

    ghost output = { λ packets. Some (packets_text packets.link.now) };

    #[tactic(auto, unfolding(crate::specs::ReportText::packets_text))]
    fn fmt<W: fmt::Write>(&self, f: &mut fmt::Formatter<W>) -> fmt::Result {
        let LinkReport {
            heard,
            custody,
            refused,
            malformed,
            ..
        } = *self.link;
        write!(f, " heard {heard} custody {custody} refused {refused}")?;
        write!(f, " malformed {malformed}")
    }
}

/// Appends the repeats and the Heards of a link.
fn write_repeats(text: &mut String, link: &LinkReport) -> Result<(), AllocError>
    ensures { OnOk result (string_bytes text.new ≡ string_bytes text.old ++ repeats_text link.now) }
{
    let (repeats, heards) = (link.repeats, link.heards);
    write!(text, " repeats {repeats} heards {heards}")?;
    Ok(())
}

/// Appends the whole seconds since a neighbour was last received from, if it was.
fn write_last(text: &mut String, moment: u64, last: Option<u64>) -> Result<(), AllocError>
    ensures { OnOk result (string_bytes text.new ≡ string_bytes text.old ++ last_text moment last) }
{
    if let Some(heard) = last {
        let seconds = moment.saturating_sub(heard) / 1_000_000;
        write!(text, " last {seconds}")?;
    }
    Ok(())
}

/// Appends the device's line.
fn write_device(text: &mut String, device: DeviceReport) -> Result<(), AllocError>
    ensures { OnOk result (string_bytes text.new ≡ string_bytes text.old ++ device_line device) }
{
    let DeviceReport {
        seq,
        rounds,
        segments,
    } = device;
    writeln!(text, "device seq {seq} rounds {rounds} segments {segments}")?;
    Ok(())
}
