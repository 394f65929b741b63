//! A report from the answers to the Show of each hop and from the counts.

ghost use Rattle.std.specs.Prelude.{◌≡◌, ◌≤◌, ◌++◌, IfOk, OnOk, length, string_bytes};
ghost use Rattle.rly_plan.specs.Sound.{IsSoundPlan};
ghost use Rattle.rly_daemon_report.specs.CountedReport.{hop_if, hop_reports, reported_seq, status_in_reply};
ghost use Rattle.rly_daemon_report.specs.CountedReport.{text_of_answers};

use crate::link_counts::LinkReport;
use crate::report::{DeviceReport, HopReport, PeerReport, Report};
use crate::report_text::text_of;
use rly_core::{HopId, Refusal, limits};
use rly_machine::{Answer, HopStatus, Reply};
use rly_plan::Plan;
use std::alloc::{AllocError, Global};

/// Maximum number of peers of a plan.
const MAX_PEERS: usize = limits::MAX_PEERS as usize;

/// Maximum number of hops of a plan.
const MAX_HOPS: usize = limits::MAX_HOPS as usize;

/// The counts of a station since its start, with a slot for each possible peer and hop.
#[derive(Clone, Copy, PartialEq, Eq)]
pub struct Counted {
    /// Each peer, in the order of their ids.
    pub peers: [PeerReport; MAX_PEERS],
    /// The link of each hop, in the order of their ids.
    pub hops: [LinkReport; MAX_HOPS],
    /// Rounds made.
    pub rounds: u64,
    /// Segments opened.
    pub segments: u64,
}

/// The text of a report at a moment, from the answers to the Show of each hop of the plan, in order, and from the
/// counts.
pub fn text_of_answers(
    alloc: Global,
    plan: &Plan,
    moment: u64,
    answers: &[Answer],
    counted: &Counted,
) -> Result<String, AllocError>
    requires sound { IsSoundPlan plan.now }
    requires each { length answers.now ≡ length plan.now.hops }
    ensures { IfOk result (λ text. string_bytes text ≡ text_of_answers plan.now moment answers.now counted.now) }
{
    let hops = hop_reports(alloc, plan, moment, answers, &counted.hops)?;
    let device = DeviceReport {
        seq: reported_seq(answers),
        rounds: counted.rounds,
        segments: counted.segments,
    };
    let report = Report {
        moment,
        hops: &hops,
        peers: &counted.peers[..plan.peer_count()],
        device,
    };
    text_of(alloc, &report)
}

/// The number of commands ever accepted, from the first answer.
fn reported_seq(answers: &[Answer]) -> u64
    ensures { result ≡ reported_seq answers.now }
{
    match answers.first() {
        Some(answer) => answer.position,
        None => 0,
    }
}

/// The report of each hop whose Show was answered, in order.
fn hop_reports(
    alloc: Global,
    plan: &Plan,
    moment: u64,
    answers: &[Answer],
    links: &[LinkReport; MAX_HOPS],
) -> Result<Vec<HopReport>, AllocError>
    requires { length answers.now ≤ 64 }
    ensures { IfOk result (λ hops. hops.items ≡ hop_reports plan.now moment links.now answers.now) }
{
    let mut hops = Vec::new(alloc);
    for index in 0..answers.len() {
        let hop = HopId(index as u16 + 1);
        let reply = &answers[index].reply;
        add_hop(&mut hops, plan, hop, moment, reply, links[index])?;
    }
    Ok(hops)
}

/// Adds the report of a hop, if this is the reply to its Show.
fn add_hop(
    hops: &mut Vec<HopReport>,
    plan: &Plan,
    hop: HopId,
    moment: u64,
    reply: &Reply,
    link: LinkReport,
) -> Result<(), AllocError>
    ensures { OnOk result
        (hops.new.items ≡ hops.old.items ++ hop_if plan.now moment link hop.0 (status_in_reply reply.now)) }
{
    if let Some(answer) = status_in_reply(reply) {
        hops.push(HopReport::at(plan, hop, moment, answer, link))?;
    }
    Ok(())
}

/// The numbers or the refusal in a reply, if it is one to a Show.
fn status_in_reply(reply: &Reply) -> Option<Result<HopStatus, Refusal>>
    ensures { result ≡ status_in_reply reply.now }
{
    match reply {
        Reply::Shown(status) => Some(Ok(*status)),
        Reply::Refused(refusal) => Some(Err(*refusal)),
        _ => None,
    }
}
