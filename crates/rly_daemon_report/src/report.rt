use crate::link_counts::LinkReport;
use rly_core::{HopId, PeerId, Refusal};
use rly_machine::HopStatus;
use rly_plan::Plan;

/// A hop in a report.
#[derive(Clone, Copy, PartialEq, Eq)]
pub struct HopReport {
    /// Its id.
    pub hop: HopId,
    /// All its numbers, or the refusal of its Show.
    pub answer: Result<HopStatus, Refusal>,
    /// Whether its contact is open.
    pub is_open: bool,
    /// The moment at which its contact next opens or closes, in microseconds since the Unix epoch, if it does.
    pub change: Option<u64>,
    /// Its link.
    pub link: LinkReport,
}

impl HopReport {
    ghost use Rattle.std.specs.Prelude.{◌≡◌};
    ghost use Rattle.rly_daemon_report.specs.Hops.{hop_report};

    /// The report of a hop of a plan at a moment, with the answer to its Show, and its link.
    pub fn at(
        plan: &Plan,
        hop: HopId,
        moment: u64,
        answer: Result<HopStatus, Refusal>,
        link: LinkReport,
    ) -> HopReport
        ensures { result ≡ hop_report plan.now hop moment answer link }
    {
        HopReport {
            hop,
            answer,
            is_open: plan.is_open(hop, moment),
            change: plan.next_change(hop, moment),
            link,
        }
    }
}

/// A peer in a report.
#[derive(Clone, Copy, PartialEq, Eq)]
pub struct PeerReport {
    /// Its id.
    pub peer: PeerId,
    /// Its link.
    pub link: LinkReport,
}

/// The device in a report.
#[derive(Clone, Copy, PartialEq, Eq)]
pub struct DeviceReport {
    /// The number of commands ever accepted.
    pub seq: u64,
    /// The number of rounds since the start.
    pub rounds: u64,
    /// The number of segments opened since the start.
    pub segments: u64,
}

/// A report at a moment.
#[derive(Drop)]
pub struct Report<'a> {
    /// The moment, in microseconds since the Unix epoch.
    pub moment: u64,
    /// The hops.
    pub hops: &'a [HopReport],
    /// The peers.
    pub peers: &'a [PeerReport],
    /// The device.
    pub device: DeviceReport,
}
