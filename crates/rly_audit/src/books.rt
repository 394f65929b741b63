ghost use Rattle.std.specs.Prelude.{◌≡◌, ◌++◌, IfOk, OnOk, false, map, string_bytes, sum, sum_by};
ghost use Rattle.std.specs.List.{list_all};
ghost use Rattle.rly_machine.specs.Query.{status_of};
ghost use Rattle.rly_audit.specs.Report.{hop_balances, hop_line, hop_lines, peer_line, peer_lines};

use rly_core::{HopId, PeerId};
use rly_daemon_reply::{Expired, HopCounts};
use rly_disk::Disk;
use rly_journal::Journal;
use rly_machine::{HopStatus, Reply};
use std::alloc::{AllocError, Global};
use std::fmt;
use std::marker::Model;

/// The numbers that a report prints of a spool.
#[derive(Drop)]
pub(crate) struct Books {
    hops: Vec<HopStatus>,
    lasts: Vec<u64>,
    seq: u64,
}

impl Model for Books {
    ghost use Rattle.rly_audit.specs.Report.{BooksState};

    ghost Value = { BooksState };

    ghost view = { λ b. record { hops = b.hops.items; lasts = b.lasts.items; seq = b.seq } };
}

impl Books {
    ghost use Rattle.std.specs.Prelude.{◌≡◌, ◌++◌, IfOk, OnOk, false, string_bytes};
    ghost use Rattle.rly_audit.specs.Report.{balances, books_of, report_text};

    /// The numbers of an opened journal's state.
    pub(crate) fn of<D: Disk>(alloc: Global, journal: &Journal<D>) -> Result<Books, AllocError>
        requires whole { journal.now.broken ≡ false }
        requires counted { journal.now.position ≡ journal.now.state.seq }
        ensures { IfOk result (λ books. books ≡ books_of journal.now.state) }
    {
        let hops = statuses_of(alloc, journal)?;
        let lasts = lasts_of(alloc, journal)?;
        Ok(Books {
            hops,
            lasts,
            seq: journal.position(),
        })
    }

    /// Appends the report to a text.
    pub(crate) fn write(&self, text: &mut String) -> Result<(), AllocError>
        ensures { OnOk result (string_bytes text.new ≡ string_bytes text.old ++ report_text self.now) }
    {
        write_hops(text, &self.hops)?;
        write_peers(text, &self.lasts)?;
        let seq = self.seq;
        writeln!(text, "seq {seq}")?;
        if self.balances() {
            writeln!(text, "balance ok")?;
        }
        Ok(())
    }

    /// Whether the books balance, by these numbers.
    #[tactic(auto, unfolding(crate::specs::Report::balances))]
    fn balances(&self) -> bool
        ensures { result ≡ balances self.now }
    {
        each_hop_balances(&self.hops) && total(&self.lasts) == total_taken(&self.hops)
    }
}

/// All numbers of each hop.
fn statuses_of<D: Disk>(alloc: Global, journal: &Journal<D>) -> Result<Vec<HopStatus>, AllocError>
    requires { journal.now.broken ≡ false }
    ensures { IfOk result (λ statuses. statuses.items ≡ map status_of journal.now.state.hops) }
{
    journal.law_sound();
    let mut statuses = Vec::new(alloc);
    for index in 0..journal.params().hops as u16 {
        let Reply::Shown(status) = journal.ask_show(HopId(index + 1)) else {
            unreachable!()
        };
        statuses.push(status)?;
    }
    Ok(statuses)
}

/// The last number taken from each peer.
fn lasts_of<D: Disk>(alloc: Global, journal: &Journal<D>) -> Result<Vec<u64>, AllocError>
    requires { journal.now.broken ≡ false }
    ensures { IfOk result (λ lasts. lasts.items ≡ journal.now.state.lasts) }
{
    journal.law_sound();
    let mut lasts = Vec::new(alloc);
    for index in 0..journal.params().peers as u16 {
        let last = journal.last(PeerId(index + 1)).unwrap();
        lasts.push(last)?;
    }
    Ok(lasts)
}

/// Appends the hops' lines.
fn write_hops(text: &mut String, hops: &[HopStatus]) -> Result<(), AllocError>
    ensures { OnOk result (string_bytes text.new ≡ string_bytes text.old ++ hop_lines hops.now) }
{
    let mut number: u64 = 0;
    for status in hops {
        number += 1;
        write_hop(text, number, status)?;
    }
    Ok(())
}

/// Appends a hop's line.
fn write_hop(text: &mut String, number: u64, status: &HopStatus) -> Result<(), AllocError>
    ensures { OnOk result (string_bytes text.new ≡ string_bytes text.old ++ hop_line (number, status.now)) }
{
    let (counts, count) = (HopCounts { status }, status.expired);
    let expired = Expired { count };
    writeln!(text, "hop {number}{counts}{expired}")?;
    Ok(())
}

/// Appends the peers' lines.
fn write_peers(text: &mut String, lasts: &[u64]) -> Result<(), AllocError>
    ensures { OnOk result (string_bytes text.new ≡ string_bytes text.old ++ peer_lines lasts.now) }
{
    let mut number: u64 = 0;
    for last in lasts {
        number += 1;
        write_peer(text, number, *last)?;
    }
    Ok(())
}

/// Appends a peer's line.
fn write_peer(text: &mut String, number: u64, last: u64) -> Result<(), AllocError>
    ensures { OnOk result (string_bytes text.new ≡ string_bytes text.old ++ peer_line (number, last)) }
{
    writeln!(text, "peer {number} last {last}")?;
    Ok(())
}

/// Whether each hop's books balance: it stored as many as wait, are in flight, were dropped, expired or were
/// released.
fn each_hop_balances(hops: &[HopStatus]) -> bool
    ensures { result ≡ list_all hop_balances hops.now }
{
    hops.iter().all(hop_is_balanced)
}

/// Whether a hop's books balance.
fn hop_is_balanced(status: &HopStatus) -> bool
    ensures { result ≡ hop_balances status.now }
{
    let accounted = u128::from(status.queued)
        + u128::from(status.flight)
        + u128::from(status.dropped)
        + u128::from(status.expired)
        + u128::from(status.released);
    u128::from(status.taken) == accounted
}

/// The number of datagrams stored for all hops.
fn total_taken(hops: &[HopStatus]) -> u128
    ensures { result ≡ sum_by (λ h. h.taken) hops.now }
{
    let mut total = 0;
    for status in hops {
        total += u128::from(status.taken);
    }
    total
}

/// The sum of numbers.
fn total(numbers: &[u64]) -> u128
    ensures { result ≡ sum numbers.now }
{
    let mut total = 0;
    for number in numbers {
        total += u128::from(*number);
    }
    total
}
