//! Laws of lists of calls that are tried in turn: functions with an empty body whose contract is
//! the law.

ghost use Rattle.std.specs.Prelude.{◌≡◌, ◌↔◌, ◌+◌, ◌≤◌, ◌++◌, ◌∷◌, [], Bool, false, List};
ghost use Rattle.rly_disk.specs.DiskModel.{Later, NothingNew, Settled, SettlesNothing};
ghost use Rattle.rly_disk.specs.Trace.{DeviceEvent, Makes, is_spent};
ghost use Rattle.rly_disk.specs.Trials.{AreReads, Tries, Try, failed_rows, row_of};

use crate::disk::Disk;

/// A list of calls that was made, all or up to the first failure, is one try.
pub fn law_row<D: Disk>(old: &D, new: &D)
    ensures { (calls : List DeviceEvent) (whole : Bool)
        → Makes D.state calls whole old.now new.now ↔ Tries D.state (row_of calls whole ∷ []) old.now new.now }
{}

/// Tries after tries are tries, whether or not the earlier ones failed. An empty list of tries leaves the disk
/// unchanged, and conversely.
pub fn law_joined_tries<D: Disk>(first: &D, second: &D, third: &D)
    ensures joined { (rows more : List Try) → Tries D.state rows first.now second.now
        → Tries D.state more second.now third.now
        → Tries D.state (rows ++ more) first.now third.now }
    ensures none { Tries D.state [] first.now second.now ↔ second.now ≡ first.now }
{}

/// The invariants of tries on any disk.
pub fn law_tried<D: Disk>(old: &D, new: &D)
    ensures { (rows : List Try) → Tries D.state rows old.now new.now → Later (D.state old.now) (D.state new.now) }
{}

/// Tries of reads write nothing and sync nothing: an honest disk reads as before, and has the same crash images.
pub fn law_tried_reads<D: Disk>(old: &D, new: &D)
    ensures new { (rows : List Try) → Tries D.state rows old.now new.now → AreReads rows → (D.state old.now).honest
        → NothingNew (D.state old.now) (D.state new.now) × SettlesNothing (D.state old.now) (D.state new.now) }
    ensures settled { (rows : List Try) → Tries D.state rows old.now new.now → AreReads rows
        → Settled (D.state old.now) → Settled (D.state new.now) }
    ensures syncs { (rows : List Try) → Tries D.state rows old.now new.now → AreReads rows
        → (D.state new.now).syncs ≡ (D.state old.now).syncs }
{}

/// In each failed list of reads one read failed, which the disk counts unless its counters have their maximum value. So
/// the number of replies 13 is the number of failed reads.
pub fn law_failed_tries<D: Disk>(old: &D, new: &D)
    ensures most { (rows : List Try) → Tries D.state rows old.now new.now → AreReads rows
        → (D.state new.now).failed_reads ≤ (D.state old.now).failed_reads + failed_rows rows }
    ensures counted { (rows : List Try) → Tries D.state rows old.now new.now → AreReads rows
        → is_spent (D.state new.now) ≡ false
        → (D.state new.now).failed_reads ≡ (D.state old.now).failed_reads + failed_rows rows }
    ensures failures { (rows : List Try) → Tries D.state rows old.now new.now → AreReads rows
        → is_spent (D.state new.now) ≡ false
        → (D.state new.now).failures ≡ (D.state old.now).failures + failed_rows rows }
{}
