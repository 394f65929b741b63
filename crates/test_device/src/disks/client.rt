//! A client of the trait.
ghost use Rattle.std.specs.Prelude.{◌≤◌, ◌+◌, ◌∷◌, [], Bool, List, is_ok, length, ℕ};
ghost use Rattle.rly_disk.specs.DiskModel.{LeavesOnly, Settled};
ghost use Rattle.rly_disk.specs.Trace.{Makes, Sync, Write};
ghost use Rattle.test_device.specs.TwoRanges.{SameOutsideBoth};

use rly_disk::{Disk, DiskFault};

/// Writes both, and makes them durable.
pub fn write_both<D: Disk>(
    disk: &mut D,
    place: u64,
    first: &[u8],
    other: u64,
    second: &[u8],
) -> Result<(), DiskFault>
    requires first_fits { place + length first.now ≤ (D.state disk.old).size }
    requires second_fits { other + length second.now ≤ (D.state disk.old).size }
    ensures { Makes D.state (Write place first.now ∷ Write other second.now ∷ Sync ∷ [])
        (is_ok result) disk.old disk.new }
{
    disk.write_at(place, first)?;
    disk.write_at(other, second)?;
    disk.sync()
}

/// A crash at any moment of both leaves the old bytes outside both ranges.
pub fn law_both<D: Disk>(old: &D, new: &D)
    ensures { (place other : ℕ) (first second : List ℕ) (whole : Bool) → Settled (D.state old.now)
        → place + length first ≤ (D.state old.now).size → other + length second ≤ (D.state old.now).size
        → Makes D.state (Write place first ∷ Write other second ∷ Sync ∷ []) whole old.now new.now
        → LeavesOnly (D.state old.now) (D.state new.now)
        (SameOutsideBoth place (length first) other (length second) (D.state old.now).seen) }
{}
