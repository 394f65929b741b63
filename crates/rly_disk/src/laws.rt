//! The effects of a list of calls, from its events: laws, functions with an empty body.

ghost use Rattle.std.specs.Prelude.{◌≡◌, ◌≤◌, ◌+◌, ◌++◌, ◌∷◌, [], ℕ, Bool, true, List, length};
ghost use Rattle.rly_disk.specs.DiskModel.{LeavesOnly, SameOutside, Settled};
ghost use Rattle.rly_disk.specs.Trace.{DeviceEvent, IsCut, Makes, Sync, WritesWithin, count_of, is_failed_call};
ghost use Rattle.rly_disk.specs.Trace.{is_sync_call};

use crate::Disk;

/// At most one call of a list failed: it was the last one, and wasn't retried.
pub fn law_one_failure()
    ensures { (calls events : List DeviceEvent) (spent : Bool) → count_of is_failed_call calls ≡ 0
        → IsCut spent calls events
        → count_of is_failed_call events ≤ 1 }
{}

/// If all calls of a list were made, the disk's counters rose by these calls and by no others.
pub fn law_counts<D: Disk>(old: &D, new: &D)
    ensures { (calls : List DeviceEvent) → Makes D.state calls true old.now new.now
        → ((D.state new.now).calls ≡ (D.state old.now).calls + length calls)
        × ((D.state new.now).syncs ≡ (D.state old.now).syncs + count_of is_sync_call calls)
        × ((D.state new.now).failures ≡ (D.state old.now).failures + count_of is_failed_call calls) }
{}

/// If all calls of a list that ends with a sync were made, no write is pending, whatever was pending before.
pub fn law_settles<D: Disk>(old: &D, new: &D)
    ensures { (calls : List DeviceEvent) → Makes D.state (calls ++ Sync ∷ []) true old.now new.now
        → (D.state old.now).honest
        → Settled (D.state new.now) }
{}

/// If all writes of a list of calls lie in a range, a crash at any moment of it leaves all bytes outside that range
/// unchanged.
pub fn law_range<D: Disk>(old: &D, new: &D)
    ensures { (calls : List DeviceEvent) (whole : Bool) (place n : ℕ) → Makes D.state calls whole old.now new.now
        → WritesWithin place n calls → place + n ≤ (D.state old.now).size → Settled (D.state old.now)
        → LeavesOnly (D.state old.now) (D.state new.now) (SameOutside place n (D.state old.now).seen) }
{}

/// If no call was made, the disk is unchanged.
pub fn law_untouched<D: Disk>(old: &D, new: &D)
    ensures { Makes D.state [] true old.now new.now → new.now ≡ old.now }
{}
