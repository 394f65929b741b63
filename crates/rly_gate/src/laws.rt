//! The effect of a crash on the calls that append a group, as a law: a function with an empty
//! body.

ghost use Rattle.std.specs.Prelude.{◌+◌, ◌≤◌, Bool, List, length, ℕ};
ghost use Rattle.rly_disk.specs.DiskModel.{LeavesOnly, Settled};
ghost use Rattle.rly_disk.specs.Trace.{Makes};
ghost use Rattle.rly_gate.specs.Calls.{append_calls};
ghost use Rattle.rly_gate.specs.Group.{IsAppended, IsClosed};

use rly_disk::Disk;

/// A crash at any moment of an append leaves its gate closed, or the whole group with a closed gate after it; all other
/// bytes are unchanged.
pub fn law_append<D: Disk>(old: &D, new: &D)
    ensures { (at : ℕ) (body : List ℕ) (whole : Bool) → Makes D.state (append_calls at body) whole old.now new.now
        → Settled (D.state old.now) → IsClosed (D.state old.now).seen at → at + 6 + length body ≤ (D.state old.now).size
        → LeavesOnly (D.state old.now) (D.state new.now) (IsAppended at body (D.state old.now).seen) }
{}
