// The call counters of a folder.
ghost use Rattle.std.specs.Prelude.{◌≡◌, ◌≤◌, ◌<◌, ◌+◌, ◌-◌, ◌^◌, ◌↔◌, IsTrue, if◌then◌else◌};

/// The number of calls of a folder, and of these the failed ones and the syncs. A folder counts each of its calls here,
/// and makes none if `is_spent`.
#[derive(Clone, Copy, Debug)]
pub struct Counts {
    pub calls: u64,
    pub failures: u64,
    pub syncs: u64,
    ghost failures_are_calls: { failures ≤ calls },
    ghost syncs_are_calls: { syncs ≤ calls },
}

impl Counts {
    /// Makes counters that are all zero.
    pub fn new() -> Self
        ensures calls { result.calls ≡ 0 }
        ensures failures { result.failures ≡ 0 }
        ensures syncs { result.syncs ≡ 0 }
    {
        Counts {
            calls: 0,
            failures: 0,
            syncs: 0,
        }
    }

    /// Returns true iff the number of calls has its maximum value.
    pub fn is_spent(&self) -> bool
        ensures { IsTrue result ↔ (2 ^ 64 - 1 ≤ self.now.calls) }
    {
        self.calls == u64::MAX
    }

    /// Counts a call, whether it is a sync, and whether it failed.
    pub fn count(&mut self, sync: bool, failed: bool)
        requires { self.old.calls < 2 ^ 64 - 1 }
        ensures calls { self.new.calls ≡ self.old.calls + 1 }
        ensures failures { self.new.failures ≡ self.old.failures + (if failed then 1 else 0) }
        ensures syncs { self.new.syncs ≡ self.old.syncs + (if sync then 1 else 0) }
    {
        *self = Counts {
            calls: self.calls + 1,
            failures: self.failures + u64::from(failed),
            syncs: self.syncs + u64::from(sync),
        };
    }
}
