// The call counters of a disk.
ghost use Rattle.std.specs.Prelude.{◌≡◌, ◌≤◌, ◌<◌, ◌+◌, ◌-◌, ◌^◌, ◌↔◌, IsTrue, if◌then◌else◌};

/// The number of calls of a disk, and of these the failed ones, the syncs, and the failed reads. A disk counts each of
/// its calls here, and makes none if `is_spent`.
#[derive(Clone, Copy, Debug)]
pub struct Counts {
    pub calls: u64,
    pub failures: u64,
    pub syncs: u64,
    pub failed_reads: u64,
    ghost failures_are_calls: { failures ≤ calls },
    ghost syncs_are_calls: { syncs ≤ calls },
    ghost failed_reads_are_failures: { failed_reads ≤ failures },
}

impl Counts {
    /// Makes counters that are all zero.
    pub fn new() -> Self
        ensures calls { result.calls ≡ 0 }
        ensures failures { result.failures ≡ 0 }
        ensures syncs { result.syncs ≡ 0 }
        ensures failed_reads { result.failed_reads ≡ 0 }
    {
        Counts {
            calls: 0,
            failures: 0,
            syncs: 0,
            failed_reads: 0,
        }
    }

    /// Returns true iff the number of calls has its maximum value.
    pub fn is_spent(&self) -> bool
        ensures { IsTrue result ↔ (2 ^ 64 - 1 ≤ self.now.calls) }
    {
        self.calls == u64::MAX
    }

    pub fn count_read(&mut self, failed: bool)
        requires { self.old.calls < 2 ^ 64 - 1 }
        ensures calls { self.new.calls ≡ self.old.calls + 1 }
        ensures failures { self.new.failures ≡ self.old.failures + (if failed then 1 else 0) }
        ensures syncs { self.new.syncs ≡ self.old.syncs }
        ensures failed_reads { self.new.failed_reads ≡ self.old.failed_reads + (if failed then 1 else 0) }
    {
        let more = u64::from(failed);
        *self = Counts {
            calls: self.calls + 1,
            failures: self.failures + more,
            syncs: self.syncs,
            failed_reads: self.failed_reads + more,
        };
    }

    pub fn count_write(&mut self, failed: bool)
        requires { self.old.calls < 2 ^ 64 - 1 }
        ensures calls { self.new.calls ≡ self.old.calls + 1 }
        ensures failures { self.new.failures ≡ self.old.failures + (if failed then 1 else 0) }
        ensures syncs { self.new.syncs ≡ self.old.syncs }
        ensures failed_reads { self.new.failed_reads ≡ self.old.failed_reads }
    {
        *self = Counts {
            calls: self.calls + 1,
            failures: self.failures + u64::from(failed),
            syncs: self.syncs,
            failed_reads: self.failed_reads,
        };
    }

    pub fn count_sync(&mut self, failed: bool)
        requires { self.old.calls < 2 ^ 64 - 1 }
        ensures calls { self.new.calls ≡ self.old.calls + 1 }
        ensures failures { self.new.failures ≡ self.old.failures + (if failed then 1 else 0) }
        ensures syncs { self.new.syncs ≡ self.old.syncs + 1 }
        ensures failed_reads { self.new.failed_reads ≡ self.old.failed_reads }
    {
        *self = Counts {
            calls: self.calls + 1,
            failures: self.failures + u64::from(failed),
            syncs: self.syncs + 1,
            failed_reads: self.failed_reads,
        };
    }
}
