// A folder that fails at a chosen call.
ghost use Rattle.std.specs.Prelude.{◌≡◌, ◌<◌, ◌+◌, ◌-◌, ◌^◌, false, IfOk, IsErr, IsTrue, is_ok, option_map};
ghost use Rattle.rly_folder.specs.FolderModel.{IsListing, IsSpent, as_file, file_with, front_of};
ghost use Rattle.rly_folder.specs.FolderCalls.{Link, ListNames, Makes, ReadFile, Remove, Rename, Sync, WriteHidden};
ghost use Rattle.rly_folder.specs.FolderCalls.{Outcome, outcome_if, outcome_of};

use crate::{Area, Counts, Folder, FolderFault, FolderFile, Name};

/// The behaviour of a folder after the call chosen to fail.
#[derive(Clone, Copy, PartialEq, Eq, Drop)]
pub enum After {
    GoesOn,
    Stops,
}

/// A folder that fails at a chosen call, and passes all other calls to the folder inside.
#[derive(Drop)]
pub struct FaultFolder<F> {
    inner: F,
    at: u64,
    made: bool,
    after: After,
    counts: Counts,
}

impl<F: Folder> FaultFolder<F> {
    ghost use Rattle.rly_folder.specs.FaultFolder.{inner_of, fault_plan, fault_state, fails_next};

    /// Makes a folder whose call number `at`, counted from 1, fails; with 0 none does. With `After::Stops` each later
    /// call fails too. A failing `link`, `rename` or `remove` is made nevertheless if `made`; any other failing call
    /// does nothing. The counters begin at 0.
    pub fn new(inner: F, at: u64, made: bool, after: After) -> Self
        ensures inner { inner_of result ≡ inner }
        ensures plan { fault_plan result ≡ (at, made, after) }
        ensures calls { (fault_state F.state result).calls ≡ 0 }
    {
        FaultFolder {
            inner,
            at,
            made,
            after,
            counts: Counts::new(),
        }
    }

    /// Returns the folder inside.
    pub fn into_inner(self) -> F
        ensures { result ≡ inner_of self }
    {
        let FaultFolder {
            inner,
            at: _,
            made: _,
            after: _,
            counts: _,
        } = self;
        inner
    }

    // Returns true iff the next call was chosen to fail.
    fn fails_next(&self) -> bool
        requires { self.now.counts.calls < 2 ^ 64 - 1 }
        ensures { result ≡ fails_next self.now }
    {
        let number = self.counts.calls + 1;
        match self.after {
            After::GoesOn => number == self.at,
            After::Stops => self.at != 0 && number >= self.at,
        }
    }
}

impl<F: Folder> Folder for FaultFolder<F> {
    ghost use Rattle.rly_folder.specs.FaultFolder.{inner_of, fault_plan, fault_state, fails_next, makes_failing};
    ghost use Rattle.rly_folder.specs.HelpersFault.{fault_calls_lead, fault_consistent};

    ghost state = { fault_state F.state };

    ghost consistent = { λ folder honest. fault_consistent F.state folder (F.consistent folder.inner honest) };

    ghost calls_lead = { λ folder. fault_calls_lead folder };

    fn list(&mut self, area: Area) -> Result<Vec<u64>, FolderFault>
        ensures names { (fault_state F.state self.old).honest
            → IfOk result (λ numbers. IsListing area (fault_state F.state self.new).seen.files numbers.items) }
        ensures trace { Makes (fault_state F.state) (ListNames area) (outcome_if (is_ok result)) self.old self.new }
        // The chosen call fails and does nothing; any other is made once on the folder inside, with the same result.
        ensures chosen { IsTrue (fails_next self.old) → IsErr result }
        ensures passed { fails_next self.old ≡ false → ¬ IsSpent (fault_state F.state self.old)
            → Makes F.state (ListNames area) (outcome_if (is_ok result)) (inner_of self.old) (inner_of self.new) }
        ensures nothing_done { IsTrue (fails_next self.old) → inner_of self.new ≡ inner_of self.old }
        ensures plan { fault_plan self.new ≡ fault_plan self.old }
    {
        if self.counts.is_spent() {
            return Err(FolderFault);
        }
        if self.fails_next() {
            self.counts.count(false, true);
            return Err(FolderFault);
        }
        let outcome = self.inner.list(area);
        self.counts.count(false, outcome.is_err());
        outcome
    }

    fn read(&mut self, name: Name, most: usize) -> Result<Option<FolderFile>, FolderFault>
        ensures file { (fault_state F.state self.old).honest
            → IfOk result (λ found. option_map as_file found
            ≡ option_map (front_of most) ((fault_state F.state self.new).seen.files name)) }
        ensures trace { Makes (fault_state F.state) (ReadFile name) (outcome_if (is_ok result)) self.old self.new }
        // The chosen call fails and does nothing; any other is made once on the folder inside, with the same result.
        ensures chosen { IsTrue (fails_next self.old) → IsErr result }
        ensures passed { fails_next self.old ≡ false → ¬ IsSpent (fault_state F.state self.old)
            → Makes F.state (ReadFile name) (outcome_if (is_ok result)) (inner_of self.old) (inner_of self.new) }
        ensures nothing_done { IsTrue (fails_next self.old) → inner_of self.new ≡ inner_of self.old }
        ensures plan { fault_plan self.new ≡ fault_plan self.old }
    {
        if self.counts.is_spent() {
            return Err(FolderFault);
        }
        if self.fails_next() {
            self.counts.count(false, true);
            return Err(FolderFault);
        }
        let outcome = self.inner.read(name, most);
        self.counts.count(false, outcome.is_err());
        outcome
    }

    fn write(&mut self, bytes: &[u8], limit: u64) -> Result<(), FolderFault>
        requires { limit < 2 ^ 40 }
        ensures trace { Makes (fault_state F.state) (WriteHidden (file_with bytes.now limit))
            (outcome_if (is_ok result)) self.old self.new }
        // The chosen call fails and does nothing; any other is made once on the folder inside, with the same result.
        ensures chosen { IsTrue (fails_next self.old) → IsErr result }
        ensures passed { fails_next self.old ≡ false → ¬ IsSpent (fault_state F.state self.old)
            → Makes F.state (WriteHidden (file_with bytes.now limit)) (outcome_if (is_ok result))
            (inner_of self.old) (inner_of self.new) }
        ensures nothing_done { IsTrue (fails_next self.old) → inner_of self.new ≡ inner_of self.old }
        ensures plan { fault_plan self.new ≡ fault_plan self.old }
    {
        if self.counts.is_spent() {
            return Err(FolderFault);
        }
        if self.fails_next() {
            self.counts.count(false, true);
            return Err(FolderFault);
        }
        let outcome = self.inner.write(bytes, limit);
        self.counts.count(false, outcome.is_err());
        outcome
    }

    fn link(&mut self, to: Name) -> Result<bool, FolderFault>
        ensures trace { Makes (fault_state F.state) (Link to) (outcome_of result) self.old self.new }
        // The chosen call fails; any other is made once on the folder inside, with the same result.
        ensures chosen { IsTrue (fails_next self.old) → IsErr result }
        ensures passed { fails_next self.old ≡ false → ¬ IsSpent (fault_state F.state self.old)
            → Makes F.state (Link to) (outcome_of result) (inner_of self.old) (inner_of self.new) }
        // A chosen call is made nevertheless, once, if the plan says so; else it does nothing.
        ensures made { IsTrue (fails_next self.old) → IsTrue (makes_failing self.old)
            → ¬ IsSpent (fault_state F.state self.old)
            → (outcome : Outcome) × Makes F.state (Link to) outcome (inner_of self.old) (inner_of self.new) }
        ensures nothing_done { IsTrue (fails_next self.old) → makes_failing self.old ≡ false
            → inner_of self.new ≡ inner_of self.old }
        ensures plan { fault_plan self.new ≡ fault_plan self.old }
    {
        if self.counts.is_spent() {
            return Err(FolderFault);
        }
        let fails = self.fails_next();
        if fails && !self.made {
            self.counts.count(false, true);
            return Err(FolderFault);
        }
        let outcome = self.inner.link(to);
        if fails {
            self.counts.count(false, true);
            return Err(FolderFault);
        }
        self.counts.count(false, outcome.is_err());
        outcome
    }

    fn rename(&mut self, from: Name, to: Name) -> Result<bool, FolderFault>
        ensures trace { Makes (fault_state F.state) (Rename from to) (outcome_of result) self.old self.new }
        // The chosen call fails; any other is made once on the folder inside, with the same result.
        ensures chosen { IsTrue (fails_next self.old) → IsErr result }
        ensures passed { fails_next self.old ≡ false → ¬ IsSpent (fault_state F.state self.old)
            → Makes F.state (Rename from to) (outcome_of result) (inner_of self.old) (inner_of self.new) }
        // A chosen call is made nevertheless, once, if the plan says so; else it does nothing.
        ensures made { IsTrue (fails_next self.old) → IsTrue (makes_failing self.old)
            → ¬ IsSpent (fault_state F.state self.old)
            → (outcome : Outcome) × Makes F.state (Rename from to) outcome (inner_of self.old) (inner_of self.new) }
        ensures nothing_done { IsTrue (fails_next self.old) → makes_failing self.old ≡ false
            → inner_of self.new ≡ inner_of self.old }
        ensures plan { fault_plan self.new ≡ fault_plan self.old }
    {
        if self.counts.is_spent() {
            return Err(FolderFault);
        }
        let fails = self.fails_next();
        if fails && !self.made {
            self.counts.count(false, true);
            return Err(FolderFault);
        }
        let outcome = self.inner.rename(from, to);
        if fails {
            self.counts.count(false, true);
            return Err(FolderFault);
        }
        self.counts.count(false, outcome.is_err());
        outcome
    }

    fn remove(&mut self, name: Name) -> Result<bool, FolderFault>
        ensures trace { Makes (fault_state F.state) (Remove name) (outcome_of result) self.old self.new }
        // The chosen call fails; any other is made once on the folder inside, with the same result.
        ensures chosen { IsTrue (fails_next self.old) → IsErr result }
        ensures passed { fails_next self.old ≡ false → ¬ IsSpent (fault_state F.state self.old)
            → Makes F.state (Remove name) (outcome_of result) (inner_of self.old) (inner_of self.new) }
        // A chosen call is made nevertheless, once, if the plan says so; else it does nothing.
        ensures made { IsTrue (fails_next self.old) → IsTrue (makes_failing self.old)
            → ¬ IsSpent (fault_state F.state self.old)
            → (outcome : Outcome) × Makes F.state (Remove name) outcome (inner_of self.old) (inner_of self.new) }
        ensures nothing_done { IsTrue (fails_next self.old) → makes_failing self.old ≡ false
            → inner_of self.new ≡ inner_of self.old }
        ensures plan { fault_plan self.new ≡ fault_plan self.old }
    {
        if self.counts.is_spent() {
            return Err(FolderFault);
        }
        let fails = self.fails_next();
        if fails && !self.made {
            self.counts.count(false, true);
            return Err(FolderFault);
        }
        let outcome = self.inner.remove(name);
        if fails {
            self.counts.count(false, true);
            return Err(FolderFault);
        }
        self.counts.count(false, outcome.is_err());
        outcome
    }

    fn sync(&mut self) -> Result<(), FolderFault>
        ensures trace { Makes (fault_state F.state) Sync (outcome_if (is_ok result)) self.old self.new }
        // The chosen call fails and does nothing; any other is made once on the folder inside, with the same result.
        ensures chosen { IsTrue (fails_next self.old) → IsErr result }
        ensures passed { fails_next self.old ≡ false → ¬ IsSpent (fault_state F.state self.old)
            → Makes F.state Sync (outcome_if (is_ok result)) (inner_of self.old) (inner_of self.new) }
        ensures nothing_done { IsTrue (fails_next self.old) → inner_of self.new ≡ inner_of self.old }
        ensures plan { fault_plan self.new ≡ fault_plan self.old }
    {
        if self.counts.is_spent() {
            return Err(FolderFault);
        }
        if self.fails_next() {
            self.counts.count(true, true);
            return Err(FolderFault);
        }
        let outcome = self.inner.sync();
        self.counts.count(true, outcome.is_err());
        outcome
    }

    fn failures(&self) -> u64 {
        self.counts.failures
    }

    fn calls(&self) -> u64 {
        self.counts.calls
    }

    fn syncs(&self) -> u64 {
        self.counts.syncs
    }
}
