ghost use Rattle.std.specs.Prelude.{◌≡◌, ◌-◌};
ghost use Rattle.rly_hop_pacing.specs.Pacers.{credit_at, first_pacer, on_paced, pacer_moment, pacer_room};

use crate::moment::moment_after;

/// How many numbers may go out before the first round is over: as many as may be on the way.
const NO_LIMIT: u64 = 64;

/// How far apart numbers go out to a hop whose rate isn't known: as many as may be on the way are spread over the
/// shortest round. A token bucket: each microsecond adds as many as may be on the way, a number costs the round, and the
/// bucket holds two of them, or 20 milliseconds.
#[derive(Clone, Copy)]
pub(crate) struct Pacer {
    pub(crate) credit: u64,
    /// The latest moment at which it was read, in microseconds.
    pub(crate) mark: u64,
}

impl Pacer {
    /// An empty bucket.
    pub(crate) fn new() -> Pacer
        ensures { result ≡ first_pacer }
    {
        Pacer { credit: 0, mark: 0 }
    }

    /// How many numbers may go out at this moment, if `allowed` may be on the way and the shortest round is this.
    pub(crate) fn room(&self, allowed: u32, round: u32, at: u64) -> u64
        ensures { result ≡ pacer_room self.now allowed round at }
    {
        if round == u32::MAX {
            return NO_LIMIT;
        }
        self.credit_at(allowed, round, at) / u64::from(round.max(1))
    }

    /// The moment from which one may go out, if none may yet; `None` if none may be on the way.
    pub(crate) fn moment(&self, allowed: u32, round: u32, at: u64) -> Option<u64>
        ensures { result ≡ pacer_moment self.now allowed round at }
    {
        if allowed == 0 || round == u32::MAX {
            return None;
        }
        let lacking = u64::from(round.max(1)).saturating_sub(self.credit);
        moment_after(self.mark, lacking.div_ceil(u64::from(allowed)), at)
    }

    /// A number goes out.
    pub(crate) fn spend(&mut self, allowed: u32, round: u32, at: u64)
        ensures { self.new ≡ on_paced self.old allowed round at }
    {
        let credit = self.credit_at(allowed, round, at);
        self.credit = credit.saturating_sub(u64::from(round));
        self.mark = self.mark.max(at);
    }

    /// The credit at a moment.
    fn credit_at(&self, allowed: u32, round: u32, at: u64) -> u64
        ensures { result ≡ credit_at self.now allowed round at }
    {
        let passed = at.saturating_sub(self.mark);
        let gained = u64::from(allowed).saturating_mul(passed);
        let most = (2 * u64::from(round)).max(20_000 * u64::from(allowed));
        self.credit.saturating_add(gained).min(most)
    }
}
