ghost use Rattle.std.specs.Prelude.{◌≡◌, ℕ, ◌+◌, ◌-◌, ◌*◌, ◌^◌, ◌<◌, ◌≤◌, List, ◌∷◌, max};
ghost use Rattle.rly_hop_pacing.specs.Rates.{OutgoingMessage, burst, cost, first_bucket, latest, may_take, on_take};
ghost use Rattle.rly_hop_pacing.specs.Rates.{next_room, refill_at, refill_time, room_at, bytes_spent};
ghost use Rattle.rly_hop_pacing.specs.declared.rate.Bucket.{Bucket};

use std::marker::Model;

/// Bytes of the IP and UDP headers of each message.
const HEADERS: u64 = 28;

/// Millionths in a byte.
const MILLIONTHS: u64 = 1_000_000;

/// A token bucket.
#[derive(Clone, Copy)]
pub(crate) struct Bucket {
    /// Bytes a second.
    pub(crate) rate: u32,
    /// Bytes of the longest message.
    pub(crate) longest: u32,
    /// The credit at the mark, in millionths of a byte.
    pub(crate) credit: u64,
    /// The latest moment at which it was read, in microseconds.
    pub(crate) mark: u64,
}

impl Bucket {
    fn burst(&self) -> u64
        ensures { result ≡ burst self.now }
    {
        (2 * cost(self.longest)).max(20_000 * u64::from(self.rate))
    }

    fn refill_at(&self, at: u64) -> Bucket
        ensures { result ≡ refill_at self.now at }
    {
        let passed = at.saturating_sub(self.mark);
        let gained = u64::from(self.rate).saturating_mul(passed);
        Bucket {
            rate: self.rate,
            longest: self.longest,
            credit: self.credit.saturating_add(gained).min(self.burst()),
            mark: self.mark.max(at),
        }
    }

    /// How long it takes, from the mark on, until one of the longest messages may be sent, if none may.
    fn refill_time(&self) -> u64
        ensures { result ≡ refill_time self.now }
    {
        if self.rate == 0 {
            return u64::MAX;
        }
        let lacking = cost(self.longest).saturating_sub(self.credit);
        lacking.div_ceil(u64::from(self.rate))
    }
}

/// The rate limit of a hop, in bytes a second, with 28 bytes of headers counted for each message. The burst is two
/// of the longest messages or 20 milliseconds of the rate, whichever is more. Nothing is rounded, however long it
/// runs.
#[derive(Drop)]
pub struct Rate {
    bucket: Bucket,
}

impl Model for Rate {
    ghost use Rattle.rly_hop_pacing.specs.declared.rate.Bucket.{Bucket};

    ghost Value = { Bucket };

    ghost view = { λ r. r.bucket };
}

impl Rate {
    /// A rate in bytes a second from this moment on, for messages of at most `longest` bytes. The burst is
    /// available.
    pub fn new(rate: u32, longest: u32, at: u64) -> Rate
        ensures { result ≡ first_bucket rate longest at }
    {
        let mut bucket = Bucket {
            rate,
            longest,
            credit: 0,
            mark: at,
        };
        bucket.credit = bucket.burst();
        Rate { bucket }
    }

    /// How many of the longest messages may be sent at this moment. That many of any length may be sent, now or
    /// later.
    pub fn room(&self, at: u64) -> u64
        ensures { result ≡ room_at self.now at }
    {
        self.bucket.refill_at(at).credit / cost(self.bucket.longest)
    }

    /// The first moment, this one or a later one, at which one of the longest messages may be sent, in microseconds. If
    /// there is none, the last moment, 2^64 - 1.
    pub fn next_moment(&self, at: u64) -> u64
        ensures { result ≡ next_room self.now at }
    {
        if self.room(at) > 0 {
            at
        } else {
            self.bucket.mark.saturating_add(self.bucket.refill_time())
        }
    }

    /// Spends the bytes of a message, if it may be sent at this moment, and returns whether it may.
    pub fn take(&mut self, bytes: u32, at: u64) -> bool
        ensures state { self.new ≡ on_take self.old bytes at }
        ensures taken { result ≡ may_take self.old bytes at }
    {
        let cost = cost(bytes);
        let mut refilled = self.bucket.refill_at(at);
        let may_take = cost <= refilled.credit;
        if may_take {
            refilled.credit -= cost;
        }
        self.bucket = refilled;
        may_take
    }
}

/// The cost of a message, in millionths of a byte.
fn cost(bytes: u32) -> u64
    ensures { result ≡ cost bytes }
{
    (u64::from(bytes) + HEADERS) * MILLIONTHS
}

/// Over any period, from the moment of the first message to the latest one, the bytes sent are at most the burst
/// plus the rate times the length of the period: whatever the bucket's state before, the messages' lengths, and
/// whether or not the clock falls.
pub fn law_rate_is_kept()
    ensures { (b : Bucket) (first : OutgoingMessage) (later : List OutgoingMessage) →
        bytes_spent b (first ∷ later) ≤ burst b + b.rate * (latest (max b.mark first.at) later - max b.mark first.at) }
{}

/// The moment that `Rate::next_moment` gives isn't before `at`. From `at` on none of the longest messages may be sent before
/// it, and at it one may, unless it is the last moment, which stands for none.
pub fn law_next_moment_is_the_first_with_room()
    ensures after { (b : Bucket) (at : ℕ) → at < 2 ^ 64 → at ≤ next_room b at }
    ensures before { (b : Bucket) (at t : ℕ) → at ≤ t → t < next_room b at → room_at b t ≡ 0 }
    ensures then { (b : Bucket) (at : ℕ) → next_room b at < 2 ^ 64 - 1 → 0 < room_at b (next_room b at) }
{}
