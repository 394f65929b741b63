//! The limits, each with its unit (`docs/reference/DEFINITIONS.md`, "Limits and refusals").

ghost use Rattle.std.specs.Prelude.{◌≡◌, ◌-◌, ◌^◌};

/// Maximum number of hops of a spool.
pub const MAX_HOPS: u64 = 64;

/// Maximum number of peers of a spool.
pub const MAX_PEERS: u64 = 64;

/// Maximum payload length that a spool can be configured for, in bytes.
pub const MAX_PAYLOAD: u64 = 8_192;

/// Maximum number of datagrams in flight for one hop.
pub const MAX_WINDOW: u64 = 64;

/// Maximum number of calls in one round of a journal.
pub const MAX_ROUND: u64 = 64;

/// Maximum number of live datagrams of a spool.
pub const MAX_ITEMS: u64 = 16_384;

/// Maximum number of live payload bytes of a spool.
pub const MAX_BYTES: u64 = 16_777_216;

/// Minimum number of segments of a device.
pub const MIN_SEGMENTS: u64 = 2;

/// Maximum number of segments of a device.
pub const MAX_SEGMENTS: u64 = 256;

/// Every segment is shorter than this, in bytes.
pub const SEGMENT_LENGTH_LIMIT: u64 = 2_147_483_648;

/// Maximum interval of CoDel, in microseconds: one hour.
pub const MAX_INTERVAL: u64 = 3_600_000_000;

/// Maximum `maxpacket` of CoDel, in bytes.
pub const MAX_MAXPACKET: u64 = 65_535;

/// Every time is below this, in microseconds: 2 to the power of 52.
pub const MOMENT_LIMIT: u64 = 4_503_599_627_370_496;

/// Every age limit of a datagram is below this, in microseconds of a link clock: 2 to the power of 40, over 12 days.
pub const AGE_LIMIT: u64 = 1_099_511_627_776;

/// Maximum number of accepted commands in the life of a spool: 2 to the power of 48, less 1.
pub const MAX_SEQ: u64 = 281_474_976_710_655;

/// Maximum number of seats (client handles) of a submission queue.
pub const MAX_SEATS: u64 = 256;

/// Maximum number of calls that wait in a submission queue.
pub const MAX_CAPACITY: u64 = 256;

/// Maximum number of contacts of one hop.
pub const MAX_CONTACTS: u64 = 4_096;

/// Minimum `resend` of a hop, in milliseconds.
pub const MIN_RESEND: u64 = 10;

/// Maximum `resend` of a hop, in milliseconds: one hour.
pub const MAX_RESEND: u64 = 3_600_000;

/// Default `resend` of a hop, in milliseconds, if the plan omits it.
pub const DEFAULT_RESEND: u64 = 160;

/// Maximum length of a command line, in bytes without its newline.
pub const MAX_LINE: u64 = 20_480;

/// Each limit has the value of `docs/reference/DEFINITIONS.md`. This law fixes the limits that no other contract cites.
pub fn law_limits()
    ensures hops { MAX_HOPS ≡ 64 }
    ensures peers { MAX_PEERS ≡ 64 }
    ensures payload { MAX_PAYLOAD ≡ 8192 }
    ensures window { MAX_WINDOW ≡ 64 }
    ensures round { MAX_ROUND ≡ 64 }
    ensures items { MAX_ITEMS ≡ 16384 }
    ensures bytes { MAX_BYTES ≡ 16777216 }
    ensures segments { MIN_SEGMENTS ≡ 2 }
    ensures most_segments { MAX_SEGMENTS ≡ 256 }
    ensures segment_length { SEGMENT_LENGTH_LIMIT ≡ 2 ^ 31 }
    ensures interval { MAX_INTERVAL ≡ 3600000000 }
    ensures maxpacket { MAX_MAXPACKET ≡ 65535 }
    ensures moment { MOMENT_LIMIT ≡ 2 ^ 52 }
    ensures age { AGE_LIMIT ≡ 2 ^ 40 }
    ensures seq { MAX_SEQ ≡ 2 ^ 48 - 1 }
    ensures seats { MAX_SEATS ≡ 256 }
    ensures capacity { MAX_CAPACITY ≡ 256 }
    ensures contacts { MAX_CONTACTS ≡ 4096 }
    ensures least_resend { MIN_RESEND ≡ 10 }
    ensures resend { MAX_RESEND ≡ 3600000 }
    ensures default_resend { DEFAULT_RESEND ≡ 160 }
    ensures line { MAX_LINE ≡ 20480 }
{}
