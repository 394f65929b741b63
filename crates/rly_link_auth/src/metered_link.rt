use rly_link::Link;

/// A link that counts the packets that it drops, and those that it sends by itself. Each count stops at its last value
/// of 64 bits.
pub trait MeteredLink: Link {
    /// Packets dropped for a wrong tag.
    fn wrong_tags(&self) -> u64;

    /// Heards sent, also those whose send failed.
    fn heards_sent(&self) -> u64;
}
