//! The bits of a Heard: one for each of the 64 numbers after its `last`.

ghost use Rattle.std.specs.Prelude.{◌≡◌};
ghost use Rattle.rly_hop.specs.HeardBits.{marks, with_mark};

/// How many numbers the bits are for.
const PLACES: u64 = 64;

/// Whether the bit of the number `last + 1 + place` is set. False from place 64 on.
#[tactic(auto, unfolding(crate::specs::HeardBits::marks))]
pub fn marks(bits: u64, place: u64) -> bool
    ensures { result ≡ marks bits place }
{
    place < PLACES && (bits >> (PLACES - 1 - place)) & 1 == 1
}

/// The bits with that of the number `last + 1 + place` set. Unchanged from place 64 on.
#[tactic(auto, unfolding(crate::specs::HeardBits::with_mark))]
pub fn with_mark(bits: u64, place: u64) -> u64
    ensures { result ≡ with_mark bits place }
{
    if place < PLACES {
        bits | 1 << (PLACES - 1 - place)
    } else {
        bits
    }
}
