ghost use Rattle.std.specs.Prelude.{◌≡◌, ◌<◌, ◌^◌, ◌==◌, ◌||◌, false, ℕ};
ghost use Rattle.rly_hop.specs.HeardBits.{marks, with_mark};

/// Setting the bit of a place sets that one and leaves all others as they are. In 0 none is set, and bits that agree
/// at all 64 places are the same.
pub fn law_marks()
    ensures sets { (bits place other : ℕ) → place < 64 →
        marks (with_mark bits place) other ≡ ((other == place) || marks bits other) }
    ensures fits { (bits place : ℕ) → bits < 2 ^ 64 → with_mark bits place < 2 ^ 64 }
    ensures none { (place : ℕ) → marks 0 place ≡ false }
    ensures same { (a b : ℕ) → a < 2 ^ 64 → b < 2 ^ 64 →
        ((place : ℕ) → place < 64 → marks a place ≡ marks b place) → a ≡ b }
{}
