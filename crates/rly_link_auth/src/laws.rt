//! The law of sealed packets, on a function without a body.

ghost use Rattle.std.specs.Prelude.{◌≡◌, ℕ, List, Some};
ghost use Rattle.rly_link_auth.specs.Keys.{Hears, Keys};
ghost use Rattle.rly_link_auth.specs.Seal.{sealed_packet, unsealed_packet};

/// A packet sealed under an accepted key is received unchanged, and no other packet is received.
pub fn law_seal()
    ensures heard { (keys : Keys) (key packet : List ℕ) → Hears keys key
        → unsealed_packet keys (sealed_packet key packet) ≡ Some packet }
    ensures only { (keys : Keys) (bytes packet : List ℕ) → unsealed_packet keys bytes ≡ Some packet
        → (key : List ℕ) × Hears keys key × (bytes ≡ sealed_packet key packet) }
{}
