//! Laws of the definition: functions with an empty body whose contract is the law.

ghost use Rattle.std.specs.Prelude.{◌≡◌, ◌<◌, ◌≤◌, ◌^◌};
ghost use Rattle.rly_law.specs.ControlLaw.{IsStep, step_of};

/// At most one number is the greatest, and `step_of` computes it.
pub fn law_step_is_the_only_greatest(interval: u64, count: u64, spacing: u64)
    requires interval { interval < 2 ^ 32 }
    requires count { 1 ≤ count }
    requires greatest { IsStep interval count spacing }
    ensures { spacing ≡ step_of interval count }
{}

/// The steps of one phase never grow.
pub fn law_step_falls(interval: u64, fewer: u64, more: u64)
    requires interval { interval < 2 ^ 32 }
    requires fewer { 1 ≤ fewer }
    requires more { fewer ≤ more }
    ensures { step_of interval more ≤ step_of interval fewer }
{}
