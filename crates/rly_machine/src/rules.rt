ghost use Rattle.std.specs.Prelude.{◌≡◌};
ghost use Rattle.rly_core.specs.Limits.{IsWithinLimits};

use rly_core::Params;
use rly_law::StepTable;
use std::marker::Model;

/// A spool's parameters, with a step table at their interval. In contracts it is the parameters.
#[derive(Drop)]
pub(crate) struct Rules {
    params: Params,
    steps: StepTable,
}

impl Model for Rules {
    ghost use Rattle.std.specs.Prelude.{◌≡◌};
    ghost use Rattle.rly_core.specs.declared.params.Params.{Params};

    ghost Value = { Params };

    ghost view = { λ rules. rules.params };

    ghost invariant = { λ rules. rules.steps ≡ rules.params.interval };
}

impl Rules {
    /// Makes the table. Allocates nothing.
    pub(crate) fn new(params: Params) -> Rules
        requires { IsWithinLimits params }
        ensures { result ≡ params }
    {
        let steps = StepTable::new(params.interval);
        Rules { params, steps }
    }

    /// Returns the parameters.
    pub(crate) fn params(&self) -> Params
        ensures { result ≡ self.now }
    {
        self.params
    }

    /// Returns CoDel's control law at their interval.
    pub(crate) fn steps(&self) -> &StepTable
        ensures { result.now ≡ self.now.interval }
    {
        &self.steps
    }
}
