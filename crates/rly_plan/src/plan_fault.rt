use rly_core::Refusal;
use rly_plan_syntax::KeyPath;

/// A refusal of a text that is no plan, with its location.
#[derive(Clone, Copy, PartialEq, Eq)]
pub struct PlanFault {
    /// 50 to 54, or 14 if memory was refused.
    pub refusal: Refusal,
    /// The location of the fault: `None` if memory was refused.
    pub place: Option<KeyPath>,
}

impl PlanFault {
    ghost use Rattle.std.specs.Prelude.{◌≡◌, None};

    /// Memory was refused.
    pub(crate) fn memory() -> PlanFault
        ensures refusal { result.refusal ≡ Refusal.OutOfMemory }
        ensures place { result.place ≡ None }
    {
        PlanFault {
            refusal: Refusal::OutOfMemory,
            place: None,
        }
    }

    /// A fault at a location.
    pub(crate) fn at(refusal: Refusal, place: Option<KeyPath>) -> PlanFault
        ensures refusal { result.refusal ≡ refusal }
        ensures place { result.place ≡ place }
    {
        PlanFault { refusal, place }
    }
}
