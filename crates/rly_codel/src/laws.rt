//! Laws of the definitions: functions with an empty body whose contract is the law.
ghost use Rattle.std.specs.Prelude.{◌≡◌, ℕ, ◌<◌, List, length};
ghost use Rattle.rly_core.specs.declared.params.Params.{Params};
ghost use Rattle.rly_codel.specs.Cases.{dequeue_of};
ghost use Rattle.rly_codel.specs.Front.{front_of, IsOverAt};
ghost use Rattle.rly_codel.specs.Loop.{dequeue_by_loop};
ghost use Rattle.rly_codel.specs.LaneItems.{LaneItem};
ghost use Rattle.rly_codel.specs.declared.state.CodelState.{CodelState};

/// The table of cases is equal to the RFC's loop for every list of items, in every state and at every time.
pub fn law_cases_are_the_loop()
    ensures { (params : Params) (now : ℕ) (queue : List LaneItem) (state : CodelState)
        → dequeue_by_loop params now queue state ≡ dequeue_of params now queue state }
{}

/// The front is the longest prefix of the list whose items are all over: the next item, if there is one, isn't.
pub fn law_front_is_the_longest_run()
    ensures all_over { (params : Params) (now : ℕ) (queue : List LaneItem) (i : ℕ)
        → i < front_of params now queue → IsOverAt params now queue i }
    ensures ends { (params : Params) (now : ℕ) (queue : List LaneItem)
        → front_of params now queue < length queue → ¬ IsOverAt params now queue (front_of params now queue) }
{}
