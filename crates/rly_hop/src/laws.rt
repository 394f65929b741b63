//! Laws of the definitions, each the contract of a function without a body. The contracts of
//! `read_message`, `write_message` and the two `step`s cite the same definitions.

mod heard_bits;
mod messages;
mod receiving;
mod sending;

pub use crate::laws::heard_bits::law_marks;
pub use crate::laws::messages::{
    law_longest_message, law_no_fault_is_a_spelling, law_one_spelling,
};
pub use crate::laws::receiving::{
    law_custody_follows_an_answer, law_nothing_is_named_while_an_answer_is_due,
    law_refused_follows_an_answer, law_take_follows_data,
};
pub use crate::laws::sending::{
    law_cursor_is_in_order, law_data_is_what_was_fetched, law_fetch_was_given,
    law_fetched_again_changes_nothing, law_release_was_acknowledged, law_repeat_was_sent,
};
