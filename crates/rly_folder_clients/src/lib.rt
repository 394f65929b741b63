//! What the programs beside a station do with its folder: `put` puts a file in, and `get` prints
//! the files handed out and removes them. `rly put` and `rly get` are over them.
//!
//! A file is written under a hidden name, linked under the first free number from the clock's on,
//! and synced (`specs/Putting.antt`). A file is read, printed and flushed, its number is kept
//! durably, and then it is removed (`specs/Getting.antt`). The laws say what a crash leaves: the
//! file of a put that ended, and that of any other once or not at all; and of the files printed at
//! most the last one is printed again, and none is lost.
#![tactic(auto)]

mod form;
mod getting;
mod laws;
mod putting;
mod reader_laws;

pub use form::Form;
pub use getting::{GetFault, get};
pub use laws::{law_failed_put_is_there_once, law_put_is_durable, law_put_is_there_once};
pub use putting::{PutFault, put};
pub use reader_laws::{
    law_file_is_printed, law_file_stops, law_files_are_printed, law_reader_opens,
};
