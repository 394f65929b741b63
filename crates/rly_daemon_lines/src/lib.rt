//! The line commands of `rly`: parses a line as a call (`specs/Grammar.antt`), and runs `sim` and
//! `play`, which read lines from any reader and write a reply line for each (`specs/Text.antt`,
//! `specs/PlayedText.antt`). Both say on standard error which word of which line is wrong. Reply
//! lines are formatted by `rly_daemon_reply`. The crate opens no files. Callers:
//! `rly_daemon_commands` and `rly_daemon`; of its reader of lines also `rly_daemon_folder`.
#![tactic(auto)]

mod bytes;
mod grammar;
mod line_batch;
mod line_evaluation;
mod line_note;
mod line_reader;
mod outflow;
mod play_command;
mod simulation;
mod text_fault;

pub use crate::line_reader::LineReader;
pub use crate::play_command::play;
pub use crate::simulation::sim;
pub use crate::text_fault::TextFault;
