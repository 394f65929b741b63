//! `rly put` and `rly get`: files into the folder of a station's peer, and out of the folder of its
//! hop.
//!
//! `put_input` cuts an input into files and puts each (`specs/Input.antt`), and `get_files` looks
//! at a folder once or again and again (`specs/Looks.antt`), over any folder; the calls of one file
//! and what a crash leaves of them are those of `rly_folder_clients`. `run_put` and `run_get` do
//! this with a folder of the file system, wake its station, and wait for its custody. Caller:
//! `rly_daemon`.
#![tactic(auto)]

mod custody_wait;
mod folder_command_fault;
mod folder_host;
mod get_command;
mod input;
mod input_form;
mod looks;
mod put_command;
mod put_stop;
mod wake;

pub use crate::custody_wait::WaitFault;
pub use crate::folder_command_fault::FolderCommandFault;
pub use crate::folder_host::FolderHost;
pub use crate::get_command::{GetSettings, run_get};
pub use crate::input::{AfterPut, put_input};
pub use crate::input_form::InputForm;
pub use crate::looks::{Between, get_files};
pub use crate::put_command::{PutSettings, run_put};
pub use crate::put_stop::PutStop;
pub use rly_folder_clients::Form;
