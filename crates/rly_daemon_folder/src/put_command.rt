//! `rly put`: standard input becomes files of a folder.
ghost use Rattle.std.specs.Prelude.{◌<◌, ◌^◌, OnOk};
ghost use denote.Ref.{Bor};
ghost use Rattle.rly_daemon_folder.specs.FolderCommands.{HasPut};

use crate::custody_wait::CustodyWait;
use crate::folder_command_fault::FolderCommandFault;
use crate::folder_host::{FolderHost, open, own_name};
use crate::input::put_input;
use crate::input_form::InputForm;
use std::io::Read;

/// How an input is put.
#[derive(Clone, Copy, Debug, PartialEq, Eq)]
pub struct PutSettings {
    /// The form of the input.
    pub form: InputForm,
    /// The age limit of each file in microseconds; 0 = none.
    pub limit: u64,
    /// Seconds for which it waits for the station's custody after the last file; `None` = not at all.
    pub wait: Option<u64>,
}

/// Puts an input into the folder at this path, wakes the station after each file, and waits for its custody if the
/// settings say so. Makes sub-folders that are missing.
pub fn run_put<H: FolderHost, R: Read>(
    rt: &H,
    path: &str,
    settings: PutSettings,
    reader: &mut R,
) -> Result<(), FolderCommandFault>
    requires { settings.limit < 2 ^ 40 }
    ensures put { OnOk result (HasPut (Bor H) path.now settings.form settings.limit (R.remaining reader.old)) }
{
    let own = own_name(rt)?;
    let mut folder = open(rt, path, own.as_str())?;
    let mut wait = CustodyWait::new(rt, path, settings.wait);
    let put = put_input(
        rt.alloc(),
        rt,
        &mut folder,
        settings.form,
        settings.limit,
        reader,
        &mut wait,
    );
    if let Err(stop) = put {
        return Err(FolderCommandFault::of_put(stop, folder.fault()));
    }
    match wait.finish(&folder) {
        Ok(()) => Ok(()),
        Err(fault) => Err(FolderCommandFault::of_wait(fault)),
    }
}
