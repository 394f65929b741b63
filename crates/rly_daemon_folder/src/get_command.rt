//! `rly get`: the files of a folder are printed and removed.
ghost use Rattle.std.specs.Prelude.{◌≡◌, ◌-◌, ◌^◌, IfErr, OnOk, false, unwrap_or};
ghost use denote.Ref.{Bor};
ghost use Rattle.rly_daemon_folder.specs.FolderCommands.{HasPrinted, is_over};

use crate::folder_command_fault::FolderCommandFault;
use crate::folder_host::{FolderHost, open_to_get};
use crate::looks::{Between, get_files};
use crate::wake::wake;
use rly_folder_clients::Form;
use std::io::Write;
use std::sync::Wait;
use std::time::Duration;

/// The pause between two looks at a folder, in milliseconds.
const PAUSE: u64 = 100;

/// How the files of a folder are printed.
#[derive(Clone, Copy, Debug, PartialEq, Eq)]
pub struct GetSettings {
    /// The form of a payload.
    pub form: Form,
    /// The maximum number of payloads; `None` = no maximum.
    pub count: Option<u64>,
    /// Whether it waits for more files.
    pub follow: bool,
}

/// Prints the files in the folder at this path and removes each after its output was flushed, and wakes the station after
/// each look that removed one, since its hop may have been full. One reader at a time has the folder. Makes sub-folders
/// that are missing.
pub fn run_get<H: FolderHost + Wait, W: Write>(
    rt: &H,
    path: &str,
    settings: GetSettings,
    out: &mut W,
) -> Result<(), FolderCommandFault>
    ensures printed { OnOk result (HasPrinted (Bor H) path.now settings.form
        (unwrap_or settings.count (2 ^ 64 - 1)) settings.follow (W.contents out.old) (W.contents out.new)) }
    ensures over { IfErr result (λ fault. is_over fault ≡ false) }
{
    let mut folder = open_to_get(rt, path)?;
    let most = settings.count.unwrap_or(u64::MAX);
    let mut waking = Waking { rt, path };
    let got = get_files(
        rt,
        &mut folder,
        out,
        settings.form,
        most,
        settings.follow,
        &mut waking,
    );
    match got {
        Ok(()) => Ok(()),
        Err(fault) => Err(FolderCommandFault::of_get(fault, folder.fault())),
    }
}

/// Wakes the station of a folder, and pauses between two looks.
#[derive(Drop)]
struct Waking<'a, H> {
    rt: &'a H,
    path: &'a str,
}

impl<H: FolderHost> Between for Waking<'_, H> {
    fn removed(&mut self) {
        wake(self.rt, self.path);
    }

    fn pause(&mut self) {
        self.rt.sleep(Duration::from_millis(PAUSE));
    }
}
