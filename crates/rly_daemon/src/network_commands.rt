//! `rly network`, by the settings of a command line.

ghost use Rattle.std.specs.Prelude.{◌≡◌, IfErr, OnOk, false, map, true};
ghost use Rattle.rly_network_command.specs.NetworkCheck.{HasCheckedNetwork};
ghost use Rattle.rly_network_command.specs.NetworkWrite.{HasDrawnNetwork, HasWrittenNetwork};
ghost use Rattle.rly_daemon.specs.Program.{is_wait_over};

use crate::program::Host;
use crate::program_fault::ProgramFault;
use rly_network_command::{run_network_check, run_network_draw, run_network_write};
use std::io::Write;

/// Prints what the plans of a network disagree on. `Err` if they do.
pub(crate) fn check_network<H: Host, W: Write>(
    rt: &H,
    names: &[&str],
    writer: &mut W,
) -> Result<(), ProgramFault>
    ensures agree { OnOk result
        (HasCheckedNetwork (map (λ s. s.now) names.now) true (W.contents writer.old) (W.contents writer.new)) }
    ensures differ { IfErr result (λ fault. fault ≡ ProgramFault.Disagreement
        → HasCheckedNetwork (map (λ s. s.now) names.now) false (W.contents writer.old) (W.contents writer.new)) }
    ensures over { IfErr result (λ fault. is_wait_over fault ≡ false) }
{
    match run_network_check(rt, names, writer) {
        Ok(true) => Ok(()),
        Ok(false) => Err(ProgramFault::Disagreement),
        Err(fault) => Err(ProgramFault::Network(fault)),
    }
}

/// Writes the files of a network's stations.
pub(crate) fn write_network<H: Host, W: Write>(
    rt: &H,
    file: &str,
    folder: &str,
    changed: bool,
    writer: &mut W,
) -> Result<(), ProgramFault>
    ensures written { OnOk result
        (HasWrittenNetwork file.now folder.now changed (W.contents writer.old) (W.contents writer.new)) }
    ensures over { IfErr result (λ fault. is_wait_over fault ≡ false) }
{
    match run_network_write(rt, file, folder, changed, writer) {
        Ok(()) => Ok(()),
        Err(fault) => Err(ProgramFault::Network(fault)),
    }
}

/// Prints the picture of a network.
pub(crate) fn draw_network<H: Host, W: Write>(
    rt: &H,
    file: &str,
    writer: &mut W,
) -> Result<(), ProgramFault>
    ensures drawn { OnOk result (HasDrawnNetwork file.now (W.contents writer.old) (W.contents writer.new)) }
    ensures over { IfErr result (λ fault. is_wait_over fault ≡ false) }
{
    match run_network_draw(rt, file, writer) {
        Ok(()) => Ok(()),
        Err(fault) => Err(ProgramFault::Network(fault)),
    }
}
