//! The files of a folder are printed and removed, in one look or in one after another.
ghost use Rattle.std.specs.Prelude.{◌≡◌, ◌≤◌, IfErr, IfOk, OnOk, true};
ghost use Rattle.rly_folder_clients.specs.Getting.{Gets, StopsGet};
ghost use Rattle.rly_daemon_folder.specs.Looks.{HasLooked, StopsLooking};

use rly_folder::Folder;
use rly_folder_clients::{Form, GetFault, get};
use std::io::Write;
use std::sync::Wait;

/// What a program does between two looks at a folder.
pub trait Between {
    /// Files were printed and removed.
    fn removed(&mut self);

    /// Waits before the next look.
    fn pause(&mut self);
}

/// Prints the files handed out in the order of their numbers, at most `most`, and removes each. Looks once for files; if
/// it follows, again and again until that many are printed. After an `Err` the payload that was printed last may be
/// printed again, and no other.
pub fn get_files<R: Wait, F: Folder, W: Write, B: Between>(
    rt: &R,
    folder: &mut F,
    out: &mut W,
    form: Form,
    most: u64,
    follow: bool,
    between: &mut B,
) -> Result<(), GetFault>
    ensures ok { OnOk result
        (HasLooked F.state form most follow (W.contents out.old) (W.contents out.new) folder.old folder.new) }
    ensures stops { IfErr result (λ why. StopsLooking F.state form most follow why
        (W.contents out.old) (W.contents out.new) folder.old folder.new) }
{
    if follow {
        return follow_files(rt, folder, out, form, most, between);
    }
    look(folder, out, form, most, between)?;
    Ok(())
}

/// Looks again and again, until that many payloads are printed.
fn follow_files<R: Wait, F: Folder, W: Write, B: Between>(
    rt: &R,
    folder: &mut F,
    out: &mut W,
    form: Form,
    most: u64,
    between: &mut B,
) -> Result<(), GetFault>
    ensures ok { OnOk result
        (HasLooked F.state form most true (W.contents out.old) (W.contents out.new) folder.old folder.new) }
    ensures stops { IfErr result (λ why. StopsLooking F.state form most true why
        (W.contents out.old) (W.contents out.new) folder.old folder.new) }
{
    let mut left = most;
    for _look in rt.forever() {
        let count = look(folder, out, form, left, between)?;
        left -= count;
        if left == 0 {
            return Ok(());
        }
        between.pause();
    }
    unreachable!()
}

/// Looks once: prints at most `most` payloads, and returns how many.
fn look<F: Folder, W: Write, B: Between>(
    folder: &mut F,
    out: &mut W,
    form: Form,
    most: u64,
    between: &mut B,
) -> Result<u64, GetFault>
    ensures gets { IfOk result (λ count. Gets F.state form most count (W.contents out.old) (W.contents out.new)
        folder.old folder.new) }
    ensures stops { IfErr result (λ why. StopsGet F.state form why (W.contents out.old) (W.contents out.new)
        folder.old folder.new) }
    ensures within { IfOk result (λ count. count ≤ most) }
{
    let count = get(folder, out, form, most)?;
    if count > 0 {
        between.removed();
    }
    Ok(count)
}
