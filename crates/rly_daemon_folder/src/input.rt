//! An input is put into a folder.
ghost use Rattle.std.specs.Prelude.{◌≡◌, ◌<◌, ◌^◌, IfErr, IfOk, Ok, OnOk, true};
ghost use Rattle.std.specs.Io.KnownBytes.{prepend_known};
ghost use Rattle.rly_daemon_folder.specs.Input.{PutsFile, PutsInput, StopsInput, each_line_of, files_of, whole_of};
ghost use Rattle.rly_daemon_folder.specs.HelpersInput.{PutsLine, StopsFile};

use crate::custody_wait::WaitFault;
use crate::folder_host::moment_of;
use crate::input_form::{InputForm, file_of, front};
use crate::put_stop::PutStop;
use rly_core::limits;
use rly_daemon_lines::LineReader;
use rly_folder::Folder;
use rly_folder_clients::put;
use std::alloc::Global;
use std::io::{ErrorKind, Read};
use std::time::Clock;

/// The longest file: a destination, and the longest payload of any station.
const LONGEST: usize = limits::MAX_PAYLOAD as usize + 2;

/// The number of files in `new/` at which a put is refused.
const MOST: u64 = 16_384;

/// What a program does after each file that it put.
pub trait AfterPut<F> {
    /// A file was put into the folder.
    fn after_put(&mut self, folder: &F) -> Result<(), WaitFault>;
}

/// Puts an input into a folder, durably: all of it as one file, or each line as one, in order, each with an age limit in
/// microseconds if that isn't 0. After an `Err` the first
/// files were put, in order, and each of them once.
pub fn put_input<R: Read, F: Folder, C: Clock, A: AfterPut<F>>(
    alloc: Global,
    clock: &C,
    folder: &mut F,
    form: InputForm,
    limit: u64,
    reader: &mut R,
    after: &mut A,
) -> Result<(), PutStop>
    requires { limit < 2 ^ 40 }
    ensures puts { OnOk result (PutsInput F.state limit (files_of form) (R.remaining reader.old) folder.old folder.new) }
    ensures stops { IfErr result
        (λ why. StopsInput F.state limit (files_of form) why (R.remaining reader.old) folder.old folder.new) }
{
    if form.lines {
        put_lines(alloc, clock, folder, form.destination, limit, reader, after)
    } else {
        put_whole(alloc, clock, folder, form.destination, limit, reader, after)
    }
}

/// Puts all of an input as one file.
fn put_whole<R: Read, F: Folder, C: Clock, A: AfterPut<F>>(
    alloc: Global,
    clock: &C,
    folder: &mut F,
    destination: Option<u16>,
    limit: u64,
    reader: &mut R,
    after: &mut A,
) -> Result<(), PutStop>
    requires { limit < 2 ^ 40 }
    ensures puts { OnOk result
        (PutsInput F.state limit (whole_of destination) (R.remaining reader.old) folder.old folder.new) }
    ensures stops { IfErr result
        (λ why. StopsInput F.state limit (whole_of destination) why (R.remaining reader.old) folder.old folder.new) }
{
    let mut file = front(alloc, destination)?;
    let most = (LONGEST + 1 - file.len()) as u64;
    match reader.take(most).read_to_end(&mut file) {
        Ok(_) => put_file(clock, folder, &file, limit, after),
        Err(error) if error.kind() == ErrorKind::OutOfMemory => Err(PutStop::OutOfMemory),
        Err(_) => Err(PutStop::Input),
    }
}

/// Puts each line of an input as a file.
fn put_lines<R: Read, F: Folder, C: Clock, A: AfterPut<F>>(
    alloc: Global,
    clock: &C,
    folder: &mut F,
    destination: Option<u16>,
    limit: u64,
    reader: &mut R,
    after: &mut A,
) -> Result<(), PutStop>
    requires { limit < 2 ^ 40 }
    ensures puts { OnOk result
        (PutsInput F.state limit (each_line_of destination) (R.remaining reader.old) folder.old folder.new) }
    ensures stops { IfErr result
        (λ why. StopsInput F.state limit (each_line_of destination) why (R.remaining reader.old) folder.old folder.new) }
{
    let mut lines = LineReader::new(alloc)?;
    'lines: while put_line(
        alloc,
        clock,
        folder,
        destination,
        limit,
        &mut lines,
        reader,
        after,
    )? {}
    Ok(())
}

/// Puts the next line, and returns whether there was one.
fn put_line<R: Read, F: Folder, C: Clock, A: AfterPut<F>>(
    alloc: Global,
    clock: &C,
    folder: &mut F,
    destination: Option<u16>,
    limit: u64,
    lines: &mut LineReader,
    reader: &mut R,
    after: &mut A,
) -> Result<bool, PutStop>
    requires { limit < 2 ^ 40 }
    ensures puts { IfOk result (λ more. PutsLine F.state limit destination more
        (prepend_known lines.old.ahead (R.remaining reader.old))
        (prepend_known lines.new.ahead (R.remaining reader.new)) folder.old folder.new) }
    ensures stops { IfErr result (λ why. StopsInput F.state limit (each_line_of destination) why
        (prepend_known lines.old.ahead (R.remaining reader.old)) folder.old folder.new) }
    ensures progress { result ≡ Ok true → (lines.old.taken < lines.new.taken) × (lines.new.taken < 2 ^ 64) }
{
    match lines.next_line(reader) {
        Ok(true) => {}
        Ok(false) => return Ok(false),
        Err(_) => return Err(PutStop::Input),
    }
    let file = file_of(alloc, destination, lines.line())?;
    put_file(clock, folder, &file, limit, after)?;
    Ok(true)
}

/// Puts a file, if any station takes one of its length.
fn put_file<F: Folder, C: Clock, A: AfterPut<F>>(
    clock: &C,
    folder: &mut F,
    file: &[u8],
    limit: u64,
    after: &mut A,
) -> Result<(), PutStop>
    requires { limit < 2 ^ 40 }
    ensures puts { OnOk result (PutsFile F.state limit file.now folder.old folder.new) }
    ensures stops { IfErr result (λ why. StopsFile F.state limit file.now why folder.old folder.new) }
{
    if file.len() > LONGEST {
        return Err(PutStop::TooLong);
    }
    match put(folder, file, limit, MOST, moment_of(clock)) {
        Ok(_) => match after.after_put(folder) {
            Ok(()) => Ok(()),
            Err(fault) => Err(PutStop::Wait(fault)),
        },
        Err(fault) => Err(PutStop::Put(fault)),
    }
}
