ghost use Rattle.std.specs.Prelude.{◌≡◌, ◌≤◌, ◌++◌, vec_capacity, vec_len};
ghost use Rattle.rly_daemon_lines.specs.HelpersLineReader.{line_front};

use crate::bytes::position_of;
use crate::text_fault::TextFault;
use rly_core::limits;
use rly_daemon_reply::read_some;
use std::alloc::{AllocError, Global};
use std::io::Read;
use std::marker::Model;

/// The number of bytes that are read at once.
const CHUNK: usize = 65_536;

/// The number of bytes kept of a line: one more than a command may have.
const KEPT: usize = limits::MAX_LINE as usize + 1;

/// Reads lines from any reader, however long, in a fixed buffer. The model: the bytes read ahead, the kept bytes of
/// the last line, and the number of bytes read.
#[derive(Drop)]
pub struct LineReader {
    chunk: Vec<u8>,
    at: usize,
    end: usize,
    line: Vec<u8>,
    total: u64,
    /// The number of the last line, counted from 1.
    number: u64,
}

impl Model for LineReader {
    ghost use Rattle.std.specs.Prelude.{vec_capacity, vec_len};
    ghost use Rattle.rly_daemon_lines.specs.HelpersLineReader.{ReaderState, IsReading, reading_of};

    ghost Value = { ReaderState };

    ghost view = { λ r. reading_of r.chunk.items r.at r.end r.line.items r.total };

    ghost invariant = { λ r. IsReading (vec_len r.chunk) r.at r.end (vec_len r.line) (vec_capacity r.line) r.total };
}

impl LineReader {
    ghost use Rattle.std.specs.Prelude.{◌≡◌, ◌<◌, ◌^◌, ◌==◌, [], length, IfErr, IfOk, true, false};
    ghost use Rattle.std.specs.Io.KnownBytes.{IsAtEnd, Keeps, prepend_known};
    ghost use Rattle.rly_daemon_lines.specs.HelpersLineReader.{Fills, TakesLine, TakesPiece, nothing_read};

    /// A reader of lines that has read nothing.
    pub fn new(alloc: Global) -> Result<LineReader, AllocError>
        ensures { IfOk result (λ lines. lines ≡ nothing_read) }
    {
        let chunk = vec![in alloc; 0u8; CHUNK]?;
        let line = Vec::with_capacity(alloc, KEPT)?;
        Ok(LineReader {
            chunk,
            at: 0,
            end: 0,
            line,
            total: 0,
            number: 0,
        })
    }

    /// The last line, without its newline: all of it, or the first 20,481 bytes of a longer one.
    pub fn line(&self) -> &[u8]
        ensures { result.now ≡ self.now.line }
    {
        self.line.as_slice()
    }

    /// The number of the last line, counted from 1.
    pub(crate) fn number(&self) -> u64 {
        self.number
    }

    /// Whether the buffer is empty, so that the next line waits for the reader.
    pub fn is_drained(&self) -> bool
        ensures { result ≡ (length self.now.ahead == 0) }
    {
        self.at == self.end
    }

    /// Reads the next line, and returns whether there was one. A line that is too long for a command is consumed
    /// too. Returns `Input` if the reader fails, or gave 2^64 - 1 bytes or more.
    pub fn next_line<R: Read>(&mut self, reader: &mut R) -> Result<bool, TextFault>
        ensures line { IfOk result (λ found. TakesLine found (prepend_known self.old.ahead (R.remaining reader.old))
            (prepend_known self.new.ahead (R.remaining reader.new)) self.new.line) }
        ensures progress { result ≡ Ok true → (self.old.taken < self.new.taken) × (self.new.taken < 2 ^ 64) }
        ensures fault { IfErr result (λ fault. fault ≡ TextFault.Input) }
    {
        self.forget_line();
        if self.take_piece() {
            return Ok(true);
        }
        while self.fill(reader)? {
            if self.take_piece() {
                return Ok(true);
            }
        }
        Ok(!self.line().is_empty())
    }

    /// Clears the last line.
    fn forget_line(&mut self)
        ensures { self.new ≡ record self.old { line = [] } }
    {
        self.line.clear();
        self.number = self.number.saturating_add(1);
    }

    /// Consumes a piece of the line from the buffer: up to its newline, or all there is. Returns whether the line
    /// ended.
    fn take_piece(&mut self) -> bool
        ensures { TakesPiece result self.old self.new }
    {
        let ahead = &self.chunk[self.at..self.end];
        match position_of(ahead, b'\n') {
            Some(count) => {
                keep(&mut self.line, &ahead[..count]);
                self.at += count + 1;
                true
            }
            None => {
                keep(&mut self.line, ahead);
                self.at = self.end;
                false
            }
        }
    }

    /// Fills the buffer once, and returns whether any bytes came.
    fn fill<R: Read>(&mut self, reader: &mut R) -> Result<bool, TextFault>
        requires { self.old.ahead ≡ [] }
        ensures filled { IfOk result (λ found. Fills found self.old self.new) }
        ensures bytes { IfOk result
            (λ found. Keeps (R.remaining reader.old) (prepend_known self.new.ahead (R.remaining reader.new))) }
        ensures end { result ≡ Ok false → IsAtEnd (R.remaining reader.new) }
        ensures fault { IfErr result (λ fault. fault ≡ TextFault.Input) }
    {
        let count = read_some(reader, &mut self.chunk)?;
        let total = self.total.saturating_add(count as u64);
        if total == u64::MAX {
            return Err(TextFault::Input);
        }
        self.at = 0;
        self.end = count;
        self.total = total;
        Ok(count > 0)
    }
}

/// Appends as much of a piece to the kept line as has room.
fn keep(line: &mut Vec<u8>, piece: &[u8])
    requires short { vec_len line.old ≤ 20481 }
    requires room { 20481 ≤ vec_capacity line.old }
    ensures line { line.new.items ≡ line_front (line.old.items ++ piece.now) }
    ensures short { vec_len line.new ≤ 20481 }
    ensures room { 20481 ≤ vec_capacity line.new }
{
    let count = (KEPT - line.len()).min(piece.len());
    // The room was reserved with the line, so this never fails.
    let _kept = line.extend_from_slice(&piece[..count]);
}
