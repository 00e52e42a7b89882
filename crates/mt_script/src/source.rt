//! The lines in the bytes of a reader.

ghost use Rattle.std.specs.Prelude.{◌≤◌, vec_len};
ghost use Rattle.mt_streams.specs.Readers.{calls_left};

use crate::fault::ScriptFault;
use crate::words::halves;
use mt_streams::counted::Counted;
use std::alloc::{AllocError, Global};
use std::io;
use std::io::{ErrorKind, Read};

// How many bytes a read asks for.
const PIECE: usize = 16384;

// How often a read is made at most, if each time it is interrupted.
const MAX_TRIES: usize = 1000;

/// A script that is read line by line from a reader. The reader is called at most 4,294,967,295 times, for 16 KiB each
/// time. The source notes whether the last of these calls failed.
#[derive(Drop)]
pub struct Source<R> {
    reader: Counted<R>,
    // What the last read brought, of which the first bytes are taken.
    piece: Vec<u8>,
    taken: usize,
    ghost within: { taken ≤ vec_len piece },
    ghost few: { calls_left reader ≤ 4294967295 },
}

impl<R: Read> Source<R> {
    ghost use Rattle.std.specs.Prelude.{◌≡◌, ◌⊎◌, ◌+◌, ◌<◌, ◌++◌, ℕ, List, [], false, true, length, IfOk, IfErr, IfSome, OnOk, OnSome, vec_items};
    ghost use Rattle.std.specs.Option.{option_map};
    ghost use Rattle.std.specs.Io.{ReadsAtMost};
    ghost use Rattle.std.specs.Io.KnownBytes.{ReadConsumes, Consumes, IsAtEnd, Keeps};
    ghost use Rattle.mt_script.specs.Lines.{Takes, LosesLine, LosesNoLine};
    ghost use Rattle.mt_script.specs.Source.{source_kept, source_unread, source_rest, reads_left, lines_left, read_failed};
    ghost use Rattle.mt_script.specs.declared.fault.ScriptFault.TheVariants.{Read as ReadFault, NoMemory};

    /// Returns a source of the bytes that are left in `reader`. If out of memory for its buffer, the reader is dropped.
    pub fn new(alloc: Global, reader: R) -> Result<Source<R>, AllocError>
    where
        R: Drop,
        ensures rest { IfOk result (λ source. source_rest R.remaining source ≡ R.remaining reader) }
        ensures reads { IfOk result (λ source. reads_left source ≡ 4294967295) }
        ensures lines { IfOk result (λ source. lines_left source ≡ 70368744161280) }
        ensures fresh { IfOk result (λ source. read_failed source ≡ false) }
    {
        let piece = Vec::with_capacity(alloc, PIECE)?;
        Ok(Source {
            reader: Counted::new(reader),
            piece,
            taken: 0,
        })
    }

    // Takes the bytes that are kept up to the next line feed, or all of them, and puts them at the end of a line. Returns
    // whether there was a line feed.
    fn take(&mut self, line: &mut Vec<u8>) -> Result<bool, AllocError>
        ensures taken { IfOk result (λ found. (front : List ℕ) × (line.new.items ≡ line.old.items ++ front)
            × Takes (source_kept self.old) (source_kept self.new) front found) }
        ensures reader { self.new.reader ≡ self.old.reader }
    {
        let kept = &self.piece[self.taken..];
        match halves(kept, b'\n') {
            Some((front, _)) => {
                line.extend_from_slice(front)?;
                self.taken += front.len() + 1;
                Ok(true)
            }
            None => {
                line.extend_from_slice(kept)?;
                self.taken = self.piece.len();
                Ok(false)
            }
        }
    }

    // Reads, again while the read is interrupted.
    fn read_bytes(&mut self, bytes: &mut [u8]) -> io::Result<usize>
        ensures bound { ReadsAtMost result bytes.new }
        ensures bytes { ReadConsumes (source_unread R.remaining self.old) (source_unread R.remaining self.new) result
            bytes.new }
        ensures fewer { OnOk result (reads_left self.new < reads_left self.old) }
        ensures failed { IfErr result (λ error. read_failed self.new ≡ true) }
        ensures piece { self.new.piece ≡ self.old.piece }
        ensures taken { self.new.taken ≡ self.old.taken }
    {
        for _ in 1..MAX_TRIES {
            match self.reader.read(bytes) {
                Ok(count) => return Ok(count),
                Err(error) if error.kind() == ErrorKind::Interrupted => {}
                Err(error) => return Err(error),
            }
        }
        self.reader.read(bytes)
    }

    // Keeps the next piece of the input, when all that was kept is taken. Returns how many bytes it has: none at the end
    // of the input.
    fn read_more(&mut self) -> Result<usize, ScriptFault>
        requires { source_kept self.old ≡ [] }
        ensures more { IfOk result (λ count. Consumes (source_unread R.remaining self.old)
            (source_unread R.remaining self.new) (source_kept self.new)
            × (count ≡ 0 → (source_kept self.new ≡ []) × IsAtEnd (source_unread R.remaining self.new))) }
        ensures fewer { OnOk result (reads_left self.new < reads_left self.old) }
        ensures left { OnOk result (lines_left self.new ≤ lines_left self.old) }
        ensures read { IfErr result (λ fault. fault ≡ ReadFault → (read_failed self.new ≡ true)
            × Keeps (source_unread R.remaining self.old) (source_unread R.remaining self.new)) }
        ensures fault { IfErr result (λ fault. (fault ≡ ReadFault) ⊎ (fault ≡ NoMemory)) }
    {
        let mut piece = [0; PIECE];
        let count = match self.read_bytes(piece.as_mut_slice()) {
            Ok(count) => count,
            Err(error) if error.kind() == ErrorKind::OutOfMemory => return Err(
                ScriptFault::NoMemory,
            ),
            Err(_) => return Err(ScriptFault::Read),
        };
        self.taken = 0;
        self.piece.clear();
        if self.piece.extend_from_slice(&piece[..count]).is_err() {
            return Err(ScriptFault::NoMemory);
        }
        Ok(count)
    }

    /// Returns the next line without the line feed at its end, or `None` at the end of the input. Calls the reader only
    /// when all bytes that it returned before are taken.
    ///
    /// # Errors
    ///
    /// `Read` if a read failed, or all reads were made, before the line was whole; `NoMemory` if out of memory.
    pub fn next_line(&mut self, alloc: Global) -> Result<Option<Vec<u8>>, ScriptFault>
        ensures line { IfOk result (λ line. IfSome (source_rest R.remaining self.old)
            (λ xs. LosesLine xs (source_rest R.remaining self.new) (option_map vec_items line))) }
        ensures within { lines_left self.old < 18446744073709551616 }
        ensures fewer { IfOk result (λ line. OnSome line (lines_left self.new < lines_left self.old)) }
        ensures read { IfErr result (λ fault. fault ≡ ReadFault → read_failed self.new ≡ true) }
        ensures whole { IfErr result (λ fault. fault ≡ ReadFault → IfSome (source_rest R.remaining self.old)
            (LosesNoLine (source_unread R.remaining self.new))) }
        ensures fault { IfErr result (λ fault. (fault ≡ ReadFault) ⊎ (fault ≡ NoMemory)) }
    {
        let mut line = Vec::new(alloc);
        loop {
            let Ok(whole) = self.take(&mut line) else {
                return Err(ScriptFault::NoMemory);
            };
            if whole {
                return Ok(Some(line));
            }
            if self.read_more()? == 0 {
                return Ok(if line.is_empty() { None } else { Some(line) });
            }
        }
    }
}
