//! A writer that notes whether its last write failed.

ghost use Rattle.std.specs.Prelude.{◌≡◌, ◌<◌, ◌++◌, [], OnOk, OnErr, IfOk, ℕ, List, true, false, string_bytes};
ghost use Rattle.std.specs.Io.{WritesAtMost};
ghost use Rattle.std.specs.Io.KnownBytes.{Appends, WriteAppends};
ghost use Rattle.mt_streams.specs.Sinks.{sink_writer, write_failed};

use std::io::Write;
use thiserror::Error;

/// A write failed, or wrote no bytes.
#[derive(Clone, Copy, Debug, PartialEq, Eq, Error)]
#[error("nothing more could be written")]
pub struct WriteFailed;

/// A writer that notes whether its last write failed.
#[derive(Drop)]
pub struct Sink<W> {
    writer: W,
    failed: bool,
}

impl<W: Write> Sink<W> {
    /// Returns a sink that writes to `writer`.
    pub fn new(writer: W) -> Sink<W>
        ensures writer { sink_writer result ≡ writer }
        ensures fresh { write_failed result ≡ false }
    {
        Sink {
            writer,
            failed: false,
        }
    }

    /// Returns the inner writer, with what has been written to it.
    pub fn writer(&self) -> &W
        ensures { result.now ≡ sink_writer self.now }
    {
        &self.writer
    }

    // Writes some of the bytes, at least one, and returns how many.
    fn send_some(&mut self, bytes: &[u8]) -> Result<usize, WriteFailed>
        ensures bound { WritesAtMost result bytes.now }
        ensures bytes { WriteAppends (W.contents self.old.writer) (W.contents self.new.writer) result bytes.now }
        ensures some { IfOk result (λ taken. 0 < taken) }
        ensures err { OnErr result (write_failed self.new ≡ true) }
    {
        match self.writer.write(bytes) {
            Ok(taken) if taken > 0 => Ok(taken),
            _ => {
                self.failed = true;
                Err(WriteFailed)
            }
        }
    }

    /// Writes all bytes, with as many writes as that takes. On an error only the first of them have been written.
    ///
    /// # Errors
    ///
    /// `WriteFailed` if a write failed, or wrote no bytes.
    pub fn send(&mut self, bytes: &[u8]) -> Result<(), WriteFailed>
        ensures sent { (sent : List ℕ) × (unsent : List ℕ) × (bytes.now ≡ sent ++ unsent)
            × Appends (W.contents (sink_writer self.old)) (W.contents (sink_writer self.new)) sent
            × OnOk result (unsent ≡ []) }
        ensures err { OnErr result (write_failed self.new ≡ true) }
    {
        let mut rest = bytes;
        while !rest.is_empty() {
            let taken = self.send_some(rest)?;
            rest = &rest[taken..];
        }
        Ok(())
    }
}
