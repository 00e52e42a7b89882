//! The deltas and the receipts that were read so far.

ghost use Rattle.std.specs.Prelude.{◌≡◌, [], IfOk, IfErr};
ghost use Rattle.mt_audit.specs.Book.{Places, Adds};
ghost use Rattle.mt_script.specs.declared.fault.ScriptFault.TheVariants.{NoMemory};

use crate::line::{Line, read_line};
use mt_check::receipt::Receipt;
use mt_script::fault::{LineError, ScriptFault};
use mt_types::row::Delta;
use std::alloc::{AllocError, Global};

/// The deltas and the receipts that were read so far.
#[derive(Drop)]
pub(crate) struct Book {
    pub(crate) deltas: Vec<Delta>,
    pub(crate) receipts: Vec<Receipt>,
}

impl Book {
    /// Returns an empty book. Allocates nothing.
    pub(crate) fn new(alloc: Global) -> Book
        ensures deltas { result.deltas.items ≡ [] }
        ensures receipts { result.receipts.items ≡ [] }
    {
        Book {
            deltas: Vec::new(alloc),
            receipts: Vec::new(alloc),
        }
    }

    // Adds what a line says, and returns whether the line may be there: no delta may come after a receipt.
    fn add(&mut self, line: Line) -> Result<bool, AllocError>
        ensures { IfOk result (λ placed. Places line self.old self.new placed) }
    {
        match line {
            Line::Logged(delta) => {
                if !self.receipts.is_empty() {
                    return Ok(false);
                }
                self.deltas.push(delta)?;
            }
            Line::Kept(receipt) => self.receipts.push(receipt)?,
        }
        Ok(true)
    }

    /// Reads one more line, of an index of `columns` columns, and returns whether all lines so far can be read.
    pub(crate) fn add_line(
        &mut self,
        alloc: Global,
        columns: u8,
        line: &[u8],
    ) -> Result<bool, ScriptFault>
        ensures adds { IfOk result (λ reads. Adds columns line.now self.old self.new reads) }
        ensures fault { IfErr result (λ fault. fault ≡ NoMemory) }
    {
        match read_line(alloc, columns, line) {
            Ok(said) => match self.add(said) {
                Ok(placed) => Ok(placed),
                Err(_) => Err(ScriptFault::NoMemory),
            },
            Err(LineError::Bad) => Ok(false),
            Err(LineError::Memory) => Err(ScriptFault::NoMemory),
        }
    }
}
