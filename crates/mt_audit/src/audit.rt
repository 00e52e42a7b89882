//! The audit of a log and its receipts, as text.

ghost use Rattle.std.specs.Prelude.{◌≡◌, ◌≢◌, ◌⊎◌, ◌++◌, ℕ, List, [], true, All, OnOk, MatchOption, IfOk, IfErr};
ghost use Rattle.std.specs.Io.KnownBytes.{Appends};
ghost use Rattle.mt_types.specs.declared.refusal.Refusal.{Refusal};
ghost use Rattle.mt_check.specs.Receipts.{IsAsked};
ghost use Rattle.mt_script.specs.Lines.{line_text};
ghost use Rattle.mt_streams.specs.Sinks.{sink_writer, write_failed};
ghost use Rattle.mt_script.specs.Source.{source_rest, source_unread, read_failed};
ghost use Rattle.mt_script.specs.declared.fault.ScriptFault.TheVariants.{Read as ReadFault, Write as WriteFault, Start, NoMemory};
ghost use Rattle.mt_audit.specs.Audit.{IsVerdict, IsVerdictOn, verdict_text, Audited, ReadsSoFar, Unfinished};
ghost use Rattle.mt_audit.specs.Book.{IsBookOf, IsWholeBook};
ghost use Rattle.mt_audit.specs.declared.verdict.Verdict.TheVariants.{Bad};

use crate::book::Book;
use crate::verdict::{Verdict, verdict_line};
use mt_check::check::check;
use mt_check::fault::Rule;
use mt_script::fault::ScriptFault;
use mt_script::source::Source;
use mt_streams::sink::Sink;
use std::alloc::Global;
use std::io::{Read, Write};

// Reads the lines up to the first bad one, and returns its number.
fn read_book<R: Read>(
    alloc: Global,
    columns: u8,
    reader: &mut Source<R>,
    book: &mut Book,
) -> Result<Option<u64>, ScriptFault>
    requires { IsBookOf columns [] book.old }
    ensures read { IfOk result (λ bad. MatchOption bad
        (IsWholeBook columns (source_rest R.remaining reader.old) book.new)
        (λ number. IsVerdictOn columns (source_rest R.remaining reader.old) (Bad number))) }
    ensures failed { IfErr result (λ fault. fault ≡ ReadFault → read_failed reader.new ≡ true) }
    ensures whole { IfErr result (λ fault. fault ≡ ReadFault
        → ReadsSoFar columns (source_rest R.remaining reader.old) (source_unread R.remaining reader.new)) }
    ensures fault { IfErr result (λ fault. (fault ≡ ReadFault) ⊎ (fault ≡ NoMemory)) }
{
    let mut number: u64 = 0;
    while let Some(line) = reader.next_line(alloc)? {
        number += 1;
        let reads = book.add_line(alloc, columns, &line)?;
        if !reads {
            return Ok(Some(number));
        }
    }
    Ok(None)
}

// The verdict on what was read.
fn judge(alloc: Global, columns: u8, book: &Book) -> Result<Verdict, ScriptFault>
    requires { All (IsAsked columns) book.now.receipts.items }
    ensures verdict { IfOk result (λ verdict. (lines : List (List ℕ)) → IsBookOf columns lines book.now
        → IsVerdict columns lines verdict) }
    ensures fault { IfErr result (λ fault. fault ≡ NoMemory) }
{
    match check(alloc, columns, &book.deltas, &book.receipts) {
        Ok(()) => Ok(Verdict::Sound {
            deltas: book.deltas.len() as u64,
            receipts: book.receipts.len() as u64,
        }),
        Err(fault) if fault.rule == Rule::Memory => Err(ScriptFault::NoMemory),
        Err(fault) => Ok(Verdict::Faulty(fault)),
    }
}

// The verdict on the lines of a source.
fn verdict_on<R: Read>(
    alloc: Global,
    columns: u8,
    reader: &mut Source<R>,
) -> Result<Verdict, ScriptFault>
    ensures verdict { IfOk result (IsVerdictOn columns (source_rest R.remaining reader.old)) }
    ensures failed { IfErr result (λ fault. fault ≡ ReadFault → read_failed reader.new ≡ true) }
    ensures whole { IfErr result (λ fault. fault ≡ ReadFault
        → ReadsSoFar columns (source_rest R.remaining reader.old) (source_unread R.remaining reader.new)) }
    ensures fault { IfErr result (λ fault. (fault ≡ ReadFault) ⊎ (fault ≡ NoMemory)) }
{
    let mut book = Book::new(alloc);
    match read_book(alloc, columns, reader, &mut book)? {
        Some(number) => Ok(Verdict::Bad(number)),
        None => judge(alloc, columns, &book),
    }
}

// Writes the line of a verdict, or a front of it.
fn tell<W: Write>(alloc: Global, verdict: &Verdict, writer: &mut Sink<W>) -> Result<(), ScriptFault>
    ensures sent { (sent : List ℕ) × (unsent : List ℕ) × (line_text (verdict_text verdict.now) ≡ sent ++ unsent)
        × Appends (W.contents (sink_writer writer.old)) (W.contents (sink_writer writer.new)) sent
        × OnOk result (unsent ≡ []) }
    ensures fault { IfErr result (λ fault. (fault ≡ WriteFault) ⊎ (fault ≡ NoMemory)) }
    ensures write { IfErr result (λ fault. fault ≡ WriteFault → write_failed writer.new ≡ true) }
{
    match verdict_line(alloc, verdict) {
        Ok(text) => writer.send(text.as_bytes()).map_err(|_| ScriptFault::Write),
        Err(_) => Err(ScriptFault::NoMemory),
    }
}

/// Audits a log and the receipts of its calls, of an index of `columns` columns: reads them as lines, writes one line,
/// and returns the status of its verdict.
///
/// The lines are `delta N KEY BEFORE AFTER`, one for each commit from the first on, and after them
/// `receipt FROM TO REQUEST => ANSWER`. A request is a get, a put, a conditional put, a remove or a range as in a
/// script, or `view SPEC FLOOR START LIMIT`, whose answer is `view AT COUNT SUMS K` and K rows. The line that is
/// written is `ok D R` with the numbers of deltas and receipts, status 0; `fault INDEX RULE`, the first fault, status
/// 1; or `bad line N`, the first line that doesn't read or whose delta or request breaks a limit, status 2. Nothing is
/// read after a bad line.
///
/// Keeps all deltas and receipts in memory; what `check` costs comes on top of the lines. The writer isn't flushed.
///
/// # Errors
///
/// `Read` if a read of the source failed, or all its reads were made: every whole line that was read reads well then, and
/// nothing was written. `Write` if a write of the sink failed or took nothing, `NoMemory` if out of memory: nothing was
/// written then, or the first bytes of the line.
pub fn audit<R: Read, W: Write>(
    alloc: Global,
    columns: u8,
    reader: &mut Source<R>,
    writer: &mut Sink<W>,
) -> Result<u8, ScriptFault>
    ensures audited { IfOk result (λ status. Audited columns (source_rest R.remaining reader.old)
        (W.contents (sink_writer writer.old)) status (W.contents (sink_writer writer.new))) }
    ensures unfinished { IfErr result (λ fault. Unfinished columns fault (source_rest R.remaining reader.old)
        (source_unread R.remaining reader.new) (W.contents (sink_writer writer.old)) (W.contents (sink_writer writer.new))) }
    ensures read { IfErr result (λ fault. fault ≡ ReadFault → read_failed reader.new ≡ true) }
    ensures write { IfErr result (λ fault. fault ≡ WriteFault → write_failed writer.new ≡ true) }
    ensures opened { IfErr result (λ fault. (refusal : Refusal) → fault ≢ Start refusal) }
{
    let verdict = verdict_on(alloc, columns, reader)?;
    tell(alloc, &verdict, writer)?;
    Ok(verdict.status())
}
