//! What the moves of a log are made of: a file in which one begins, and what is left of a file in which none could.

ghost use Rattle.std.specs.Prelude.{◌≡◌, [], Err, IfErr, IfOk, IsTrue};
ghost use Rattle.mt_journal.specs.Keeping.{Keeps};
ghost use Rattle.mt_folder_log.specs.Moving.{end_of, full_as_such};

use mt_frame::entry::{LogHeader, Part};
use mt_journal::error::JournalError;
use mt_journal::opening::start;
use mt_journal::position::Position;
use mt_types::copying::TryCopy;
use mt_types::key::Key;
use sqlite_disk::{Disk, is_no_room};
use std::alloc::Global;

// How many rows of a part are after this key.
pub(crate) fn rows_after(part: &Part, last: &Option<Key>) -> u64 {
    let rows = part.rows.len() as u64;
    match (part.rows.as_slice().first(), last) {
        (Some((key, _)), Some(last)) if key == last => rows.saturating_sub(1),
        _ => rows,
    }
}

// The key of the last row of a part.
pub(crate) fn end_of(alloc: Global, part: &Part) -> Result<Option<Key>, JournalError>
    ensures end { IfOk result (λ end. end ≡ end_of part.now) }
    ensures refused { IfErr result (λ error. error ≡ JournalError.NoMemory) }
{
    let Some((key, _)) = part.rows.as_slice().last() else {
        return Ok(None);
    };
    match key.copy(alloc) {
        Ok(key) => Ok(Some(key)),
        Err(_) => Err(JournalError::NoMemory),
    }
}

// Makes a log in a file. Its bytes go first, so that only as many zeros are written to it as to a new one.
pub(crate) fn start_over<D: Disk>(
    alloc: Global,
    file: &mut D,
    header: LogHeader,
) -> Result<Position, JournalError>
    ensures kept { IfOk result (λ at. Keeps at (D.Disk.seen file.new) (D.Disk.may_leave file.new) header []) }
    ensures newest { IfOk result (λ at. at.newest ≡ header.base) }
    ensures durable { IfOk result (λ at. at.durable ≡ header.base) }
    ensures again { result ≡ Err JournalError.NoMemory → IsTrue (D.Disk.is_usable file.new) }
    ensures never { result ≡ Err JournalError.DiskFull → ⊥ }
{
    if !file.may_be_used() {
        return Err(JournalError::GivenUp);
    }
    file.set_len(0)?;
    start(alloc, file, header)
}

// What is left of a file in which no log could be made: it is cut, so that it takes no room of a full disk.
pub(crate) fn cut<D: Disk>(file: &mut D)
    ensures { IsTrue (D.Disk.is_usable file.old) → IsTrue (D.Disk.is_usable file.new) }
{
    if file.may_be_used() {
        let _cut = file.set_len(0);
    }
}

// The error of a disk that has no room, if it is one: the call can be made again.
pub(crate) fn as_full(error: JournalError) -> JournalError
    ensures { result ≡ full_as_such error }
{
    match error {
        JournalError::Disk(cause) => if is_no_room(&cause) {
            JournalError::DiskFull
        } else {
            JournalError::Disk(cause)
        },
        other => other,
    }
}
