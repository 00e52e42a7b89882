//! Zeros written ahead of the end of a log.

ghost use Rattle.std.specs.Prelude.{◌≡◌, ◌⊎◌, ◌+◌, ◌<◌, ◌^◌, ℕ, List, length, replicate, OnOk, IsTrue, IsFalse};
ghost use Rattle.mt_frame.specs.declared.entry.Entry.{Entry};
ghost use Rattle.mt_frame.specs.declared.entry.LogHeader.{LogHeader};
ghost use Rattle.mt_journal.specs.Keeping.{Keeps, KeepsFronts, AllSurvive, HasZeros, StaysDurable};
ghost use Rattle.sqlite_disk.specs.Disk.{CountsFault};
ghost use Rattle.sqlite_disk.specs.Tally.{CountsRefusal};
ghost use Rattle.mt_journal.specs.Growing.{IsGrown, CountsFull, IfUnsynced};

use crate::position::Position;
use sqlite_disk::Disk;
use std::io;

/// Which call of the disk failed as zeros were added.
#[derive(Debug, Drop)]
pub enum GrowError {
    /// The write: the journal is as before.
    Write(io::Error),
    /// The sync: nothing more may be asked of the file.
    Sync(io::Error),
}

/// Writes zeros after the room. One call of the disk.
fn write_zeros<D: Disk>(disk: &mut D, at: &Position, zeros: &[u8]) -> io::Result<()>
    requires usable { IsTrue (D.Disk.is_usable disk.old) }
    requires zeros { zeros.now ≡ replicate (length zeros.now) 0 }
    ensures kept { (header : LogHeader) (entries : List Entry)
        → Keeps at.now (D.Disk.seen disk.old) (D.Disk.may_leave disk.old) header entries
        → Keeps at.now (D.Disk.seen disk.new) (D.Disk.may_leave disk.new) header entries }
    ensures ahead { (header : LogHeader) (entries : List Entry)
        → Keeps at.now (D.Disk.seen disk.old) (D.Disk.may_leave disk.old) header entries
        → OnOk result (HasZeros at.now (length zeros.now) (D.Disk.seen disk.new) header entries) }
    ensures fronts { KeepsFronts at.now.room (D.Disk.may_leave disk.old) (D.Disk.may_leave disk.new) }
    ensures usable { IsTrue (D.Disk.is_usable disk.new) }
    ensures faults { CountsFault result (D.Disk.faults disk.old) (D.Disk.faults disk.new) }
    ensures tally { CountsRefusal result (D.Disk.tally_of disk.old) (D.Disk.tally_of disk.new) }
    ensures clean { IsTrue (D.Disk.is_clean disk.new) → IsTrue (D.Disk.is_clean disk.old) }
{
    disk.write_at(at.room, zeros)
}

/// Adds zeros after the room and makes them durable, and with them all that was written. Two calls of the disk.
pub fn grow<D: Disk>(disk: &mut D, at: &mut Position, zeros: &[u8]) -> Result<(), GrowError>
    requires usable { IsTrue (D.Disk.is_usable disk.old) }
    requires zeros { zeros.now ≡ replicate (length zeros.now) 0 }
    requires fits { at.old.room + length zeros.now < 2 ^ 64 }
    ensures kept { (header : LogHeader) (entries : List Entry)
        → Keeps at.old (D.Disk.seen disk.old) (D.Disk.may_leave disk.old) header entries
        → IsGrown result (Keeps at.new (D.Disk.seen disk.new) (D.Disk.may_leave disk.new) header entries) }
    ensures crash { (header : LogHeader) (entries : List Entry)
        → Keeps at.old (D.Disk.seen disk.old) (D.Disk.may_leave disk.old) header entries
        → AllSurvive header entries at.old.durable (D.Disk.may_leave disk.new) }
    ensures fronts { KeepsFronts at.old.room (D.Disk.may_leave disk.old) (D.Disk.may_leave disk.new) }
    ensures room { OnOk result (at.new.room ≡ at.old.room + length zeros.now) }
    ensures end { at.new.end ≡ at.old.end }
    ensures newest { at.new.newest ≡ at.old.newest }
    ensures durable { StaysDurable at.old at.new }
    ensures usable { IsGrown result (IsTrue (D.Disk.is_usable disk.new)) }
    ensures faults { CountsFault result (D.Disk.faults disk.old) (D.Disk.faults disk.new) }
    ensures full { CountsFull result (D.Disk.tally_of disk.old).refused (D.Disk.tally_of disk.new).refused }
    ensures unsynced { IfUnsynced result (IsFalse (D.Disk.is_usable disk.new)) }
    ensures clean { IsTrue (D.Disk.is_clean disk.new) → IsTrue (D.Disk.is_clean disk.old) }
{
    if let Err(error) = write_zeros(disk, at, zeros) {
        return Err(GrowError::Write(error));
    }
    if let Err(error) = disk.sync() {
        return Err(GrowError::Sync(error));
    }
    at.room += zeros.len();
    at.durable = at.newest;
    Ok(())
}
