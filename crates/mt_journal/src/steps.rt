//! The steps of a log in use, each with at most one write and one sync.

ghost use Rattle.std.specs.Prelude.{◌≡◌, ◌+◌, ◌++◌, ◌∷◌, ◌<◌, ◌^◌, ℕ, List, [], length, OnOk, OnErr, IsTrue};
ghost use Rattle.mt_frame.specs.declared.entry.Entry.{Entry};
ghost use Rattle.mt_frame.specs.declared.entry.LogHeader.{LogHeader};
ghost use Rattle.mt_frame.specs.Spelling.{frame_of};
ghost use Rattle.sqlite_disk.specs.Disk.{CountsFault};
ghost use Rattle.sqlite_disk.specs.Tally.{CountsRefusal};
ghost use Rattle.mt_journal.specs.Log.{MaySay, last_number};
ghost use Rattle.mt_journal.specs.Keeping.{Keeps, KeepsFronts, AllAreLogs, AllSurvive};

use crate::position::Position;
use sqlite_disk::Disk;
use std::io;

/// Writes the frame of an entry with `count` commits at the end. One call of the disk.
pub fn write_frame<D: Disk>(
    disk: &mut D,
    at: &mut Position,
    frame: &[u8],
    count: u64,
) -> io::Result<()>
    requires usable { IsTrue (D.Disk.is_usable disk.old) }
    requires room { at.old.end + length frame.now < at.old.room }
    requires numbers { at.old.newest + count < 2 ^ 64 }
    ensures kept { (header : LogHeader) (entries : List Entry) (entry : Entry)
        → Keeps at.old (D.Disk.seen disk.old) (D.Disk.may_leave disk.old) header entries
        → MaySay header (entries ++ entry ∷ [])
        → frame.now ≡ frame_of header.generation at.old.end entry
        → last_number at.old.newest (entry ∷ []) ≡ at.old.newest + count
        → IsTrue (D.Disk.is_mixing disk.new)
        → OnOk result (Keeps at.new (D.Disk.seen disk.new) (D.Disk.may_leave disk.new) header (entries ++ entry ∷ [])) }
    ensures crash { (header : LogHeader) (entries : List Entry) (entry : Entry)
        → Keeps at.old (D.Disk.seen disk.old) (D.Disk.may_leave disk.old) header entries
        → MaySay header (entries ++ entry ∷ [])
        → frame.now ≡ frame_of header.generation at.old.end entry
        → IsTrue (D.Disk.is_mixing disk.new)
        → AllSurvive header (entries ++ entry ∷ []) at.old.durable (D.Disk.may_leave disk.new) }
    ensures fronts { KeepsFronts at.old.end (D.Disk.may_leave disk.old) (D.Disk.may_leave disk.new) }
    ensures durable { at.new.durable ≡ at.old.durable }
    ensures newest { OnOk result (at.new.newest ≡ at.old.newest + count) }
    ensures place { OnErr result (at.new ≡ at.old) }
    ensures usable { IsTrue (D.Disk.is_usable disk.new) }
    ensures faults { CountsFault result (D.Disk.faults disk.old) (D.Disk.faults disk.new) }
    ensures tally { CountsRefusal result (D.Disk.tally_of disk.old) (D.Disk.tally_of disk.new) }
    ensures clean { IsTrue (D.Disk.is_clean disk.new) → IsTrue (D.Disk.is_clean disk.old) }
{
    disk.write_at(at.end, frame)?;
    at.end += frame.len();
    at.newest += count;
    Ok(())
}

/// Makes all that was written durable. One call of the disk.
pub fn sync_log<D: Disk>(disk: &mut D, at: &mut Position) -> io::Result<()>
    requires { IsTrue (D.Disk.is_usable disk.old) }
    ensures kept { (header : LogHeader) (entries : List Entry)
        → Keeps at.old (D.Disk.seen disk.old) (D.Disk.may_leave disk.old) header entries
        → OnOk result (Keeps at.new (D.Disk.seen disk.new) (D.Disk.may_leave disk.new) header entries) }
    ensures crash { (header : LogHeader) (entries : List Entry)
        → Keeps at.old (D.Disk.seen disk.old) (D.Disk.may_leave disk.old) header entries
        → AllSurvive header entries at.old.durable (D.Disk.may_leave disk.new) }
    ensures whole { (header : LogHeader) (entries : List Entry)
        → Keeps at.old (D.Disk.seen disk.old) (D.Disk.may_leave disk.old) header entries
        → OnOk result (AllAreLogs header entries (D.Disk.may_leave disk.new)) }
    ensures fewer { (left : List ℕ) → D.Disk.may_leave disk.new left → D.Disk.may_leave disk.old left }
    ensures durable { OnOk result (at.new.durable ≡ at.old.newest) }
    ensures newest { at.new.newest ≡ at.old.newest }
    ensures usable { OnOk result (IsTrue (D.Disk.is_usable disk.new)) }
    ensures faults { CountsFault result (D.Disk.faults disk.old) (D.Disk.faults disk.new) }
    ensures tally { CountsRefusal result (D.Disk.tally_of disk.old) (D.Disk.tally_of disk.new) }
{
    disk.sync()?;
    at.durable = at.newest;
    Ok(())
}
