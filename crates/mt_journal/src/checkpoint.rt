//! How a checkpoint is appended to a log: its rows, in parts, and then its seal.

ghost use Rattle.std.specs.Prelude.{◌≡◌, List, Err, OnOk, OnErr, IsTrue};
ghost use Rattle.mt_frame.specs.declared.entry.Entry.{Entry};
ghost use Rattle.mt_frame.specs.declared.entry.LogHeader.{LogHeader};
ghost use Rattle.mt_frame.specs.declared.entry.Entry.TheVariants.{Rows, Sealed};
ghost use Rattle.mt_journal.specs.Keeping.{Keeps, KeepsFronts, AllSurvive, StaysDurable};
ghost use Rattle.mt_journal.specs.Appending.{with_part, with_seal};
ghost use Rattle.mt_journal.specs.Causes.{may_ask, IsTooLong, AppendHasCause, TellsFull, GivesUp, HasRoom, GoesOn};

use crate::error::JournalError;
use crate::journal::Journal;
use mt_frame::entry::{Entry, Part};
use sqlite_disk::Disk;
use std::alloc::Global;

impl<D: Disk + Drop> Journal<D> {
    /// Writes some rows of a checkpoint after the entries before. They are not durable before a `sync`. One call of the
    /// disk, and two more where zeros are written ahead.
    ///
    /// # Errors
    ///
    /// Those of `append`.
    pub fn append_rows(&mut self, alloc: Global, part: Part) -> Result<(), JournalError>
        ensures kept { (header : LogHeader) (entries : List Entry)
            → Keeps self.old.at (D.Disk.seen self.old.disk) (D.Disk.may_leave self.old.disk) header entries
            → IsTrue (D.Disk.is_mixing self.new.disk)
            → OnOk result (Keeps self.new.at (D.Disk.seen self.new.disk) (D.Disk.may_leave self.new.disk) header (with_part part entries)) }
        ensures crash { (header : LogHeader) (entries : List Entry)
            → Keeps self.old.at (D.Disk.seen self.old.disk) (D.Disk.may_leave self.old.disk) header entries
            → IsTrue (D.Disk.is_mixing self.new.disk)
            → AllSurvive header (with_part part entries) self.old.at.durable (D.Disk.may_leave self.new.disk) }
        ensures fronts { (header : LogHeader) (entries : List Entry)
            → Keeps self.old.at (D.Disk.seen self.old.disk) (D.Disk.may_leave self.old.disk) header entries
            → KeepsFronts self.old.at.end (D.Disk.may_leave self.old.disk) (D.Disk.may_leave self.new.disk) }
        ensures newest { OnOk result (self.new.at.newest ≡ self.old.at.newest) }
        ensures durable { StaysDurable self.old.at self.new.at }
        ensures cause { AppendHasCause result
            (may_ask self.old.is_given_up (D.Disk.is_usable self.old.disk))
            (IsTooLong self.old.at (Rows part))
            (D.Disk.faults self.old.disk) (D.Disk.faults self.new.disk) }
        ensures full { TellsFull result (D.Disk.tally_of self.old.disk).refused (D.Disk.tally_of self.new.disk).refused }
        ensures stays { (header : LogHeader) (entries : List Entry)
            → Keeps self.old.at (D.Disk.seen self.old.disk) (D.Disk.may_leave self.old.disk) header entries
            → IsTrue (may_ask self.new.is_given_up (D.Disk.is_usable self.new.disk))
            → OnErr result (Keeps self.new.at (D.Disk.seen self.new.disk) (D.Disk.may_leave self.new.disk) header entries) }
        ensures gives_up { GivesUp self.old.is_given_up self.new.is_given_up (D.Disk.is_usable self.new.disk)
            (HasRoom self.old.at self.new.at (Rows part)) }
        ensures goes_on { GoesOn result (may_ask self.old.is_given_up (D.Disk.is_usable self.old.disk))
            (may_ask self.new.is_given_up (D.Disk.is_usable self.new.disk)) }
        ensures asks_nothing { result ≡ Err JournalError.GivenUp → self.new ≡ self.old }
    {
        if !self.is_usable() {
            return Err(JournalError::GivenUp);
        }
        let entry = Entry::Rows(part);
        self.put(alloc, &entry, 0)
    }

    /// Writes that the checkpoint of this log is complete: the parts before this have all rows, `rows` of them. It is not
    /// durable before a `sync`. One call of the disk, and two more where zeros are written ahead.
    ///
    /// # Errors
    ///
    /// Those of `append`.
    pub fn append_seal(&mut self, alloc: Global, rows: u64) -> Result<(), JournalError>
        ensures kept { (header : LogHeader) (entries : List Entry)
            → Keeps self.old.at (D.Disk.seen self.old.disk) (D.Disk.may_leave self.old.disk) header entries
            → IsTrue (D.Disk.is_mixing self.new.disk)
            → OnOk result (Keeps self.new.at (D.Disk.seen self.new.disk) (D.Disk.may_leave self.new.disk) header (with_seal rows entries)) }
        ensures crash { (header : LogHeader) (entries : List Entry)
            → Keeps self.old.at (D.Disk.seen self.old.disk) (D.Disk.may_leave self.old.disk) header entries
            → IsTrue (D.Disk.is_mixing self.new.disk)
            → AllSurvive header (with_seal rows entries) self.old.at.durable (D.Disk.may_leave self.new.disk) }
        ensures fronts { (header : LogHeader) (entries : List Entry)
            → Keeps self.old.at (D.Disk.seen self.old.disk) (D.Disk.may_leave self.old.disk) header entries
            → KeepsFronts self.old.at.end (D.Disk.may_leave self.old.disk) (D.Disk.may_leave self.new.disk) }
        ensures newest { OnOk result (self.new.at.newest ≡ self.old.at.newest) }
        ensures durable { StaysDurable self.old.at self.new.at }
        ensures cause { AppendHasCause result
            (may_ask self.old.is_given_up (D.Disk.is_usable self.old.disk))
            (IsTooLong self.old.at (Sealed rows))
            (D.Disk.faults self.old.disk) (D.Disk.faults self.new.disk) }
        ensures full { TellsFull result (D.Disk.tally_of self.old.disk).refused (D.Disk.tally_of self.new.disk).refused }
        ensures stays { (header : LogHeader) (entries : List Entry)
            → Keeps self.old.at (D.Disk.seen self.old.disk) (D.Disk.may_leave self.old.disk) header entries
            → IsTrue (may_ask self.new.is_given_up (D.Disk.is_usable self.new.disk))
            → OnErr result (Keeps self.new.at (D.Disk.seen self.new.disk) (D.Disk.may_leave self.new.disk) header entries) }
        ensures gives_up { GivesUp self.old.is_given_up self.new.is_given_up (D.Disk.is_usable self.new.disk)
            (HasRoom self.old.at self.new.at (Sealed rows)) }
        ensures goes_on { GoesOn result (may_ask self.old.is_given_up (D.Disk.is_usable self.old.disk))
            (may_ask self.new.is_given_up (D.Disk.is_usable self.new.disk)) }
        ensures asks_nothing { result ≡ Err JournalError.GivenUp → self.new ≡ self.old }
    {
        if !self.is_usable() {
            return Err(JournalError::GivenUp);
        }
        let entry = Entry::Sealed(rows);
        self.put(alloc, &entry, 0)
    }
}
