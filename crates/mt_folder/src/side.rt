//! One of the two files of a folder, with the log that it has.

ghost use Rattle.std.specs.Prelude.{◌≡◌, ◌↔◌, ◌+◌, ◌<◌, ◌^◌, [], None as NoneOf, IsSome, IsTrue, IsFalse, IfOk, OnOk};
ghost use Rattle.mt_folder.specs.Files.{is_blank, HeaderOf, Says};
ghost use Rattle.mt_folder.specs.Logs.{last_number};
ghost use Rattle.mt_folder.specs.Looking.{IsFirstFrame, LacksNone};
ghost use Rattle.mt_journal.specs.Keeping.{AllAreLogs, Keeps};
ghost use Rattle.mt_folder.specs.Sides.{IsNewer, IsNoNewer};

use crate::error::{FolderError, LogFile};
use crate::log::LogRead;
use crate::looking::{frame_without_header, header_of, look, look_for_nothing};
use mt_frame::entry::LogHeader;
use mt_journal::error::JournalError;
use mt_journal::journal::Journal;
use mt_journal::opening::{Opened, create, open};
use mt_journal::position::Position;
use sqlite_disk::Disk;
use std::alloc::Global;

/// A file of a folder, and the header of the log that it has, if it has one.
#[derive(Drop)]
pub struct Side<D: Disk + Drop> {
    file: LogFile,
    disk: D,
    header: Option<LogHeader>,
}

/// A log that was opened, with what it says.
#[derive(Drop)]
pub struct OpenedSide<D: Disk + Drop> {
    pub file: LogFile,
    pub journal: Journal<D>,
    pub log: LogRead,
}

impl<D: Disk + Drop> OpenedSide<D> {
    /// Returns that the rows before the log are missing.
    pub fn lacks_rows(&self) -> FolderError {
        FolderError::Begins {
            file: self.file,
            commit: self.log.header.base,
        }
    }
}

impl<D: Disk + Drop> Side<D> {
    /// Looks at the header of a file of a folder. Up to two calls of the disk.
    ///
    /// # Errors
    ///
    /// If the disk fails, or the file has something else than a log of an index with `columns` columns.
    pub fn new(alloc: Global, file: LogFile, disk: D, columns: u8) -> Result<Side<D>, FolderError>
        ensures file { IfOk result (λ side. side.file ≡ file) }
        ensures seen { IfOk result (λ side. D.Disk.seen side.disk ≡ D.Disk.seen disk) }
        ensures header { IfOk result (λ side. IsTrue (D.Disk.is_clean side.disk) → HeaderOf columns (D.Disk.seen side.disk) side.header) }
        ensures usable { IfOk result (λ side. IsTrue (D.Disk.is_usable side.disk)) }
    {
        let mut disk = disk;
        if !disk.may_be_used() {
            let error = JournalError::GivenUp;
            return Err(FolderError::Journal { file, error });
        }
        let header = header_of(alloc, &mut disk, file, columns)?;
        Ok(Side { file, disk, header })
    }

    /// Returns which file it is.
    pub fn file(&self) -> LogFile
        ensures { result ≡ self.now.file }
    {
        self.file
    }

    /// Returns whether the file has the header of a log.
    pub fn has_log(&self) -> bool
        ensures some { IsTrue result ↔ IsSome self.now.header }
        ensures none { IsFalse result → self.now.header ≡ NoneOf }
    {
        self.header.is_some()
    }

    /// Returns whether its log is newer than that of the other file, or the only one.
    pub fn is_newer(&self, other: &Side<D>) -> bool
        ensures exact { IsNewer result self.now.header other.now.header }
        ensures newer { IsTrue result → IsNoNewer other.now.header self.now.header }
        ensures no_newer { IsFalse result → IsNoNewer self.now.header other.now.header }
    {
        match (self.header, other.header) {
            (Some(header), Some(other)) => header.generation > other.generation,
            (Some(_), None) => true,
            (None, _) => false,
        }
    }

    /// Looks whether the file has lost the header of a log that continued the one of this position. Reads the file once, if it
    /// has no header.
    ///
    /// # Errors
    ///
    /// `Lost` if it has; and if the disk fails.
    pub fn look_for_later(&mut self, alloc: Global, at: &Position) -> Result<(), FolderError>
        requires { IsTrue (D.Disk.is_usable self.old.disk) }
        ensures none { self.old.header ≡ NoneOf → at.now.generation + 1 < 2 ^ 64 → OnOk result (IsTrue (D.Disk.is_clean self.new.disk)
            → IsFirstFrame (at.now.generation + 1) (D.Disk.seen self.old.disk) NoneOf) }
        ensures clean { IsTrue (D.Disk.is_clean self.new.disk) → IsTrue (D.Disk.is_clean self.old.disk) }
    {
        if self.header.is_some() {
            return Ok(());
        }
        let Some(generation) = at.generation.checked_add(1) else {
            return Ok(());
        };
        match frame_without_header(alloc, &mut self.disk, generation)? {
            Some(place) => Err(FolderError::Lost {
                file: self.file,
                commit: at.newest,
                place,
            }),
            None => Ok(()),
        }
    }

    /// Succeeds if the file, which has no log, has nothing else. Reads the file once.
    ///
    /// # Errors
    ///
    /// If it has something else, or the disk fails.
    pub fn look_for_nothing(&mut self, alloc: Global) -> Result<(), FolderError>
        requires { IsTrue (D.Disk.is_usable self.old.disk) }
        ensures nothing { OnOk result (IsTrue (D.Disk.is_clean self.new.disk) → IsTrue (is_blank (D.Disk.seen self.old.disk))) }
        ensures clean { IsTrue (D.Disk.is_clean self.new.disk) → IsTrue (D.Disk.is_clean self.old.disk) }
    {
        look_for_nothing(alloc, &mut self.disk, self.file)
    }

    /// Opens the log of the file. No commit may be missing that was durable. Reads the file twice, and sets what follows the
    /// end of the log to zero.
    ///
    /// # Errors
    ///
    /// If the file has no log of an index with `columns` columns, if commits are missing, or the disk fails.
    pub fn read(self, alloc: Global, columns: u8) -> Result<OpenedSide<D>, FolderError>
        requires { IsTrue (D.Disk.is_usable self.disk) }
        ensures says { IfOk result (λ opened. IsTrue (D.Disk.is_clean opened.journal.disk) → Says columns (D.Disk.seen self.disk) opened.log) }
        ensures whole { IfOk result (λ opened. IsTrue (D.Disk.is_clean opened.journal.disk) → LacksNone columns (D.Disk.seen self.disk)) }
        ensures newest { IfOk result (λ opened. IsTrue (D.Disk.is_clean opened.journal.disk)
            → opened.journal.at.newest ≡ last_number opened.log) }
        ensures durable { IfOk result (λ opened. opened.journal.at.durable ≡ opened.journal.at.newest) }
        ensures clean { IfOk result (λ opened. IsTrue (D.Disk.is_clean opened.journal.disk) → IsTrue (D.Disk.is_clean self.disk)) }
        ensures kept { IfOk result (λ opened. IsTrue (D.Disk.is_clean opened.journal.disk) → Keeps opened.journal.at
            (D.Disk.seen opened.journal.disk) (D.Disk.may_leave opened.journal.disk) opened.log.header opened.log.entries.items) }
        ensures all { IfOk result (λ opened. IsTrue (D.Disk.is_clean opened.journal.disk)
            → AllAreLogs opened.log.header opened.log.entries.items (D.Disk.may_leave opened.journal.disk)) }
    {
        let Side { file, disk, .. } = self;
        let mut disk = disk;
        look(alloc, &mut disk, file, columns)?;
        match open(alloc, disk, columns) {
            Ok(
                Opened {
                    journal,
                    header,
                    entries,
                },
            ) => Ok(OpenedSide {
                file,
                journal,
                log: LogRead { header, entries },
            }),
            Err(error) => Err(FolderError::Journal { file, error }),
        }
    }

    /// Makes the first log of a folder in the file.
    ///
    /// # Errors
    ///
    /// If the disk fails, or out of memory.
    pub fn make(self, alloc: Global, columns: u8) -> Result<Journal<D>, FolderError>
        ensures newest { IfOk result (λ journal. journal.at.newest ≡ 0) }
        ensures durable { IfOk result (λ journal. journal.at.durable ≡ journal.at.newest) }
        ensures kept { IfOk result (λ journal. Keeps journal.at (D.Disk.seen journal.disk) (D.Disk.may_leave journal.disk)
            (record { columns = columns; generation = 0; base = 0; run = 0 }) []) }
        ensures clean { IfOk result (λ journal. IsTrue (D.Disk.is_clean journal.disk) → IsTrue (D.Disk.is_clean self.disk)) }
    {
        let Side { file, disk, .. } = self;
        let header = LogHeader {
            columns,
            generation: 0,
            base: 0,
            run: 0,
        };
        match create(alloc, disk, header) {
            Ok(journal) => Ok(journal),
            Err(error) => Err(FolderError::Journal { file, error }),
        }
    }

    /// Returns the disk.
    pub fn into_disk(self) -> D
        ensures { result ≡ self.disk }
    {
        let Side { disk, .. } = self;
        disk
    }
}
