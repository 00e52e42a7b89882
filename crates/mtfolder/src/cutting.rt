//! What is cut off the logs of a folder, so that a server opens it. All is decided on copies in memory.

ghost use Rattle.std.specs.Prelude.{◌≡◌, ◌≤◌, length, replicate, drop, IfOk};
ghost use Rattle.mtfolder.specs.Cuts.{bytes_in, cut_beside, left_of, nonzero, zeroed, AreCuts, Fits, IsPlace, IsPlan, IsPlanOf, ReadsTo};

use crate::copies::FolderCopy;
use crate::faults::NoCut;
use mt_folder::error::{FolderError, LogFile};
use mt_folder::opening::OpenedLog;
use mt_folder::reading::RowsRead;
use mt_journal::error::JournalError;
use mt_journal::recovery::read_log;
use sqlite_disk::Memory;
use std::alloc::{AllocError, Global};

// Each file is cut at most twice: where its log can be read no further, and as a whole. Then the folder is opened, or not.
const MOST_TRIES: u8 = 5;

/// A cut of a file.
#[derive(Clone, Copy, Debug, PartialEq, Eq)]
pub struct Cut {
    /// The byte from which on the file is zero.
    pub from: usize,
    /// How many bytes that weren't zero are gone.
    pub gone: usize,
}

/// The cuts of the two files of a folder.
#[derive(Clone, Copy, Debug, PartialEq, Eq)]
pub struct Cuts {
    pub even: Option<Cut>,
    pub odd: Option<Cut>,
}

/// What is cut off the files of a folder, and what is left.
#[derive(Drop)]
pub struct Plan {
    pub cuts: Cuts,
    /// The files after the cuts.
    pub left: FolderCopy,
    /// The rows that a server finds in them, and how many commits led to the rows.
    pub read: RowsRead,
}

impl Cuts {
    // The cut of the other file.
    fn beside(self, file: LogFile) -> Option<Cut>
        ensures { result ≡ cut_beside file self }
    {
        match file {
            LogFile::Even => self.odd,
            LogFile::Odd => self.even,
        }
    }
}

// As many zeros.
fn zeros(alloc: Global, count: usize) -> Result<Vec<u8>, AllocError>
    ensures { IfOk result (λ zeros. zeros.items ≡ replicate count 0) }
{
    let mut zeros = Vec::new(alloc);
    zeros.resize(count, 0)?;
    Ok(zeros)
}

// The bytes with zeros from a place on. One at least is there, since a log ends at a zero.
fn zeroed(alloc: Global, bytes: &[u8], from: usize) -> Result<Vec<u8>, AllocError>
    ensures { IfOk result (λ left. left.items ≡ zeroed from bytes.now) }
{
    let tail = zeros(alloc, bytes.len().saturating_sub(from).max(1))?;
    let mut left = Vec::from_slice(alloc, bytes)?;
    left.truncate(from);
    left.extend_from_slice(&tail)?;
    Ok(left)
}

// What is left of the bytes of a file.
fn cut_bytes(alloc: Global, bytes: &[u8], cut: Option<Cut>) -> Result<Vec<u8>, AllocError>
    ensures { IfOk result (λ left. left.items ≡ left_of cut bytes.now) }
{
    match cut {
        Some(cut) => zeroed(alloc, bytes, cut.from),
        None => Vec::from_slice(alloc, bytes),
    }
}

// What is left of a folder.
fn cut_copy(alloc: Global, folder: &FolderCopy, cuts: Cuts) -> Result<FolderCopy, AllocError>
    ensures even { IfOk result (λ left. left.even.items ≡ left_of cuts.even folder.now.even.items) }
    ensures odd { IfOk result (λ left. left.odd.items ≡ left_of cuts.odd folder.now.odd.items) }
{
    Ok(FolderCopy {
        even: cut_bytes(alloc, &folder.even, cuts.even)?,
        odd: cut_bytes(alloc, &folder.odd, cuts.odd)?,
    })
}

// The place up to which the log of a file can be read: where it ends, or is damaged. 0 if it has no header.
fn end_of(alloc: Global, bytes: &[u8], columns: u8) -> Result<usize, JournalError>
    ensures within { IfOk result (λ end. end ≤ length bytes.now) }
    ensures reads { IfOk result (ReadsTo columns bytes.now) }
{
    match read_log(alloc, bytes, columns) {
        Ok(read) => Ok(read.at.end),
        Err(JournalError::Damaged { place, .. }) => Ok(place),
        Err(JournalError::NoLog) => Ok(0),
        Err(error) => Err(error),
    }
}

// How many bytes from this place on aren't zero.
fn nonzero(bytes: &[u8], from: usize) -> usize
    ensures { result ≡ nonzero (drop from bytes.now) }
{
    bytes.iter().skip(from).filter(|byte| **byte != 0).count()
}

// The cuts, with one more.
fn more_cuts(folder: &FolderCopy, cuts: Cuts, file: LogFile, from: usize) -> Cuts
    requires cuts { AreCuts folder.now.even.items folder.now.odd.items cuts }
    requires place { IsPlace (bytes_in file folder.now) (cut_beside file cuts) from }
    ensures { AreCuts folder.now.even.items folder.now.odd.items result }
{
    match file {
        LogFile::Even => {
            let gone = nonzero(&folder.even, from);
            Cuts {
                even: Some(Cut { from, gone }),
                odd: cuts.odd,
            }
        }
        LogFile::Odd => {
            let gone = nonzero(&folder.odd, from);
            Cuts {
                even: cuts.even,
                odd: Some(Cut { from, gone }),
            }
        }
    }
}

// The cuts, and that of a file where its log can be read no further.
fn cuts_at_end(alloc: Global, folder: &FolderCopy, cuts: Cuts, file: LogFile) -> Result<Cuts, NoCut>
    requires { AreCuts folder.now.even.items folder.now.odd.items cuts }
    ensures { IfOk result (AreCuts folder.now.even.items folder.now.odd.items) }
{
    let columns = folder.columns(alloc);
    match end_of(alloc, folder.bytes(file), columns) {
        Ok(end) => Ok(more_cuts(folder, cuts, file, end)),
        Err(error) => Err(NoCut::Folder(FolderError::Journal { file, error })),
    }
}

// The cuts, and the next one that the fault of what they leave asks for.
fn next_cuts(
    alloc: Global,
    folder: &FolderCopy,
    cuts: Cuts,
    error: FolderError,
) -> Result<Cuts, NoCut>
    requires { AreCuts folder.now.even.items folder.now.odd.items cuts }
    ensures { IfOk result (AreCuts folder.now.even.items folder.now.odd.items) }
{
    match error {
        FolderError::Journal {
            file,
            error: JournalError::Damaged { .. },
        }
        | FolderError::Lost { file, .. } => cuts_at_end(alloc, folder, cuts, file),
        // (the log before it was cut: what it says comes after a gap)
        FolderError::Begins { file, .. } if cuts.beside(file).is_some() => {
            Ok(more_cuts(folder, cuts, file, 0))
        }
        error => Err(NoCut::Folder(error)),
    }
}

// What cuts leave of a folder, if something is cut and a log is left.
fn plan_of(cuts: Cuts, left: FolderCopy, opened: OpenedLog<Memory>) -> Result<Plan, NoCut>
    ensures { IfOk result (IsPlanOf cuts left opened) }
{
    if cuts.even.is_none() && cuts.odd.is_none() {
        return Err(NoCut::Sound);
    }
    let OpenedLog { read, source, .. } = opened;
    if source.is_none() {
        return Err(NoCut::Useless);
    }
    Ok(Plan { cuts, left, read })
}

/// Returns which cuts make a folder one that a server opens, and what they leave.
///
/// # Errors
///
/// `Sound` if a server opens it as it is; `Useless` or `Folder` if no cut helps, or out of memory.
pub fn plan_cuts(alloc: Global, folder: &FolderCopy) -> Result<Plan, NoCut>
    ensures { IfOk result (IsPlan folder.now.even.items folder.now.odd.items) }
{
    let mut cuts = Cuts {
        even: None,
        odd: None,
    };
    'tries: for _ in 0..MOST_TRIES {
        let left = cut_copy(alloc, folder, cuts)?;
        match left.opened(alloc) {
            Ok(opened) => return plan_of(cuts, left, opened),
            Err(error) => cuts = next_cuts(alloc, folder, cuts, error)?,
        }
    }
    Err(NoCut::Useless)
}

/// Returns the cuts that leave exactly the first `commit` commits, and what they leave.
///
/// # Errors
///
/// Those of [`plan_cuts`], and `OtherCommit` if they leave another number of commits.
#[tactic(auto, using(crate::proofs::CutLemmas::plan_fits))]
pub fn plan_cuts_at(alloc: Global, folder: &FolderCopy, commit: u64) -> Result<Plan, NoCut>
    ensures plan { IfOk result (IsPlan folder.now.even.items folder.now.odd.items) }
    ensures fits { IfOk result Fits }
    ensures commit { IfOk result (λ plan. plan.read.commits ≡ commit) }
{
    let plan = plan_cuts(alloc, folder)?;
    let last = plan.read.commits;
    if last != commit {
        return Err(NoCut::OtherCommit { last });
    }
    Ok(plan)
}
