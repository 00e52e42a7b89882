//! The cuts, made in the files of a folder.

ghost use Rattle.std.specs.Prelude.{◌≡◌, IsTrue, IfOk, IfErr, OnOk, OnSome};
ghost use Rattle.sqlite_disk.specs.Disk.{Only};
ghost use Rattle.mt_journal.specs.Recovery.{IsUnwritten};
ghost use Rattle.mtfolder.specs.Cuts.{Fits, FitsIn, IsMade, IsPlan, Leaves, OnRefused};

use crate::copies::FolderCopy;
use crate::cutting::{Cut, Plan, plan_cuts_at};
use crate::faults::{CutError, NoCut};
use mt_folder::error::{FolderError, LogFile};
use mt_folder::files::open_file;
use mt_folder::looking::bytes_of;
use mt_journal::error::JournalError;
use sqlite_disk::Disk;
use std::alloc::Global;
use std::io;

// The bytes of a file, if its disk may be used.
fn read_file<D: Disk>(alloc: Global, disk: &mut D, file: LogFile) -> Result<Vec<u8>, FolderError>
    ensures bytes { IfOk result (λ bytes. IsTrue (D.Disk.is_clean disk.new) → bytes.items ≡ D.Disk.seen disk.old) }
    ensures clean { IsTrue (D.Disk.is_clean disk.new) → IsTrue (D.Disk.is_clean disk.old) }
    ensures usable { OnOk result (IsTrue (D.Disk.is_usable disk.new)) }
    ensures unwritten { IsUnwritten (D.Disk.seen disk.old) (D.Disk.seen disk.new) (D.Disk.may_leave disk.old) (D.Disk.may_leave disk.new) }
{
    if !disk.may_be_used() {
        let error = JournalError::GivenUp;
        return Err(FolderError::Journal { file, error });
    }
    Ok(bytes_of(alloc, disk)?)
}

// The cuts of two files that leave exactly the first `commit` commits.
fn plan_on<D: Disk>(alloc: Global, even: &mut D, odd: &mut D, commit: u64) -> Result<Plan, NoCut>
    ensures plan { IfOk result (λ plan. IsTrue (D.Disk.is_clean even.new) → IsTrue (D.Disk.is_clean odd.new)
        → IsPlan (D.Disk.seen even.old) (D.Disk.seen odd.old) plan) }
    ensures commit { IfOk result (λ plan. plan.read.commits ≡ commit) }
    ensures fits { IfOk result (λ plan. Fits plan) }
    ensures usable { OnOk result (IsTrue (D.Disk.is_usable even.new)) }
    ensures other_usable { OnOk result (IsTrue (D.Disk.is_usable odd.new)) }
    ensures unwritten { IsUnwritten (D.Disk.seen even.old) (D.Disk.seen even.new) (D.Disk.may_leave even.old) (D.Disk.may_leave even.new) }
    ensures other_unwritten { IsUnwritten (D.Disk.seen odd.old) (D.Disk.seen odd.new) (D.Disk.may_leave odd.old) (D.Disk.may_leave odd.new) }
{
    let folder = FolderCopy {
        even: read_file(alloc, even, LogFile::Even)?,
        odd: read_file(alloc, odd, LogFile::Odd)?,
    };
    plan_cuts_at(alloc, &folder, commit)
}

// Writes what is left of a file, from the place of its cut on. Two calls of the disk.
fn write_cut<D: Disk>(disk: &mut D, left: &[u8], cut: Option<Cut>) -> io::Result<()>
    requires usable { IsTrue (D.Disk.is_usable disk.old) }
    requires fits { FitsIn cut left.now }
    ensures written { OnOk result (Leaves cut (D.Disk.seen disk.old) left.now → D.Disk.seen disk.new ≡ left.now) }
    ensures durable { OnOk result (OnSome cut (Only (D.Disk.seen disk.new) (D.Disk.may_leave disk.new))) }
    ensures clean { IsTrue (D.Disk.is_clean disk.new) → IsTrue (D.Disk.is_clean disk.old) }
{
    let Some(cut) = cut else {
        return Ok(());
    };
    disk.write_at(cut.from, &left[cut.from..])?;
    disk.sync()
}

// Makes the cuts of a plan. A file of which nothing is left comes first: what it has may come after the gap that the other cut
// makes, and a cut that was broken off can be made again.
fn write_cuts<D: Disk>(even: &mut D, odd: &mut D, plan: &Plan) -> io::Result<()>
    requires usable { IsTrue (D.Disk.is_usable even.old) }
    requires other_usable { IsTrue (D.Disk.is_usable odd.old) }
    requires fits { Fits plan.now }
    ensures written { OnOk result (IsPlan (D.Disk.seen even.old) (D.Disk.seen odd.old) plan.now
        → D.Disk.seen even.new ≡ plan.now.left.even.items) }
    ensures other_written { OnOk result (IsPlan (D.Disk.seen even.old) (D.Disk.seen odd.old) plan.now
        → D.Disk.seen odd.new ≡ plan.now.left.odd.items) }
    ensures durable { OnOk result (OnSome plan.now.cuts.even (Only (D.Disk.seen even.new) (D.Disk.may_leave even.new))) }
    ensures other_durable { OnOk result (OnSome plan.now.cuts.odd (Only (D.Disk.seen odd.new) (D.Disk.may_leave odd.new))) }
    ensures clean { IsTrue (D.Disk.is_clean even.new) → IsTrue (D.Disk.is_clean even.old) }
    ensures other_clean { IsTrue (D.Disk.is_clean odd.new) → IsTrue (D.Disk.is_clean odd.old) }
{
    let Plan { cuts, left, .. } = plan;
    let is_odd_gone = matches!(cuts.odd, Some(Cut { from: 0, .. }));
    if is_odd_gone {
        write_cut(odd, &left.odd, cuts.odd)?;
        return write_cut(even, &left.even, cuts.even);
    }
    write_cut(even, &left.even, cuts.even)?;
    write_cut(odd, &left.odd, cuts.odd)
}

/// Cuts the two logs of a folder, so that a server opens it with exactly the first `commit` commits. Returns what was done.
///
/// If no read of the two disks has returned a wrong byte, the files then have the bytes of a plan for what they had, and a server
/// finds the rows of the plan in them.
///
/// # Errors
///
/// `Refused`: nothing was written. `Unfinished`: a write or a sync failed, and the call can be made again.
pub fn cut_files<D: Disk>(
    alloc: Global,
    even: &mut D,
    odd: &mut D,
    commit: u64,
) -> Result<Plan, CutError>
    ensures cut { IfOk result (λ plan. IsTrue (D.Disk.is_clean even.new) → IsTrue (D.Disk.is_clean odd.new)
        → IsMade (D.Disk.seen even.old) (D.Disk.seen odd.old) (D.Disk.seen even.new) (D.Disk.seen odd.new) plan) }
    ensures commit { IfOk result (λ plan. plan.read.commits ≡ commit) }
    ensures durable { IfOk result (λ plan. OnSome plan.cuts.even (Only (D.Disk.seen even.new) (D.Disk.may_leave even.new))) }
    ensures other_durable { IfOk result (λ plan. OnSome plan.cuts.odd (Only (D.Disk.seen odd.new) (D.Disk.may_leave odd.new))) }
    ensures refused { IfErr result (λ error. OnRefused error
        (IsUnwritten (D.Disk.seen even.old) (D.Disk.seen even.new) (D.Disk.may_leave even.old) (D.Disk.may_leave even.new))) }
    ensures other_refused { IfErr result (λ error. OnRefused error
        (IsUnwritten (D.Disk.seen odd.old) (D.Disk.seen odd.new) (D.Disk.may_leave odd.old) (D.Disk.may_leave odd.new))) }
{
    let plan = match plan_on(alloc, even, odd, commit) {
        Ok(plan) => plan,
        Err(why) => return Err(CutError::Refused(why)),
    };
    match write_cuts(even, odd, &plan) {
        Ok(()) => Ok(plan),
        Err(error) => Err(CutError::Unfinished(error)),
    }
}

/// Cuts the logs of a folder, as [`cut_files`] does. No server has it meanwhile. Its files are made if they are missing.
///
/// # Errors
///
/// Those of [`cut_files`], and `Refused` if the files can't be opened or a server has them.
pub fn cut_folder(rt: &HostRuntime, folder: &str, commit: u64) -> Result<Plan, CutError> {
    let mut even = open_file(rt, folder, LogFile::Even)?;
    let mut odd = open_file(rt, folder, LogFile::Odd)?;
    cut_files(rt.alloc(), &mut even, &mut odd, commit)
}
