//! How a life of a map whose rows are in a folder begins.

ghost use Rattle.std.specs.Prelude.{◌≡◌, ℕ, List, IfOk};
ghost use Rattle.mt_types.specs.declared.row.Change.{Change};
ghost use Rattle.mt_journal.specs.Recovery.{Mixes};
ghost use Rattle.mt_map_folder.specs.Read.{AreClean};
ghost use Rattle.mt_lives.specs.Lives.{HasLived};
ghost use Rattle.mt_lives.specs.Sentence.{opened_at, HasFirst};

use mt_index::options::Options;
use mt_map_folder::error::OpenError;
use mt_map_folder::opening::{OpenedMap, open};
use sqlite_disk::Disk;
use std::alloc::Global;

/// Opens a map with its log over the two files of a folder, as [`open`] does. If they have the first of some changes, as a
/// crash leaves them, the map has made these, and they are durable.
///
///     let mut opened = begin_life(alloc, files.even, files.odd, Options::default(), 0)?;
///
/// # Errors
///
/// Those of [`open`].
pub fn begin_life<D: Disk + Drop>(
    alloc: Global,
    even: D,
    odd: D,
    options: Options,
    least: usize,
) -> Result<OpenedMap<D>, OpenError>
    ensures begins { (changes : List Change) (n : ℕ) → HasFirst options.columns changes n (D.Disk.seen even) (D.Disk.seen odd)
        → Mixes D.Disk.is_mixing → IfOk result (λ opened. AreClean D.Disk.is_clean opened.log
        → HasLived D.Disk.seen D.Disk.may_leave options.columns (opened_at changes n) opened.map.machine opened.log) }
    ensures least { IfOk result (λ opened. opened.log.log.least ≡ least) }
    ensures tidies { IfOk result (λ opened. opened.map.tidies ≡ options.tidies) }
{
    open(alloc, even, odd, options, least)
}
