//! The spelling of a key in a buffer: the slices above a layer, and what an entry of the layer has of the key.

ghost use Rattle.std.specs.Prelude.{◌≡◌, ◌++◌, IsSome, OnOk};
ghost use Rattle.std.specs.Int.{w64, to_be_bytes};
ghost use Rattle.std.specs.List.{flat_map};
ghost use Rattle.mt_slice.specs.Place.{bytes_of_place};
ghost use Rattle.mt_border.specs.Entry.{entry_row};
ghost use Rattle.mt_scan.specs.Scan.{HoldsKey};
ghost use Rattle.mt_tree.specs.Seen.{entry_place};
ghost use Rattle.mt_walk.specs.Standing.{prefix_of, slices_of, Spells};

use crate::course::Stop;
use mt_border::{Content, Entry};
use mt_types::refusal::NoMemory;

// Appends the slices of these stops.
fn push_slices(key: &mut Vec<u8>, path: &[Stop]) -> Result<(), NoMemory>
    ensures { OnOk result (key.new.items ≡ key.old.items ++ flat_map (to_be_bytes w64) (slices_of path.now)) }
{
    for stop in path {
        key.extend_from_slice(&stop.slice.to_be_bytes())?;
    }
    Ok(())
}

// Appends what an entry with a row has of its key: its slice, which is then cut if the key ends in it.
fn push_entry(key: &mut Vec<u8>, entry: &Entry) -> Result<(), NoMemory>
    requires { IsSome (entry_row entry.now) }
    ensures { OnOk result (key.new.items ≡ key.old.items ++ bytes_of_place (entry_place entry.now)) }
{
    let before = key.len();
    key.extend_from_slice(&entry.slice.to_be_bytes())?;
    match &entry.content {
        Content::Short(length, _) => key.truncate(before + length.get()),
        Content::Long(suffix, _) => key.extend_from_slice(suffix.as_slice())?,
        Content::Link(_) => unreachable!(),
    }
    Ok(())
}

/// Appends the key of an entry with a row, below the stops of a path. Allocates only if the buffer has to grow.
///
/// # Errors
///
/// `NoMemory` if that is refused. The buffer then has a part of the key.
pub(crate) fn spell(key: &mut Vec<u8>, path: &[Stop], entry: &Entry) -> Result<(), NoMemory>
    requires row { IsSome (entry_row entry.now) }
    requires key { HoldsKey (prefix_of path.now) entry.now }
    ensures { OnOk result (Spells key.old.items path.now entry.now key.new.items) }
{
    push_slices(key, path)?;
    push_entry(key, entry)?;
    Ok(())
}
