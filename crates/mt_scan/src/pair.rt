//! The pairs that a scan takes: the keys of entries, and their rows.

ghost use Rattle.std.specs.Prelude.{◌≡◌, ◌++◌, reverse, IfOk, IsSome, OnOk, Some};
ghost use Rattle.std.specs.Int.{w64, to_be_bytes};
ghost use Rattle.std.specs.List.{flat_map};
ghost use Rattle.mt_slice.specs.Place.{AreBytes, under, place_of, bytes_of_place};
ghost use Rattle.mt_border.specs.Entry.{entry_row};
ghost use Rattle.mt_tree.specs.Seen.{entry_place};
ghost use Rattle.mt_scan.specs.Scan.{HoldsKey};

use bytes::Bytes;
use mt_border::{Content, Entry};
use mt_slice::SLICE_BYTES;
use mt_types::key::Key;
use mt_types::refusal::NoMemory;
use mt_types::row::Row;
use std::alloc::Global;

// The bytes of these slices, and room for those of one more.
fn slice_bytes(alloc: Global, slices: &[u64]) -> Result<Vec<u8>, NoMemory>
    ensures { IfOk result (λ bytes. bytes.items ≡ flat_map (to_be_bytes w64) slices.now) }
{
    let mut bytes = Vec::with_capacity(alloc, SLICE_BYTES * (slices.len() + 1))?;
    for slice in slices {
        bytes.extend_from_slice(&slice.to_be_bytes())?;
    }
    Ok(bytes)
}

// Appends the bytes of an entry's key in its layer. The entry has a row.
fn push_entry(bytes: &mut Vec<u8>, entry: &Entry) -> Result<(), NoMemory>
    requires { IsSome (entry_row entry.now) }
    ensures { OnOk result (bytes.new.items ≡ bytes.old.items ++ bytes_of_place (entry_place entry.now)) }
{
    let slice = entry.slice.to_be_bytes();
    match &entry.content {
        Content::Short(length, _) => bytes.extend_from_slice(&slice[..length.get()])?,
        Content::Long(suffix, _) => {
            bytes.extend_from_slice(&slice)?;
            bytes.extend_from_slice(suffix.as_slice())?;
        }
        Content::Link(_) => unreachable!(),
    }
    Ok(())
}

/// The key of an entry with a row, in the layer below these slices. Costs two allocations, and one more for a suffix.
pub(crate) fn key_of(alloc: Global, above: &[u64], entry: &Entry) -> Result<Key, NoMemory>
    requires row { IsSome (entry_row entry.now) }
    requires key { HoldsKey (reverse above.now) entry.now }
    ensures place { IfOk result (λ key. place_of key ≡ under (reverse above.now) (entry_place entry.now)) }
    ensures bytes { IfOk result AreBytes }
{
    let mut bytes = slice_bytes(alloc, above)?;
    push_entry(&mut bytes, entry)?;
    match Key::new(Bytes::from_vec(bytes)?) {
        Ok(key) => Ok(key),
        Err(_) => unreachable!(),
    }
}

/// The row of an entry that has one. Constant cost.
pub(crate) fn row_of(entry: &Entry) -> &Row
    requires { IsSome (entry_row entry.now) }
    ensures { entry_row entry.now ≡ Some result.now }
{
    match entry.row() {
        Some(row) => row,
        None => unreachable!(),
    }
}
