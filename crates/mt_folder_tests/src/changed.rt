//! Each byte of a small folder is another: the folder has the rows after the first commits, or it isn't opened.

use crate::crashes::{Change, PUT_A, PUT_B, REMOVE_A, ROUND, SYNC, has_rows, take_all};
use crate::leaving::{File, file_after};
use mt_index::options::Options;
use mt_map_folder::error::OpenError;
use mt_map_folder::opening::open;
use sqlite_disk::Memory;
use std::alloc::Global;
use std::test::Fail;

// Folders with a log and a sealed one after it, and with a log that begins in the middle of a checkpoint.
const FOLDERS: [&[u64]; 2] = [
    &[
        PUT_A, SYNC, ROUND, ROUND, ROUND, REMOVE_A, SYNC, PUT_B, SYNC,
    ],
    &[PUT_A, PUT_B, ROUND, PUT_B, SYNC, ROUND, SYNC],
];

// The files of a folder, and what its commits left.
#[derive(Drop)]
struct Folder {
    even: File,
    odd: File,
    changes: Vec<Change>,
}

// How many folders were opened of which a byte is another, and how many were refused.
type Tried = (u64, u64);

fn folder_of(alloc: Global, turns: &[u64]) -> Result<Folder, Fail> {
    let taken = take_all(alloc, turns)?;
    Ok(Folder {
        even: file_after(alloc, &taken.even, u64::MAX)?,
        odd: file_after(alloc, &taken.odd, u64::MAX)?,
        changes: taken.changes,
    })
}

// Opens two files. Returns whether they are opened, with the rows after the first commits.
fn opens(alloc: Global, even: Memory, odd: Memory, changes: &[Change]) -> Result<bool, Fail> {
    match open(alloc, even, odd, Options::default(), 0) {
        Ok(opened) => {
            let commits = opened.map.commits();
            if commits <= changes.len() as u64 && has_rows(&opened.map, changes)? {
                Ok(true)
            } else {
                Err(Fail::from("other rows"))
            }
        }
        Err(OpenError::Folder(_)) => Ok(false),
        Err(error) => Err(Fail::from(error)),
    }
}

// Changes a byte of a file to this one, if it is another, and opens the folder.
fn change(
    alloc: Global,
    folder: &Folder,
    is_even: bool,
    place: usize,
    byte: u8,
) -> Result<Tried, Fail> {
    let file = if is_even { &folder.even } else { &folder.odd };
    if file.bytes().get(place) == Some(&byte) {
        return Ok((0, 0));
    }
    let (even, odd) = if is_even {
        let even = folder.even.with_byte(alloc, place, byte)?;
        (even, folder.odd.crashed(alloc, 1)?)
    } else {
        let odd = folder.odd.with_byte(alloc, place, byte)?;
        (folder.even.crashed(alloc, 1)?, odd)
    };
    let is_opened = opens(alloc, even, odd, &folder.changes)?;
    Ok((u64::from(is_opened), u64::from(!is_opened)))
}

// Changes each byte of a file, to zero and to another one.
fn change_each(alloc: Global, folder: &Folder, is_even: bool) -> Result<Tried, Fail> {
    let file = if is_even { &folder.even } else { &folder.odd };
    let mut tried: Tried = (0, 0);
    for (place, byte) in file.bytes().iter().enumerate() {
        let zero = change(alloc, folder, is_even, place, 0)?;
        let other = change(alloc, folder, is_even, place, byte.wrapping_add(1))?;
        tried.0 = tried.0.wrapping_add(zero.0).wrapping_add(other.0);
        tried.1 = tried.1.wrapping_add(zero.1).wrapping_add(other.1);
    }
    Ok(tried)
}

#[test]
fn each_byte_is_another(rt: HostRuntime) -> Result<(), Fail> {
    for turns in FOLDERS {
        let folder = folder_of(rt.alloc(), turns)?;
        let even = change_each(rt.alloc(), &folder, true)?;
        let odd = change_each(rt.alloc(), &folder, false)?;
        let opened = even.0.wrapping_add(odd.0);
        let refused = even.1.wrapping_add(odd.1);
        assert!(rt; opened > 20 && refused > 200, "{opened} {refused}");
    }
    Ok(())
}
