//! What a crash leaves of a file: of what was written since its last sync, each byte as it was before, or as it was written.

use crate::recording::{Call, Numbered};
use sqlite_disk::{Disk, Memory};
use std::alloc::{AllocError, Global};
use std::io;

/// How many ways of a crash there are for any two files, if no place is chosen.
pub const WHOLES: usize = 4;

// The bytes of a file, after which are zeros up to its length.
#[derive(Drop)]
struct Content {
    bytes: Vec<u8>,
    len: usize,
}

/// A file: what it had at its last sync, and has now, and the places at which these differ.
#[derive(Drop)]
pub struct File {
    synced: Content,
    now: Content,
    places: Vec<usize>,
}

// A copy of bytes.
fn copy_of(alloc: Global, bytes: &[u8]) -> Result<Vec<u8>, AllocError> {
    let mut copy = Vec::new(alloc);
    copy.extend_from_slice(bytes)?;
    Ok(copy)
}

fn byte_at(bytes: &[u8], at: usize) -> u8 {
    bytes.get(at).copied().unwrap_or(0)
}

impl Content {
    fn empty(alloc: Global) -> Content {
        Content {
            bytes: Vec::new(alloc),
            len: 0,
        }
    }

    fn copy(&self, alloc: Global) -> Result<Content, AllocError> {
        Ok(Content {
            bytes: copy_of(alloc, &self.bytes)?,
            len: self.len,
        })
    }

    // Writes `len` bytes: these, and zeros after them.
    fn write(&mut self, at: usize, bytes: &[u8], len: usize) -> Result<(), AllocError> {
        let last = at.saturating_add(len);
        for place in at..last.min(self.bytes.len()) {
            if let Some(byte) = self.bytes.get_mut(place) {
                *byte = 0;
            }
        }
        self.len = self.len.max(last);
        if bytes.is_empty() {
            return Ok(());
        }
        let end = at.checked_add(bytes.len()).ok_or(AllocError)?;
        if end > self.bytes.len() {
            self.bytes.resize(end, 0)?;
        }
        self.bytes[at..end].copy_from_slice(bytes);
        Ok(())
    }

    fn resize(&mut self, len: usize) -> Result<(), AllocError> {
        self.bytes.resize(len.min(self.bytes.len()), 0)?;
        self.len = len;
        Ok(())
    }
}

// The places at which two files differ.
fn places_of(alloc: Global, synced: &[u8], now: &[u8]) -> Result<Vec<usize>, AllocError> {
    let mut places = Vec::new(alloc);
    for at in 0..synced.len().max(now.len()) {
        if byte_at(synced, at) != byte_at(now, at) {
            places.push(at)?;
        }
    }
    Ok(places)
}

/// Returns what a file is after the calls up to this number.
pub fn file_after(alloc: Global, calls: &[Numbered], last: u64) -> Result<File, AllocError> {
    let mut synced = Content::empty(alloc);
    let mut now = Content::empty(alloc);
    for (number, call) in calls {
        if *number > last {
            break;
        }
        match call {
            Call::Write { at, bytes, len } => now.write(*at, bytes, *len)?,
            Call::Resize { len } => now.resize(*len)?,
            Call::Sync => synced = now.copy(alloc)?,
        }
    }
    let places = places_of(alloc, &synced.bytes, &now.bytes)?;
    Ok(File {
        synced,
        now,
        places,
    })
}

// Of how many places at most a crash is tried at each.
const MOST_PLACES: usize = 16;

// Whether the `nth` of the bytes that differ is the new one, in this way of a crash, of which each further one chooses a place
// so far after the one before.
fn is_new(way: usize, nth: usize, stride: usize) -> bool {
    match way {
        0 => false,
        1 => true,
        2 => nth % 2 == 0,
        3 => nth % 2 == 1,
        // the bytes up to one of them, or all but one of them
        _ => {
            let place = (way.saturating_sub(WHOLES) / 2).saturating_mul(stride);
            if way % 2 == 0 {
                nth <= place
            } else {
                nth != place
            }
        }
    }
}

impl File {
    // How far the places are from one another of which a crash is tried at each.
    fn stride(&self) -> usize {
        self.places.len() / MOST_PLACES + 1
    }

    /// Returns whether a crash leaves the file as it is.
    pub fn is_synced(&self) -> bool {
        self.places.is_empty()
    }

    /// Returns in how many ways a crash is tried, if places are chosen.
    pub fn ways(&self) -> usize {
        WHOLES.saturating_add((self.places.len() / self.stride().max(1)).saturating_mul(2))
    }

    /// Returns the bytes that the file has now, without zeros after them.
    pub fn bytes(&self) -> &[u8] {
        &self.now.bytes
    }

    // The bytes that a crash leaves.
    fn left(&self, alloc: Global, way: usize) -> Result<Vec<u8>, AllocError> {
        let mut left = copy_of(alloc, &self.now.bytes)?;
        left.resize(left.len().max(self.synced.bytes.len()), 0)?;
        for (nth, place) in self.places.iter().enumerate() {
            if !is_new(way, nth, self.stride())
                && let Some(byte) = left.get_mut(*place)
            {
                *byte = byte_at(&self.synced.bytes, *place);
            }
        }
        Ok(left)
    }

    /// Returns a disk with what a crash leaves of the file: in the way 0 all bytes are old, in 1 new, in 2 and 3 every other
    /// one is; in each further way of even number those up to some place are new, and of odd number all but one.
    pub fn crashed(&self, alloc: Global, way: usize) -> io::Result<Memory> {
        let mut disk = Memory::new(alloc);
        disk.write_at(0, &self.left(alloc, way)?)?;
        disk.set_len(if way == 0 {
            self.synced.len
        } else {
            self.now.len
        })?;
        Ok(disk)
    }

    /// Returns a disk with the file as it is now, except for this byte.
    pub fn with_byte(&self, alloc: Global, place: usize, byte: u8) -> io::Result<Memory> {
        let mut bytes = copy_of(alloc, &self.now.bytes)?;
        if let Some(changed) = bytes.get_mut(place) {
            *changed = byte;
        }
        let mut disk = Memory::new(alloc);
        disk.write_at(0, &bytes)?;
        disk.set_len(self.now.len)?;
        Ok(disk)
    }
}
