//! A disk that keeps which calls changed it, and when: so it can be made afterwards what a crash leaves at each moment.

use sqlite_disk::{Disk, Tally};
use std::alloc::{AllocError, Global};
use std::io;
use std::sync::atomic::{AtomicU64, Ordering};

/// A call by which a crash leaves something else.
#[derive(Drop)]
pub enum Call {
    /// A write of `len` bytes: `bytes`, and zeros after them.
    Write {
        at: usize,
        bytes: Vec<u8>,
        len: usize,
    },
    Resize {
        len: usize,
    },
    Sync,
}

/// A call, and its number among the calls of all disks of a folder. The first is 1.
pub type Numbered = (u64, Call);

/// Passes each call on, and keeps it.
#[derive(Drop)]
pub struct Recorder<'a, D: Disk> {
    inner: D,
    alloc: Global,
    // How many calls of all disks of the folder there were.
    clock: &'a AtomicU64,
    calls: Vec<Numbered>,
    is_even: bool,
}

// Keeps a call. If memory is refused, it is missing among the calls.
fn keep(calls: &mut Vec<Numbered>, clock: &AtomicU64, call: Result<Call, AllocError>) {
    let number = clock.fetch_add(1, Ordering::SeqCst).wrapping_add(1);
    if let Ok(call) = call {
        let _ = calls.push((number, call));
    }
}

// How many bytes there are before the zeros at their end.
fn used(bytes: &[u8]) -> usize {
    let mut used = bytes.len();
    for byte in bytes.iter().rev() {
        if *byte != 0 {
            break;
        }
        used = used.saturating_sub(1);
    }
    used
}

// A write of these bytes.
fn write_of(alloc: Global, at: usize, bytes: &[u8]) -> Result<Call, AllocError> {
    let len = bytes.len();
    let mut copy = Vec::new(alloc);
    copy.extend_from_slice(&bytes[..used(bytes).min(len)])?;
    Ok(Call::Write {
        at,
        bytes: copy,
        len,
    })
}

impl<'a, D: Disk> Recorder<'a, D> {
    pub fn new(alloc: Global, inner: D, clock: &'a AtomicU64, is_even: bool) -> Recorder<'a, D> {
        Recorder {
            inner,
            alloc,
            clock,
            calls: Vec::new(alloc),
            is_even,
        }
    }

    pub fn is_even(&self) -> bool {
        self.is_even
    }
}

impl<'a, D: Disk + Drop> Recorder<'a, D> {
    pub fn into_calls(self) -> Vec<Numbered> {
        self.calls
    }
}

impl<'a, D: Disk> Disk for Recorder<'a, D> {
    ghost seen = { λ r. D.Disk.seen r.inner };

    ghost may_leave = { λ r. D.Disk.may_leave r.inner };

    ghost is_usable = { λ r. D.Disk.is_usable r.inner };

    ghost faults = { λ r. D.Disk.faults r.inner };

    ghost tally_of = { λ r. D.Disk.tally_of r.inner };

    ghost is_rotten = { λ r. D.Disk.is_rotten r.inner };

    ghost key_of = { λ r. D.Disk.key_of r.inner };

    ghost is_clean = { λ r. D.Disk.is_clean r.inner };

    ghost is_fair = { λ r. D.Disk.is_fair r.inner };

    ghost fair_if_clean = { λ r. D.Disk.fair_if_clean r.inner };

    ghost seen_may_stay = { λ r. D.Disk.seen_may_stay r.inner };

    ghost is_mixing = { λ r. D.Disk.is_mixing r.inner };

    fn mixes(&self) -> bool {
        self.inner.mixes()
    }

    fn key(&self) -> u64 {
        self.inner.key()
    }

    fn tally(&self) -> Tally {
        self.inner.tally()
    }

    fn may_be_used(&self) -> bool {
        self.inner.may_be_used()
    }

    fn len(&mut self) -> io::Result<usize> {
        self.inner.len()
    }

    fn read_at(&mut self, at: usize, buf: &mut [u8]) -> io::Result<()> {
        self.inner.read_at(at, buf)
    }

    fn read_checked(&mut self, key: u64, want: u64, at: usize, buf: &mut [u8]) -> io::Result<()> {
        self.inner.read_checked(key, want, at, buf)
    }

    fn write_at(&mut self, at: usize, bytes: &[u8]) -> io::Result<()> {
        let call = write_of(self.alloc, at, bytes);
        keep(&mut self.calls, self.clock, call);
        self.inner.write_at(at, bytes)
    }

    fn set_len(&mut self, len: usize) -> io::Result<()> {
        keep(&mut self.calls, self.clock, Ok(Call::Resize { len }));
        self.inner.set_len(len)
    }

    fn sync(&mut self) -> io::Result<()> {
        keep(&mut self.calls, self.clock, Ok(Call::Sync));
        self.inner.sync()
    }
}
