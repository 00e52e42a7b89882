//! How much memory the process uses, and whether that is more than it may.

ghost use Rattle.std.specs.Prelude.{◌≡◌, ◌&&◌, nat_lt};

use crate::report::Report;
use std::io::{ErrorKind, Read};
use std::rt::Files;
use std::sync::atomic::{AtomicBool, AtomicUsize, Ordering};
use std::sync::{Condvar, Mutex, Wait};
use std::time::{Clock, Duration};
use std::{fs, io};

// The file in which the system says how many pages the process uses, and how many of them are resident.
const PAGES: &str = "/proc/self/statm";

// The bytes of a page, and of what is read of the file.
const PAGE: u64 = 4096;

const ROOM: usize = 128;

// How many milliseconds are between two readings, with a limit and without one.
const LIMITED: u64 = 250;

const UNLIMITED: u64 = 1000;

/// How many bytes of the process are resident in memory, and how many may be.
#[derive(Drop)]
pub struct Memory {
    // The most bytes that may be resident; 0 is no limit.
    most: u64,
    resident: AtomicUsize,
    is_full: AtomicBool,
    has_ended: Mutex<bool>,
    end: Condvar,
}

// Whether more bytes are resident than may be. A limit of 0 is none.
fn is_above(most: u64, resident: u64) -> bool
    ensures { result ≡ (nat_lt 0 most && nat_lt most resident) }
{
    most > 0 && resident > most
}

// The bytes of the second of the numbers of pages, which spaces part.
fn resident_of(text: &[u8]) -> Option<u64> {
    let mut numbers = text.split(|byte| *byte == b' ');
    let _all = numbers.next()?;
    let resident = str::from_utf8(numbers.next()?).ok()?;
    match resident.parse::<u64>() {
        Ok(pages) => Some(pages.saturating_mul(PAGE)),
        Err(_) => None,
    }
}

// How many bytes are resident now.
fn read_resident<R: Files>(rt: &R) -> io::Result<u64> {
    let mut file = fs::File::open(rt, PAGES)?;
    let mut text = [0; ROOM];
    let many = file.read(&mut text)?;
    match resident_of(text.get(..many).unwrap_or(&[])) {
        Some(resident) => Ok(resident),
        None => Err(ErrorKind::Unsupported.into()),
    }
}

impl Memory {
    /// Returns how much memory is used now, of which at most `most` bytes may be; 0 is no limit.
    ///
    /// # Errors
    ///
    /// If there is a limit, and the system doesn't say how much memory is used.
    pub fn start<R: Files>(rt: &R, most: u64) -> io::Result<Memory> {
        let resident = match read_resident(rt) {
            Ok(resident) => resident,
            Err(error) if most > 0 => return Err(error),
            Err(_) => 0,
        };
        Ok(Memory {
            most,
            resident: AtomicUsize::new(resident as usize),
            is_full: AtomicBool::new(is_above(most, resident)),
            has_ended: Mutex::new(false),
            end: Condvar::new(),
        })
    }

    /// Returns how many bytes were resident when they were last read; 0 if the system doesn't say.
    pub fn resident(&self) -> u64 {
        self.resident.load(Ordering::Relaxed) as u64
    }

    /// Returns whether more bytes than may be were resident then.
    pub fn is_full(&self) -> bool {
        self.is_full.load(Ordering::Relaxed)
    }

    /// Reads how much memory is used. What can't be read is as it was.
    pub fn look<R: Files>(&self, rt: &R) {
        if let Ok(resident) = read_resident(rt) {
            self.resident.store(resident as usize, Ordering::Relaxed);
            self.is_full
                .store(is_above(self.most, resident), Ordering::Relaxed);
        }
    }

    /// Returns how many milliseconds are between two readings.
    pub fn interval(&self) -> u64 {
        if self.most > 0 { LIMITED } else { UNLIMITED }
    }

    /// Waits until the next reading. Returns whether there is to be none.
    pub fn wait<R: Wait + Clock>(&self, rt: &R) -> bool {
        let longest = Duration::from_millis(self.interval());
        let mut has_ended = self.has_ended.lock(rt);
        if !*has_ended {
            has_ended = self.end.wait_timeout(rt, has_ended, longest).0;
        }
        *has_ended
    }

    /// Returns what is said of the memory when it has become full, or isn't full any longer.
    pub fn report(&self, is_full: bool) -> Report<'static> {
        let (resident, most) = (self.resident(), self.most);
        if is_full {
            Report::MemoryFull { resident, most }
        } else {
            Report::MemoryUsable { resident, most }
        }
    }

    /// Nobody is to read how much memory is used any more.
    pub fn end<R: Wait>(&self, rt: &R) {
        *self.has_ended.lock(rt) = true;
        self.end.notify_one();
    }
}
