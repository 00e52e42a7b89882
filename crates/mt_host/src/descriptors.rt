//! How many connections may be open at once, for the descriptors that the system allows.

ghost use Rattle.std.specs.Prelude.{◌≡◌, ◌-◌, max, min};
ghost use Rattle.mt_host.specs.declared.descriptors.TheConstants.{OTHERS as OTHER_FILES};

use std::io::Read;
use std::rt::Files;
use std::{fs, io};

/// How many descriptors are left for what is no connection: files, listeners, and what wakes the workers.
pub const OTHERS: u64 = 64;

// The file in which the system says the limits of the process, how its line of descriptors begins, and the bytes that are
// read of it.
const LIMITS: &str = "/proc/self/limits";

const LINE: &[u8] = b"Max open files";

const ROOM: usize = 4096;

// The limit of descriptors that is in force, as the text of the file says it. None, if there is no limit.
fn limit_of(text: &[u8]) -> Option<u64> {
    let mut lines = text.split(|byte| *byte == b'\n');
    let line = lines.find(|line| line.starts_with(LINE))?;
    let mut words = line.get(LINE.len()..)?.split(|byte| *byte == b' ');
    let limit = words.find(|word| !word.is_empty())?;
    str::from_utf8(limit).ok()?.parse::<u64>().ok()
}

fn read_limit<R: Files>(rt: &R) -> io::Result<Option<u64>> {
    let mut file = fs::File::open(rt, LIMITS)?;
    let mut text = [0; ROOM];
    let many = file.read(&mut text)?;
    Ok(limit_of(text.get(..many).unwrap_or(&[])))
}

/// Returns how many descriptors the process may have at once. `None`, if there is no limit, or the system doesn't say it.
pub fn most_descriptors<R: Files>(rt: &R) -> Option<u64> {
    read_limit(rt).unwrap_or(None)
}

/// Returns how many connections may be open at once of `most`, if this number of descriptors may be: at least one.
pub fn connections_within(most: u64, descriptors: u64) -> u64
    ensures { result ≡ min most (max (descriptors - OTHER_FILES) 1) }
{
    most.min(descriptors.saturating_sub(OTHERS).max(1))
}
