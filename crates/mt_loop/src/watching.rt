//! The readings of the process's memory: the server's first thread, or that of the log, reads it a few times a second.

use crate::gauge::Gauge;
use std::rt::Files;
use std::sync::Wait;
use std::time::{Clock, Duration, Instant};

/// The readings of the memory, and what was last said of them.
#[derive(Drop)]
pub struct Watch {
    last: Instant,
    was_full: bool,
}

impl Watch {
    /// Returns readings of which the first is due an interval after this time.
    pub fn new(start: Instant) -> Watch {
        Watch {
            last: start,
            was_full: false,
        }
    }

    // Reports when the memory has become full, and when it isn't any longer.
    fn report<R: Wait + Clock + Eprint>(&mut self, gauge: &Gauge<'_, R>) {
        let is_full = gauge.memory.is_full();
        if is_full != self.was_full {
            gauge.reporter.say(gauge.rt, &gauge.memory.report(is_full));
        }
        self.was_full = is_full;
    }

    /// Reads how much memory the process uses, if an interval has passed since it was read.
    pub fn look_if_due<R: Wait + Clock + Files + Eprint>(&mut self, gauge: &Gauge<'_, R>) {
        let interval = Duration::from_millis(gauge.memory.interval());
        let Ok(now) = Instant::now(gauge.rt) else {
            return;
        };
        if now.saturating_duration_since(self.last) >= interval {
            self.last = now;
            gauge.memory.look(gauge.rt);
            self.report(gauge);
        }
    }

    /// Reads how much memory the process uses until nobody is to.
    pub fn look_to_end<R: Wait + Clock + Files + Eprint>(&mut self, gauge: &Gauge<'_, R>) {
        for _ in gauge.rt.forever() {
            self.report(gauge);
            if gauge.memory.wait(gauge.rt) {
                break;
            }
            gauge.memory.look(gauge.rt);
        }
    }
}
