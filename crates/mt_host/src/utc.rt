//! The time of day by which lines are dated, in UTC.

use jiff_core::civil::Date;
use std::fmt;
use std::time::{Clock, SystemTime, UNIX_EPOCH};

const SECONDS_OF_DAY: u64 = 86_400;

/// A second of UTC. It is displayed as in RFC 3339: `2026-11-28T01:02:03Z`.
#[derive(Clone, Copy, Debug, PartialEq, Eq)]
pub struct Utc {
    /// The seconds since 1970 began.
    pub seconds: u64,
}

impl Utc {
    /// Returns the second that it is now. The first second of 1970 if the clock fails.
    pub fn now<R: Clock>(rt: &R) -> Utc {
        let seconds = match SystemTime::now(rt) {
            Ok(time) => match time.duration_since(UNIX_EPOCH) {
                Ok(since) => since.as_secs(),
                Err(_) => 0,
            },
            Err(_) => 0,
        };
        Utc { seconds }
    }

    // Its date. After the year 9999 it is the last day of that year.
    fn date(&self) -> Date {
        match i64::try_from(self.seconds / SECONDS_OF_DAY) {
            Ok(day) => Date::from_unix_epoch_day(day).unwrap_or(Date::MAX),
            Err(_) => Date::MAX,
        }
    }
}

impl fmt::Display for Utc {
    fn fmt<W: fmt::Write>(&self, f: &mut fmt::Formatter<W>) -> fmt::Result {
        let Date {
            year,
            month,
            day,
            ..
        } = self.date();
        let seconds = self.seconds % SECONDS_OF_DAY;
        let (hour, minute, second) = (seconds / 3600, seconds / 60 % 60, seconds % 60);
        write!(
            f,
            "{year:04}-{month:02}-{day:02}T{hour:02}:{minute:02}:{second:02}Z"
        )
    }
}
