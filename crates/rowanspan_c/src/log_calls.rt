//! The calls of a log that is open: each does what the method of `MapLog` does, and reports what came of it.

ghost use Rattle.rowanspan_c.specs.Logs.{AdvancesFile, SyncsFile, WritesFile};

use crate::file_log::FileLog;
use crate::log_telling::{tell_round, tell_synced, tell_written};
use mt_map::map::Map;

/// Makes all that was written durable, and reports the number of the last commit.
pub(crate) fn sync_file(log: &mut FileLog, told: &mut u64) -> u16
    ensures { SyncsFile log.old log.new result told.new }
{
    let synced = log.log.sync();
    tell_synced(synced, told)
}

/// Writes the next commits, and reports how many the log lacks still.
pub(crate) fn write_file(log: &mut FileLog, index: &Map, told: &mut u64) -> u16
    ensures { WritesFile index.now log.old log.new result told.new }
{
    let written = log.log.write(index);
    *told = log.log.lacking(index);
    tell_written(written)
}

/// Makes a round of a checkpoint, and reports 1 if it has to be continued.
pub(crate) fn advance_file(log: &mut FileLog, index: &Map, begins: bool, told: &mut u64) -> u16
    ensures { AdvancesFile index.now begins log.old log.new result told.new }
{
    let advanced = log.log.advance(index, begins);
    tell_round(advanced, told)
}
