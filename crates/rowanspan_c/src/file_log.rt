//! The log of an index, in the files of a folder.

ghost use Rattle.std.specs.Prelude.{◌≡◌};

use mt_log_disk::files::LogDisk;
use mt_map_folder::log::MapLog;

/// The log to which the commits of an index go.
pub struct FileLog {
    pub(crate) log: MapLog<LogDisk>,
}

// Written out so that what a handle does with it is proved over a drop with a name.
impl Drop for FileLog {
    fn drop(self) {
        let FileLog { log: _ } = self;
    }
}
