//! What may be done with a map whose rows are in a folder, and what is answered.

use mt_asked::asked::Asked;
use mt_types::event::Answer;
use mt_types::refusal::Refusal;

/// A turn of a map whose rows are in a folder.
#[derive(Clone, Copy)]
pub enum Turn<'a> {
    /// The map is asked: [`mt_map::map::Map::ask`].
    Ask(Asked<'a>),
    /// The next commits of the map are written to the log, at most a thousand: [`mt_map_folder::log::MapLog::write`].
    Write,
    /// What was written is made durable: [`mt_map_folder::log::MapLog::sync`].
    Sync,
    /// A round of a checkpoint is made, if one is due, or `begins` is true: [`mt_map_folder::log::MapLog::advance`].
    Advance { begins: bool },
}

/// What a turn has answered.
#[derive(Debug, PartialEq, Eq, Drop)]
pub enum Told {
    /// What the map has answered, or why it has refused.
    Answered(Result<Answer, Refusal>),
    /// The commits are written.
    Written,
    /// No crash undoes the commits up to this number.
    Durable(u64),
    /// The round was made, or none was due. Whether the checkpoint has to be continued.
    Advanced(bool),
}
