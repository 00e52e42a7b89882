//! How an index is opened: its options.

ghost use Rattle.std.specs.Prelude.{◌≡◌, false, IfOk};
ghost use Rattle.clap.specs.Words.{app_of, rule_of};
ghost use Rattle.mt_command_line.specs.Opening.{aliased_rule, columns_rule, with_index_rules, IsColumns, IsLogCapacity, IsLogRetention};

use crate::numbers::{number, number_option, small_number};
use clap::{Arg, ArgMatches, Command};
use mt_types::limits::{MAX_COLUMNS, MAX_LOG_CAPACITY, MAX_LOG_RETENTION};
use std::alloc::{AllocError, Global};

/// Returns the option `--columns N`.
pub fn columns_option<'a>(alloc: Global) -> Arg<'a>
    ensures rule { rule_of result ≡ columns_rule }
    ensures local { result.global ≡ false }
{
    let help = "How many columns a row has, 1 to 16 [default: 1]";
    number_option(alloc, "columns", 1, MAX_COLUMNS, help)
}

// Returns the option `--name N`, which `--alias N` names too.
fn aliased_option<'a>(
    alloc: Global,
    name: &'a str,
    alias: &'a str,
    least: u64,
    most: u64,
    help: &'a str,
) -> Result<Arg<'a>, AllocError>
    ensures rule { IfOk result (λ r. rule_of r ≡ aliased_rule name.entry.now alias.entry.now least most) }
    ensures local { IfOk result (λ r. r.global ≡ false) }
{
    number_option(alloc, name, least, most, help).visible_alias(alias)
}

/// Adds the options of an index to a command: `--columns N`, `--log-capacity N` and `--log-retention N`. The last two
/// have their former names as aliases, `--feed` and `--keep`.
pub fn index_options<'a>(command: Command<'a>, alloc: Global) -> Result<Command<'a>, AllocError>
    ensures { IfOk result (λ r. app_of r ≡ with_index_rules (app_of command.entry)) }
{
    let capacity =
        "How many commits the log holds for its slowest reader, 1 to 65536 [default: 4096]";
    let retention =
        "How many of the last commits the log keeps for no reader, 0 to 65536 [default: 0]";
    let capacity = aliased_option(alloc, "log-capacity", "feed", 1, MAX_LOG_CAPACITY, capacity)?;
    let retention = aliased_option(
        alloc,
        "log-retention",
        "keep",
        0,
        MAX_LOG_RETENTION,
        retention,
    )?;
    command
        .arg(columns_option(alloc))?
        .arg(capacity)?
        .arg(retention)
}

/// Returns the number of columns that a command line asks for.
pub fn columns(matches: &ArgMatches<'_>) -> u64
    ensures { IsColumns 64 matches.now result }
{
    number(matches, "columns", 1)
}

/// Returns the number of columns that a command line asks for, in eight bits.
pub fn small_columns(matches: &ArgMatches<'_>) -> u8
    ensures { IsColumns 8 matches.now result }
{
    small_number(matches, "columns", 1)
}

/// Returns how many commits the log is to hold for its slowest reader.
pub fn log_capacity(matches: &ArgMatches<'_>) -> u64
    ensures { IsLogCapacity matches.now result }
{
    number(matches, "log-capacity", 4096)
}

/// Returns how many of the last commits the log is to keep for no reader.
pub fn log_retention(matches: &ArgMatches<'_>) -> u64
    ensures { IsLogRetention matches.now result }
{
    number(matches, "log-retention", 0)
}
