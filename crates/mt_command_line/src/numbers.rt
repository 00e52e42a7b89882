//! Options that take a number.

ghost use Rattle.std.specs.Prelude.{◌≡◌, false};
ghost use Rattle.clap.specs.Words.{found_of, one_text, rule_of};
ghost use Rattle.mt_command_line.specs.Numbers.{number_rule, IsNumber};

use clap::builder::ValueParser;
use clap::{Arg, ArgMatches};
use std::alloc::Global;

/// Returns the option `--name N`, which takes a number within these bounds.
pub fn number_option<'a>(
    alloc: Global,
    name: &'a str,
    least: u64,
    most: u64,
    help: &'a str,
) -> Arg<'a>
    ensures rule { rule_of result ≡ number_rule name.entry.now least most }
    ensures local { result.global ≡ false }
{
    Arg::new(alloc, name)
        .long(name)
        .value_name("N")
        .value_parser(ValueParser::Unsigned(least, most))
        .help(help)
}

/// Returns the number that an option was given, or `otherwise` if it was given none.
pub fn number(matches: &ArgMatches<'_>, name: &str, otherwise: u64) -> u64
    ensures { IsNumber 64 (one_text (found_of matches.now) name.now) otherwise result }
{
    match matches.get_one::<u64>(name) {
        Some(given) => given,
        None => otherwise,
    }
}

/// Returns the number that an option was given, or `otherwise` if it was given none: for options whose bounds are
/// below 256.
pub fn small_number(matches: &ArgMatches<'_>, name: &str, otherwise: u8) -> u8
    ensures { IsNumber 8 (one_text (found_of matches.now) name.now) otherwise result }
{
    match matches.get_one::<u8>(name) {
        Some(given) => given,
        None => otherwise,
    }
}
