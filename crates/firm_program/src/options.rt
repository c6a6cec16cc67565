//! The options that the programs have in common.

ghost use Rattle.firm_program.specs.Options.{IsOption, option_of, roster_option, state_option};

use clap::{Arg, ArgAction};
use std::alloc::Global;

/// The version of the programs.
pub const VERSION: &str = "0.1.0";

/// `--roster FILE`.
pub fn roster_option<'a>(alloc: Global) -> Arg<'a>
    ensures { IsOption roster_option result }
{
    option(alloc, "roster", "FILE", "The roster of tenants, a CSV file")
}

/// `--state FILE`.
pub fn state_option<'a>(alloc: Global) -> Arg<'a>
    ensures { IsOption state_option result }
{
    option(
        alloc,
        "state",
        "FILE",
        "The state to go on from, in place of a roster",
    )
}

/// An option with a value.
pub fn option<'a>(alloc: Global, long: &'a str, value: &'a str, help: &'a str) -> Arg<'a>
    ensures { IsOption (option_of long.entry.now) result }
{
    Arg::new(alloc, long)
        .long(long)
        .value_name(value)
        .action(ArgAction::Set)
        .help(help)
}
