//! The command line: `firm_state --roster FILE [--merge FILE..] [--tenant NAME..]`, or with `--state FILE` in the
//! roster's place.

ghost use Rattle.std.specs.Prelude.{◌≡◌, [], IfOk, MatchResult, map, option_map, unwrap_or};
ghost use Rattle.clap.specs.Words.{FailsBy, found_of, matched_of, raw_values};
ghost use Rattle.firm_state.specs.CommandLine.{faults_in, Gives, NoNames, merge_option, tenant_option, texts};
ghost use Rattle.firm_program.specs.Options.{HasRule};
ghost use Rattle.firm_state.specs.inner.Options.{AreNames, AsksFor, IsCommandLine, MisasksFor};

use clap::{Arg, ArgAction, ArgMatches, Command, Error};
use firm_program::{Fault, Named, VERSION, WordsFault, option, roster_option, state_option};
use firm_rules::Name;
use std::alloc::{AllocError, Global};
use std::convert::AsStr;

// The end of the help, after the options.
const STREAMS: &str = "\
A roster or a state is required.
Input: the lines that firm was given, or would be. All are read, and their
replies are left out. Output: the state after them, a text. After a fault
nothing is written, unless writing itself failed; a state without its last
line, rows N, is a fault in turn.

In firm's repository docs/FORMATS.md says what states are for, and what stands
in them.";

/// The words of the command line by their options.
#[derive(Drop)]
pub(crate) struct Given<'a> {
    /// The path of the roster's file, as it stands, if it is given.
    pub(crate) roster: Option<&'a str>,
    /// The path of the state's file, likewise.
    pub(crate) state: Option<&'a str>,
    /// The paths of the states to join, in their order.
    pub(crate) others: Vec<&'a str>,
    /// The names of the tenants to keep, as they stand; empty to keep all.
    pub(crate) tenants: Vec<&'a str>,
}

/// The request.
#[derive(Drop)]
pub(crate) struct Request<'a> {
    /// The path of the file to open with.
    pub(crate) named: Named<'a>,
    /// The paths of the states to join, in their order.
    pub(crate) others: Vec<&'a str>,
    /// The tenants to keep; empty to keep all.
    pub(crate) names: Vec<Name>,
}

impl<'a> Request<'a> {
    /// The request in these words. The fault says that they name not one file to open with, that a word for a tenant is
    /// no name, or that memory was refused.
    pub(crate) fn of(alloc: Global, given: Given<'a>) -> Result<Request<'a>, Fault>
        ensures { MatchResult result (AsksFor given.entry) (MisasksFor given.entry) }
    {
        let Given {
            roster,
            state,
            others,
            tenants,
        } = given;
        let named = Named::one_of(roster, state)?;
        let names = names_of(alloc, &tenants)?;
        Ok(Request {
            named,
            others,
            names,
        })
    }
}

// The names that the words are, all of them.
fn names_of(alloc: Global, words: &[&str]) -> Result<Vec<Name>, Fault>
    ensures { MatchResult result (λ names. AreNames (texts words.now) names.items) (NoNames (texts words.now)) }
{
    let mut names = Vec::new(alloc);
    for word in words {
        let Some(name) = Name::read(word.as_bytes()) else {
            return Err(Fault::Words(WordsFault::NoTenant));
        };
        names.push(name)?;
    }
    Ok(names)
}

/// Reads the words; the error is a fault in them, the help or the version they ask for, or refused memory.
pub(crate) fn read<'a, S: AsStr>(alloc: Global, words: &'a [S]) -> Result<Given<'a>, Error>
    ensures faults { FailsBy (faults_in (map S.text words.entry.now)) result }
    ensures given { IfOk result (λ given. Gives (map S.text words.entry.now) given.roster given.state
        given.others.items given.tenants.items) }
{
    let matches = command_line(alloc)?.try_get_matches_from(words)?;
    let roster = matches.get_str("roster");
    let state = matches.get_str("state");
    let others = all_of(alloc, &matches, "merge")?;
    let tenants = all_of(alloc, &matches, "tenant")?;
    Ok(Given {
        roster,
        state,
        others,
        tenants,
    })
}

// All values of an option, in their order.
fn all_of<'a>(
    alloc: Global,
    matches: &ArgMatches<'a>,
    option: &str,
) -> Result<Vec<&'a str>, AllocError>
    ensures { IfOk result (λ found. texts found.items
        ≡ unwrap_or (option_map raw_values (matched_of (found_of matches.now) option.now)) []) }
{
    let mut found = Vec::new(alloc);
    if let Some(values) = matches.get_strs(option) {
        found.extend_from_slice(values)?;
    }
    Ok(found)
}

fn command_line<'a>(alloc: Global) -> Result<Command<'a>, AllocError>
    ensures { IfOk result IsCommandLine }
{
    Command::new(alloc, "firm_state")
        .about("Writes the state of a service after the lines of its input")
        .version(VERSION)
        .after_help(STREAMS)
        .arg(roster_option(alloc))?
        .arg(state_option(alloc))?
        .arg(merge_option(alloc))?
        .arg(tenant_option(alloc))
}

fn merge_option<'a>(alloc: Global) -> Arg<'a>
    ensures { HasRule merge_option result }
{
    option(
        alloc,
        "merge",
        "FILE",
        "States of other tenants, which come to it after the lines",
    )
    .action(ArgAction::Append)
    .num_args(1..)
}

fn tenant_option<'a>(alloc: Global) -> Arg<'a>
    ensures { HasRule tenant_option result }
{
    option(
        alloc,
        "tenant",
        "NAME",
        "Writes the state of these tenants alone",
    )
    .action(ArgAction::Append)
    .num_args(1..)
}
