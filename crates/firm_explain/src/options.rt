//! The command line: `firm_explain --roster FILE [--tenant NAME] [--why TASK] [--machine SLOTS] [--all] [--rows]`, or
//! with `--state FILE` in the roster's place.

ghost use Rattle.std.specs.Prelude.{◌≡◌, IfOk, MatchOption, MatchResult, map};
ghost use Rattle.clap.specs.Words.{FailsBy};
ghost use Rattle.firm_program.specs.Options.{HasRule, text_of};
ghost use Rattle.firm_explain.specs.CommandLine.{all_option, faults_in, machine_option, rows_option, tenant_option};
ghost use Rattle.firm_explain.specs.CommandLine.{flag_option, Gives, IsFlag, IsNoName, rows_given, why_option};
ghost use Rattle.firm_explain.specs.inner.Asking.{AsksFor, IsCommandLine, IsNameIfGiven, MisasksFor};

use clap::{Arg, ArgAction, Command, Error, value_parser};
use firm_program::{Fault, Named, WordsFault, option, roster_option, state_option};
use firm_rules::{Name, Slots};
use std::alloc::{AllocError, Global};
use std::convert::AsStr;

// The end of the help, after the options.
const MEASURING: &str = "\
firm_explain measure answers without reasons, on one thread, and can tell how
much each round took: see firm_explain measure --help.";

/// The words of the command line by their options.
#[derive(Drop)]
pub(crate) struct Given<'a> {
    /// The path of the roster's file, as it stands, if it is given.
    pub(crate) roster: Option<&'a str>,
    /// The path of the state's file, likewise.
    pub(crate) state: Option<&'a str>,
    /// The tenant whose rounds are explained, if it is one alone.
    pub(crate) tenant: Option<&'a str>,
    /// The task whose choices are all given.
    pub(crate) why: Option<&'a str>,
    /// The slots of one more machine.
    pub(crate) machine: Option<u8>,
    /// Whether each task that waits has a line.
    pub(crate) all: bool,
    /// Whether the rows before a round have lines.
    pub(crate) rows: bool,
}

/// The options about explained rounds.
#[derive(Clone, Copy)]
pub(crate) struct Request {
    /// The tenant whose rounds are explained; `None` for those of all.
    pub(crate) tenant: Option<Name>,
    /// The task whose choices are all given.
    pub(crate) why: Option<Name>,
    /// The slots of one more machine.
    pub(crate) machine: Option<Slots>,
    /// Whether each task that waits has a line.
    pub(crate) all: bool,
    /// Whether the rows before a round have lines.
    pub(crate) rows: bool,
}

impl Request {
    /// Whether the rounds of the tenant of this name are explained.
    pub(crate) fn is_of(&self, name: Name) -> bool {
        match self.tenant {
            Some(tenant) => tenant == name,
            None => true,
        }
    }
}

/// The file to open with, and the options about explained rounds.
#[derive(Drop)]
pub(crate) struct Asked<'a> {
    pub(crate) named: Named<'a>,
    pub(crate) request: Request,
}

impl<'a> Asked<'a> {
    /// The request in these words. The fault says that they name not one file to open with, or that the word for a
    /// tenant or a task is no name.
    pub(crate) fn of(given: &Given<'a>) -> Result<Asked<'a>, Fault>
        ensures asked { MatchResult result (λ asked. AsksFor given.now asked.named) (MisasksFor given.now) }
        ensures rows { IfOk result (λ asked. asked.request.rows ≡ given.now.rows) }
    {
        let named = Named::one_of(given.roster, given.state)?;
        let Some(tenant) = name_of(given.tenant) else {
            return Err(Fault::Words(WordsFault::NoTenantOrTask));
        };
        let Some(why) = name_of(given.why) else {
            return Err(Fault::Words(WordsFault::NoTenantOrTask));
        };
        let request = Request {
            tenant,
            why,
            machine: slots_of(given.machine),
            all: given.all,
            rows: given.rows,
        };
        Ok(Asked { named, request })
    }
}

// The slots of a machine, if their number is given.
fn slots_of(number: Option<u8>) -> Option<Slots> {
    match number {
        Some(slots) => Slots::check(u64::from(slots)),
        None => None,
    }
}

// The name that the word is, if there is a word; `None` if the word is not a name.
fn name_of(word: Option<&str>) -> Option<Option<Name>>
    ensures { MatchOption result (IsNoName (text_of word.entry)) (λ _. IsNameIfGiven word.entry) }
{
    let Some(word) = word else {
        return Some(None);
    };
    match Name::read(word.as_bytes()) {
        Some(name) => Some(Some(name)),
        None => None,
    }
}

/// Reads the words; the error is a fault in them, the help they ask for, or refused memory.
pub(crate) fn read<'a, S: AsStr>(alloc: Global, words: &'a [S]) -> Result<Given<'a>, Error>
    ensures faults { FailsBy (faults_in (map S.text words.entry.now)) result }
    ensures given { IfOk result (λ given.
        Gives (map S.text words.entry.now) given.roster given.state given.tenant given.why) }
    ensures rows { IfOk result (λ given. IsFlag (rows_given (map S.text words.entry.now)) given.rows) }
{
    let matches = command_line(alloc)?.try_get_matches_from(words)?;
    let roster = matches.get_str("roster");
    let state = matches.get_str("state");
    let tenant = matches.get_str("tenant");
    let why = matches.get_str("why");
    let rows = matches.get_flag("rows");
    Ok(Given {
        roster,
        state,
        tenant,
        why,
        machine: matches.get_one::<u8>("machine"),
        all: matches.get_flag("all"),
        rows,
    })
}

fn command_line<'a>(alloc: Global) -> Result<Command<'a>, AllocError>
    ensures { IfOk result IsCommandLine }
{
    Command::new(alloc, "firm_explain")
        .about("Answers as firm does, and writes after each round why it is the cheapest")
        .after_help(MEASURING)
        .arg(roster_option(alloc))?
        .arg(state_option(alloc))?
        .arg(tenant_option(alloc))?
        .arg(why_option(alloc))?
        .arg(machine_option(alloc))?
        .arg(all_option(alloc))?
        .arg(rows_option(alloc))
}

fn tenant_option<'a>(alloc: Global) -> Arg<'a>
    ensures { HasRule tenant_option result }
{
    option(
        alloc,
        "tenant",
        "NAME",
        "Explains the rounds of this tenant alone",
    )
}

fn why_option<'a>(alloc: Global) -> Arg<'a>
    ensures { HasRule why_option result }
{
    option(alloc, "why", "TASK", "Tells every choice of this task")
}

fn machine_option<'a>(alloc: Global) -> Arg<'a>
    ensures { HasRule machine_option result }
{
    option(
        alloc,
        "machine",
        "SLOTS",
        "Tells what one more machine would save",
    )
    .value_parser(value_parser!(u8).range(1..=64))
}

fn all_option<'a>(alloc: Global) -> Arg<'a>
    ensures { HasRule all_option result }
{
    flag(alloc, "all", "Gives each task that waits a line of its own")
}

fn rows_option<'a>(alloc: Global) -> Arg<'a>
    ensures { HasRule rows_option result }
{
    flag(
        alloc,
        "rows",
        "Gives the rows of each round, by which it can be checked alone",
    )
}

/// An option without a value.
pub(crate) fn flag<'a>(alloc: Global, name: &'a str, help: &'a str) -> Arg<'a>
    ensures { HasRule (flag_option name.entry.now) result }
{
    Arg::new(alloc, name)
        .long(name)
        .action(ArgAction::SetTrue)
        .help(help)
}
