//! `firm_explain measure`: answers on one thread, without reasons, and can tell how much each round took.

ghost use Rattle.std.specs.Prelude.{◌≡◌, false};

use crate::options::flag;
use crate::page::Page;
use crate::program::{NAME, Sinks};
use crate::replay::Replay;
use clap::{Arg, ArgMatches, Command, Error};
use firm_program::{
    Fault, Named, answer_words, read_roster, read_state, roster_option, state_option, tell,
};
use firm_table::{MOST_INPUT, Opening, ServeFault, serve_one_from};
use firm_text::{Bytes, Sink, Source, write_all};
use std::alloc::{AllocError, Global};
use std::io::{ErrorKind, Read};

/// The word that asks for it, before its options.
pub(crate) const MEASURE: &str = "measure";

// The words of the command line by their options.
#[derive(Clone, Copy)]
struct Given<'a> {
    roster: Option<&'a str>,
    state: Option<&'a str>,
    way: Way,
}

// The form of the output, and the way to rounds.
#[derive(Clone, Copy)]
struct Way {
    // Set to write a line for each round after the replies.
    counts: bool,
    // Set to answer tenants' lines alone, and to find rounds by searches, without proposals.
    search: bool,
}

/// Answers standard input as the words behind `measure` have it, and returns the exit status.
pub(crate) fn measure<O: Sink, C: Sink, F: Sink>(
    rt: &HostRuntime,
    words: &[String],
    sinks: &mut Sinks<O, C, F>,
) -> u8
    requires { O.write_failed sinks.old.replies ≡ false }
{
    let given = match read(rt.alloc(), words) {
        Ok(given) => given,
        Err(error) => {
            return answer_words(
                NAME,
                rt.alloc(),
                &error,
                &mut sinks.replies,
                &mut sinks.faults,
            );
        }
    };
    match measure_file(rt, given, &mut sinks.replies) {
        Ok(()) => 0,
        Err(fault) => tell(NAME, &mut sinks.faults, &fault),
    }
}

fn read<'a>(alloc: Global, words: &'a [String]) -> Result<Given<'a>, Error> {
    let matches = command_line(alloc)?.try_get_matches_from(words)?;
    Ok(given_by(&matches))
}

fn given_by<'a>(matches: &ArgMatches<'a>) -> Given<'a> {
    Given {
        roster: matches.get_str("roster"),
        state: matches.get_str("state"),
        way: Way {
            counts: matches.get_flag("counts"),
            search: matches.get_flag("search"),
        },
    }
}

fn command_line<'a>(alloc: Global) -> Result<Command<'a>, AllocError> {
    Command::new(alloc, "firm_explain measure")
        .about("Answers as firm does, on one thread")
        .no_binary_name(true)
        .arg(roster_option(alloc))?
        .arg(state_option(alloc))?
        .arg(counts_option(alloc))?
        .arg(search_option(alloc))
}

fn counts_option<'a>(alloc: Global) -> Arg<'a> {
    flag(
        alloc,
        "counts",
        "Tells behind the replies how much each round took",
    )
}

fn search_option<'a>(alloc: Global) -> Arg<'a> {
    flag(
        alloc,
        "search",
        "Finds rounds by searches alone, without proposals",
    )
}

// Measures the service that opens with the file.
fn measure_file<W: Sink>(rt: &HostRuntime, given: Given<'_>, writer: &mut W) -> Result<(), Fault>
    requires { W.write_failed writer.old ≡ false }
{
    match Named::one_of(given.roster, given.state)? {
        Named::Roster(path) => match read_roster(rt, rt.alloc(), path) {
            Ok(roster) => measure_opening(rt, Opening::Roster(&roster), given.way, writer),
            Err(fault) => Err(fault),
        },
        Named::State(path) => match read_state(rt, rt.alloc(), path) {
            Ok(saved) => measure_opening(rt, Opening::State(&saved), given.way, writer),
            Err(fault) => Err(fault),
        },
    }
}

fn measure_opening<W: Sink>(
    rt: &HostRuntime,
    opening: Opening<'_>,
    way: Way,
    writer: &mut W,
) -> Result<(), Fault>
    requires { W.write_failed writer.old ≡ false }
{
    if way.counts || way.search {
        let input = read_input(rt)?;
        measure_input(rt.alloc(), opening, way, &input, writer)
    } else {
        let mut reader = Bytes::new(rt.stdin());
        serve(rt.alloc(), opening, &mut reader, writer)
    }
}

fn measure_input<W: Sink>(
    alloc: Global,
    opening: Opening<'_>,
    way: Way,
    input: &[u8],
    writer: &mut W,
) -> Result<(), Fault>
    requires { W.write_failed writer.old ≡ false }
{
    if !way.search {
        serve(alloc, opening, &mut Bytes::new(input), writer)?;
    }
    let page = replayed(alloc, opening, way, input)?;
    match write_all(writer, page.as_slice()) {
        Ok(()) => Ok(()),
        Err(_) => Err(Fault::Service(ServeFault::Write)),
    }
}

// Answers the input as the service does.
fn serve<I: Source, W: Sink>(
    alloc: Global,
    opening: Opening<'_>,
    reader: &mut I,
    writer: &mut W,
) -> Result<(), Fault>
    requires reader { I.read_failed reader.old ≡ false }
    requires writer { W.write_failed writer.old ≡ false }
{
    match serve_one_from(alloc, reader, writer, opening, MOST_INPUT) {
        Ok(()) => Ok(()),
        Err(cause) => Err(Fault::Service(cause)),
    }
}

// Text to be written once the tenants have answered the input again: their replies, unless the service wrote
// them, and the lines of their rounds.
fn replayed(
    alloc: Global,
    opening: Opening<'_>,
    way: Way,
    input: &[u8],
) -> Result<Page, AllocError> {
    let mut replay = Replay::open(alloc, opening, way.search)?;
    let mut page = Page::new(alloc);
    replay.play(&mut page, input);
    if !way.search {
        page.clear();
    }
    if way.counts {
        replay.put_counts(&mut page);
    }
    page.finish()?;
    Ok(page)
}

fn read_input(rt: &HostRuntime) -> Result<Vec<u8>, Fault> {
    let mut input = Vec::new(rt.alloc());
    match rt.stdin().read_to_end(&mut input) {
        Ok(_) => Ok(input),
        Err(error) => match error.kind() {
            ErrorKind::OutOfMemory => Err(Fault::Service(ServeFault::Memory)),
            _ => Err(Fault::Service(ServeFault::Read)),
        },
    }
}
