//! The program, over any reader and writers.

ghost use Rattle.std.specs.Prelude.{◌≡◌, ◌^◌, false, OnOk, IfErr, MatchResult, map};
ghost use Rattle.firm_program.specs.Runs.{ServesFile};
ghost use Rattle.firm_table.specs.Openings.{opened};
ghost use Rattle.firm_table.specs.Service.{ServedFrom, StoppedFrom, device};
ghost use Rattle.firm_explain.specs.Program.{Exits, StopsExplaining};
ghost use Rattle.firm_explain.specs.inner.Asking.{EndsAs};

use crate::explainer::Explainer;
use crate::options::{Asked, Request, read};
use firm_program::{Fault, FileSystem, Named, answer_words, read_roster, read_state, tell};
use firm_table::{Opening, ServeFault, serve_watched_from};
use firm_text::{Sink, Source};
use std::alloc::Global;
use std::convert::AsStr;

/// The program's name, before its faults.
pub(crate) const NAME: &str = "firm_explain";

/// The outputs: replies and the help, reasons, and faults. Replies and reasons may go to one device.
#[derive(Drop)]
pub struct Sinks<O: Sink, C: Sink, F: Sink> {
    pub replies: O,
    pub reasons: C,
    pub faults: F,
}

/// Runs the program on its words, the first of which is its name, and returns its exit status. A failed write to the
/// sink of faults changes no status. The first fault decides, in this order: the command line, the file of the roster
/// or the state, the service, writing the reasons.
pub fn run<R: FileSystem, S: AsStr, I: Source, O: Sink, C: Sink, F: Sink>(
    rt: &R,
    alloc: Global,
    words: &[S],
    reader: &mut I,
    sinks: &mut Sinks<O, C, F>,
) -> u8
    requires reader { I.read_failed reader.old ≡ false }
    requires replies { O.write_failed sinks.old.replies ≡ false }
    ensures { Exits (R.bytes_at rt.now) (map S.text words.now)
        (device (I.left reader.old) (I.left reader.new) (I.read_failed reader.new))
        (device (O.written sinks.old.replies) (O.written sinks.new.replies) (O.write_failed sinks.new.replies)) result }
{
    let given = match read(alloc, words) {
        Ok(given) => given,
        Err(error) => {
            return answer_words(NAME, alloc, &error, &mut sinks.replies, &mut sinks.faults);
        }
    };
    let asked = match Asked::of(&given) {
        Ok(asked) => asked,
        Err(fault) => return tell(NAME, &mut sinks.faults, &fault),
    };
    match serve_file(rt, alloc, &asked, reader, sinks) {
        Ok(()) => 0,
        Err(fault) => tell(NAME, &mut sinks.faults, &fault),
    }
}

// Answers the input for the tenants of the roster's or the state's file, with the reasons of its rounds.
fn serve_file<R: FileSystem, I: Source, O: Sink, C: Sink, F: Sink>(
    rt: &R,
    alloc: Global,
    asked: &Asked<'_>,
    reader: &mut I,
    sinks: &mut Sinks<O, C, F>,
) -> Result<(), Fault>
    requires reader { I.read_failed reader.old ≡ false }
    requires replies { O.write_failed sinks.old.replies ≡ false }
    ensures { MatchResult result
        (λ _. ServesFile (R.bytes_at rt.now) asked.now.named
        (device (I.left reader.old) (I.left reader.new) (I.read_failed reader.new))
        (device (O.written sinks.old.replies) (O.written sinks.new.replies) (O.write_failed sinks.new.replies)))
        (StopsExplaining (R.bytes_at rt.now) asked.now.named
        (device (I.left reader.old) (I.left reader.new) (I.read_failed reader.new))
        (device (O.written sinks.old.replies) (O.written sinks.new.replies) (O.write_failed sinks.new.replies))) }
{
    match asked.named {
        Named::Roster(path) => match read_roster(rt, alloc, path) {
            Ok(roster) => {
                let opening = Opening::Roster(&roster);
                ended(serve_opening(alloc, opening, asked.request, reader, sinks))
            }
            Err(fault) => Err(fault),
        },
        Named::State(path) => match read_state(rt, alloc, path) {
            Ok(saved) => {
                let opening = Opening::State(&saved);
                ended(serve_opening(alloc, opening, asked.request, reader, sinks))
            }
            Err(fault) => Err(fault),
        },
    }
}

// How the program ends with a service, which says whether reasons could not be written.
fn ended(served: Result<bool, ServeFault>) -> Result<(), Fault>
    ensures { EndsAs served result }
{
    match served {
        Ok(true) => Err(Fault::Service(ServeFault::Write)),
        Ok(false) => Ok(()),
        Err(cause) => Err(Fault::Service(cause)),
    }
}

// Answers the input for the tenants of the opening, and returns whether reasons could not be written.
fn serve_opening<I: Source, O: Sink, C: Sink, F: Sink>(
    alloc: Global,
    opening: Opening<'_>,
    request: Request,
    reader: &mut I,
    sinks: &mut Sinks<O, C, F>,
) -> Result<bool, ServeFault>
    requires reader { I.read_failed reader.old ≡ false }
    requires replies { O.write_failed sinks.old.replies ≡ false }
    ensures served { OnOk result (ServedFrom (opened opening.entry) (2 ^ 32)
        (device (I.left reader.old) (I.left reader.new) (I.read_failed reader.new))
        (device (O.written sinks.old.replies) (O.written sinks.new.replies) (O.write_failed sinks.new.replies))) }
    ensures stopped { IfErr result (StoppedFrom (opened opening.entry) (2 ^ 32)
        (device (I.left reader.old) (I.left reader.new) (I.read_failed reader.new))
        (device (O.written sinks.old.replies) (O.written sinks.new.replies) (O.write_failed sinks.new.replies))) }
{
    let mut explainer = Explainer::new(alloc, &mut sinks.reasons, request);
    match serve_watched_from(alloc, reader, &mut sinks.replies, &mut explainer, opening) {
        Ok(()) => Ok(explainer.has_failed()),
        Err(cause) => Err(cause),
    }
}
