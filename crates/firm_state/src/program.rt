//! The program, over any reader and writers.

ghost use Rattle.std.specs.Prelude.{◌≡◌, false, map, MatchResult};
ghost use Rattle.firm_saved.specs.Saved.{IsSoundSaved, SavedIs};
ghost use Rattle.firm_saved.specs.StateText.{state_text};
ghost use Rattle.firm_table.specs.Openings.{opened};
ghost use Rattle.firm_table.specs.Service.{device};
ghost use Rattle.firm_state.specs.Program.{CannotWrite, ChangesText, Exits, FoldsText, FoldsTo, NoChange, NoFold};
ghost use Rattle.firm_state.specs.Program.{NoText, StopsReading, StopsState, TellsState, WritesState, Wrote};
ghost use Rattle.firm_state.specs.inner.Options.{asked_by};

use crate::discard::Discard;
use crate::options::{Request, read};
use crate::states::{cut, join_files};
use firm_program::{Fault, FileSystem, Named, answer_words, read_roster, read_state, tell};
use firm_saved::{Saved, put_state};
use firm_table::{MOST_INPUT, Opening, ServeFault, serve_to_state};
use firm_text::{Sink, Source, write_all};
use std::alloc::Global;
use std::convert::AsStr;

/// The program's name, before its faults.
pub(crate) const NAME: &str = "firm_state";

/// The outputs: one for the state and the help, and one for faults.
#[derive(Drop)]
pub struct Sinks<O: Sink, F: Sink> {
    pub output: O,
    pub faults: F,
}

/// Runs the program on its words, the first of which is its name, and returns its exit status. The state goes to
/// `output`, once all is read and well; a failed write to `faults` changes no status. The first fault decides, in this
/// order: the command line, the file of the roster or the state, the input, the states to join, the tenants to keep,
/// writing.
pub fn run<R: FileSystem, S: AsStr, I: Source, O: Sink, F: Sink>(
    rt: &R,
    alloc: Global,
    words: &[S],
    reader: &mut I,
    sinks: &mut Sinks<O, F>,
) -> u8
    requires reader { I.read_failed reader.old ≡ false }
    requires writer { O.write_failed sinks.old.output ≡ false }
    ensures { Exits (R.bytes_at rt.now) (map S.text words.now)
        (device (I.left reader.old) (I.left reader.new) (I.read_failed reader.new))
        (device (O.written sinks.old.output) (O.written sinks.new.output) (O.write_failed sinks.new.output)) result }
{
    let given = match read(alloc, words) {
        Ok(given) => given,
        Err(error) => {
            return answer_words(NAME, alloc, &error, &mut sinks.output, &mut sinks.faults);
        }
    };
    let request = match Request::of(alloc, given) {
        Ok(request) => request,
        Err(fault) => return tell(NAME, &mut sinks.faults, &fault),
    };
    match write_state(rt, alloc, &request, reader, &mut sinks.output) {
        Ok(()) => 0,
        Err(fault) => tell(NAME, &mut sinks.faults, &fault),
    }
}

// Writes the requested state.
fn write_state<R: FileSystem, I: Source, O: Sink>(
    rt: &R,
    alloc: Global,
    request: &Request<'_>,
    reader: &mut I,
    writer: &mut O,
) -> Result<(), Fault>
    requires reader { I.read_failed reader.old ≡ false }
    requires writer { O.write_failed writer.old ≡ false }
    ensures { MatchResult result
        (λ _. WritesState (R.bytes_at rt.now) (asked_by request.now)
        (device (I.left reader.old) (I.left reader.new) (I.read_failed reader.new))
        (device (O.written writer.old) (O.written writer.new) (O.write_failed writer.new)))
        (StopsState (R.bytes_at rt.now) (asked_by request.now)
        (device (I.left reader.old) (I.left reader.new) (I.read_failed reader.new))
        (device (O.written writer.old) (O.written writer.new) (O.write_failed writer.new))) }
{
    let text = text_asked(rt, alloc, request, reader)?;
    write_out(writer, &text)
}

// Writes all of a text.
fn write_out<O: Sink>(writer: &mut O, text: &[u8]) -> Result<(), Fault>
    requires { O.write_failed writer.old ≡ false }
    ensures { MatchResult result
        (λ _. Wrote text.now (device (O.written writer.old) (O.written writer.new) (O.write_failed writer.new)))
        (CannotWrite text.now (device (O.written writer.old) (O.written writer.new) (O.write_failed writer.new))) }
{
    if write_all(writer, text).is_err() || writer.flush().is_err() {
        return Err(Fault::Service(ServeFault::Write));
    }
    Ok(())
}

// The text of the requested state.
fn text_asked<R: FileSystem, I: Source>(
    rt: &R,
    alloc: Global,
    request: &Request<'_>,
    reader: &mut I,
) -> Result<Vec<u8>, Fault>
    requires { I.read_failed reader.old ≡ false }
    ensures { MatchResult result
        (λ text. TellsState (R.bytes_at rt.now) (asked_by request.now)
        (device (I.left reader.old) (I.left reader.new) (I.read_failed reader.new)) text.items)
        (NoText (R.bytes_at rt.now) (asked_by request.now)
        (device (I.left reader.old) (I.left reader.new) (I.read_failed reader.new))) }
{
    let mut text = text_after(rt, alloc, request.named, reader)?;
    if request.others.is_empty() && request.names.is_empty() {
        return Ok(text);
    }
    change(rt, alloc, request, &mut text)?;
    Ok(text)
}

// The text of the state after the input, of a service that opens with the file.
fn text_after<R: FileSystem, I: Source>(
    rt: &R,
    alloc: Global,
    named: Named<'_>,
    reader: &mut I,
) -> Result<Vec<u8>, Fault>
    requires { I.read_failed reader.old ≡ false }
    ensures { MatchResult result
        (λ text. FoldsText (R.bytes_at rt.now) named.entry
        (device (I.left reader.old) (I.left reader.new) (I.read_failed reader.new)) text.items)
        (NoFold (R.bytes_at rt.now) named.entry
        (device (I.left reader.old) (I.left reader.new) (I.read_failed reader.new))) }
{
    match named {
        Named::Roster(path) => match read_roster(rt, alloc, path) {
            Ok(roster) => fold(alloc, Opening::Roster(&roster), reader),
            Err(fault) => Err(fault),
        },
        Named::State(path) => match read_state(rt, alloc, path) {
            Ok(saved) => fold(alloc, Opening::State(&saved), reader),
            Err(fault) => Err(fault),
        },
    }
}

// The text of the state after the input. Where memory is refused to a line, the state of the service that was given it
// may be another, so that is a fault.
fn fold<I: Source>(alloc: Global, opening: Opening<'_>, reader: &mut I) -> Result<Vec<u8>, Fault>
    requires { I.read_failed reader.old ≡ false }
    ensures { MatchResult result
        (λ text. FoldsTo (opened opening.entry)
        (device (I.left reader.old) (I.left reader.new) (I.read_failed reader.new)) text.items)
        (StopsReading (device (I.left reader.old) (I.left reader.new) (I.read_failed reader.new))) }
{
    let tenants = match serve_to_state(alloc, reader, &mut Discard, opening, MOST_INPUT) {
        Ok(tenants) => tenants,
        Err(fault) => return Err(Fault::Service(fault)),
    };
    let mut text = Vec::new(alloc);
    match tenants.put_state(&mut text, opening.heading()) {
        Ok(()) => Ok(text),
        Err(_) => Err(Fault::Service(ServeFault::Memory)),
    }
}

// Replaces the text of a state by that of the state once others are joined to it, and it is cut to the named tenants.
fn change<R: FileSystem>(
    rt: &R,
    alloc: Global,
    request: &Request<'_>,
    text: &mut Vec<u8>,
) -> Result<(), Fault>
    ensures { MatchResult result
        (λ _. (saved : SavedIs) → IsSoundSaved saved → text.old.items ≡ state_text saved
        → ChangesText (R.bytes_at rt.now) (asked_by request.now) saved text.new.items)
        (λ fault. (saved : SavedIs) → IsSoundSaved saved → text.old.items ≡ state_text saved
        → NoChange (R.bytes_at rt.now) (asked_by request.now) saved fault) }
{
    let alone = Saved::read(alloc, text)?;
    let both = join_files(rt, alloc, alone, &request.others)?;
    let after = cut(both, &request.names)?;
    text.clear();
    put_state(text, &after)?;
    // By this call the state is known to be sound.
    after.places();
    Ok(())
}
