//! Reading the text of a state.
ghost use Rattle.std.specs.Prelude.{◌≡◌, ◌⊎◌, ◌+◌, Err, IfErr, IfOk, OnOk, MatchResult, ◌≤◌, ◌<◌, ◌^◌};
ghost use Rattle.std.specs.List.{slice_split};
ghost use Rattle.firm_text.specs.Lines.{is_line_feed};
ghost use Rattle.firm_saved.specs.Saved.{AreSoundSaved, IsSoundSaved, SavedIs};
ghost use Rattle.firm_saved.specs.StateLaws.{BeginAlike};
ghost use Rattle.firm_saved.specs.StateText.{state_text};
ghost use Rattle.firm_saved.specs.declared.faults.FaultKind.TheVariants as fault;
ghost use Rattle.firm_saved.specs.Drafts.{empty_draft};
ghost use Rattle.firm_saved.specs.Lines.{pieces_behind};
ghost use Rattle.firm_saved.specs.inner.Kept.{IsSoundDraft, view};
ghost use Rattle.firm_saved.specs.inner.Returned.{GivesState};
ghost use Rattle.firm_saved.specs.Reading.{headed_state, last_row, rows_from, state_of};

use crate::drafts::Draft;
use crate::faults::{FaultKind, StateFault};
use crate::saved::{Places, Saved};
use crate::words::cut;
use firm_rules::loads_are_sums_of_slots;
use firm_text::Heading;
use std::alloc::Global;

const PLAIN: &[u8] = b"firm state 1";

const EXTENDED: &[u8] = b"firm state 1 extended";

impl Saved {
    /// The state that a text is. An error is the text's first fault, or `Memory` where memory ran out.
    pub fn read(alloc: Global, text: &[u8]) -> Result<Saved, StateFault>
        // The result is a sound state, and the text is its one text.
        ensures found { IfOk result (λ saved. IsSoundSaved saved × (text.now ≡ state_text saved)) }
        // The text of a sound state is read as this state, unless memory runs out.
        ensures only { (other : SavedIs) → IsSoundSaved other → text.now ≡ state_text other
            → MatchResult result (λ saved. saved ≡ other) (λ found. found.kind ≡ fault.Memory) }
        // The fault is the first that reading the text finds, line by line.
        ensures refused { IfErr result (λ found. (found.kind ≡ fault.Memory) ⊎ (state_of text.now ≡ Err found)) }
        // Its line: no sound state's text is the same up to and with it.
        ensures first { IfErr result (λ found. (found.kind ≡ fault.Memory) ⊎ ((other : SavedIs)
            → IsSoundSaved other → BeginAlike found.line (state_text other) text.now → ⊥)) }
    {
        loads_are_sums_of_slots();
        read_text(alloc, text)
    }
}

fn read_text(alloc: Global, text: &[u8]) -> Result<Saved, StateFault>
    ensures read { GivesState result (state_of text.now) }
    ensures sound { IfOk result (λ saved. IsSoundSaved saved) }
{
    let (first, behind) = cut(text, b'\n');
    if first == PLAIN {
        read_headed(alloc, Heading::Plain, behind)
    } else if first == EXTENDED {
        read_headed(alloc, Heading::Extended, behind)
    } else {
        Err(StateFault {
            line: 1,
            kind: FaultKind::Version,
        })
    }
}

// The state of this heading, and of what stands from the first line feed on.
fn read_headed(alloc: Global, heading: Heading, behind: &[u8]) -> Result<Saved, StateFault>
    ensures read { GivesState result (headed_state heading (pieces_behind is_line_feed behind.now)) }
    ensures sound { IfOk result (λ saved. IsSoundSaved saved) }
{
    let [_, rest @ ..] = behind else {
        return Err(StateFault {
            line: 2,
            kind: FaultKind::Rows,
        });
    };
    match read_rows(alloc, heading, rest) {
        Ok(places) => Ok(Saved::with_places(heading, places)),
        Err(fault) => Err(fault),
    }
}

fn read_rows(alloc: Global, heading: Heading, text: &[u8]) -> Result<Places, StateFault>
    ensures read { GivesState result (rows_from heading 2 empty_draft (slice_split is_line_feed text.now)) }
    ensures sound { IfOk result (λ places. AreSoundSaved places) }
{
    let mut draft = Draft::new(alloc);
    let mut buffer = Vec::new(alloc);
    read_lines(alloc, heading, text, &mut draft, &mut buffer)
}

fn read_lines(
    alloc: Global,
    heading: Heading,
    text: &[u8],
    draft: &mut Draft,
    buffer: &mut Vec<u8>,
) -> Result<Places, StateFault>
    requires { IsSoundDraft draft.old }
    ensures read { GivesState result (rows_from heading 2 (view draft.old) (slice_split is_line_feed text.now)) }
    ensures sound { IfOk result (λ places. AreSoundSaved places) }
{
    let mut line = 2;
    let mut rest = text;
    loop {
        let (bytes, behind) = cut(rest, b'\n');
        let [_, after @ ..] = behind else {
            return Err(StateFault {
                line,
                kind: FaultKind::Rows,
            });
        };
        match draft.take_line(alloc, heading, buffer, bytes) {
            Ok(None) => {}
            Ok(Some(count)) => return last_row(alloc, draft, line, count, after),
            Err(kind) => return Err(StateFault { line, kind }),
        }
        rest = after;
        line += 1;
    }
}

// The places after the last row, which has to count those before it, and to be the last line.
fn last_row(
    alloc: Global,
    draft: &mut Draft,
    line: u64,
    count: u64,
    rest: &[u8],
) -> Result<Places, StateFault>
    requires sound { IsSoundDraft draft.old }
    requires small { line + 1 < 2 ^ 64 }
    ensures read { GivesState result (last_row line (view draft.old) count (slice_split is_line_feed rest.now)) }
    ensures sound { IfOk result (λ places. AreSoundSaved places) }
{
    if count != line.saturating_sub(2) {
        return Err(StateFault {
            line,
            kind: FaultKind::Rows,
        });
    }
    let places = match draft.finish(alloc) {
        Ok(places) => places,
        Err(fault) => return Err(StateFault { line, kind: fault }),
    };
    if !rest.is_empty() {
        return Err(StateFault {
            line: line + 1,
            kind: FaultKind::Rows,
        });
    }
    Ok(places)
}
