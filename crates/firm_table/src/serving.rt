//! The service on one thread: the lines of an input are answered in turn.

ghost use Rattle.std.specs.Prelude.{◌≡◌, ◌≤◌, ◌^◌, Bool, [], false, OnOk, IfOk, IfErr};
ghost use Rattle.firm_table.specs.Ends.{ServedTo, TenantsFit};
ghost use Rattle.firm_table.specs.Openings.{opened};
ghost use Rattle.firm_table.specs.Progress.{state_is, tenants_at};
ghost use Rattle.firm_table.specs.Service.{Answers, Served, Stopped, UpToDate, between, device};
ghost use Rattle.firm_table.specs.Service.{AnswersFrom, ServedFrom, StoppedFrom};
ghost use Rattle.firm_table.specs.declared.faults.ServeFault.TheVariants.{Read};
ghost use Rattle.firm_table.specs.inner.Granting.{ToldAs};
ghost use Rattle.firm_table.specs.inner.Serving.{state_of};

use crate::clerk::Clerk;
use crate::faults::ServeFault;
use crate::openings::Opening;
use crate::reading::serve_lines;
use crate::tenants::Tenants;
use crate::writing::write_held;
use firm_tenant::{steps_count_once, unmarked_steps_are_granted};
use firm_text::{Heading, Line, Roster, Sink, Source, admits_what_fits, refuses_for_the_form};
use std::alloc::{AllocError, Global};

/// Once the held answers have this many bytes, they are written before the next line is answered.
const FULL: usize = 4_096;

/// Answers the lines of an input of at most `most` bytes, itself at most 2^32, for the tenants of the roster, which are
/// admitted first. Every answer that can be given is written before each read.
///
/// On `Ok` a read has reached the end of the input, and what was written is the output for all of it. After a fault,
/// what was written is a prefix of the output for the bytes read. `Read` and `Write` say that a call of the reader or
/// the writer failed, `TooLong` that more than `most` bytes were read, and `Memory` that memory for the service itself
/// was refused.
pub fn serve_one<R: Source, W: Sink>(
    alloc: Global,
    reader: &mut R,
    writer: &mut W,
    roster: &Roster,
    most: u64,
) -> Result<(), ServeFault>
    requires some { 1 ≤ most }
    requires most { most ≤ 2 ^ 32 }
    requires reader { R.read_failed reader.old ≡ false }
    requires writer { W.write_failed writer.old ≡ false }
    ensures served { OnOk result (Served roster.now most
        (device (R.left reader.old) (R.left reader.new) (R.read_failed reader.new))
        (device (W.written writer.old) (W.written writer.new) (W.write_failed writer.new))) }
    ensures stopped { IfErr result (Stopped roster.now most
        (device (R.left reader.old) (R.left reader.new) (R.read_failed reader.new))
        (device (W.written writer.old) (W.written writer.new) (W.write_failed writer.new))) }
    ensures in_full { IfErr result (λ fault. fault ≡ Read → UpToDate (Answers roster.now)
        (device (R.left reader.old) (R.left reader.new) (R.read_failed reader.new))
        (device (W.written writer.old) (W.written writer.new) (W.write_failed writer.new))) }
{
    serve_one_from(alloc, reader, writer, Opening::Roster(roster), most)
}

/// The same as `serve_one`, for a service that opens with a roster or with a saved state.
pub fn serve_one_from<R: Source, W: Sink>(
    alloc: Global,
    reader: &mut R,
    writer: &mut W,
    opening: Opening<'_>,
    most: u64,
) -> Result<(), ServeFault>
    requires some { 1 ≤ most }
    requires most { most ≤ 2 ^ 32 }
    requires reader { R.read_failed reader.old ≡ false }
    requires writer { W.write_failed writer.old ≡ false }
    ensures served { OnOk result (ServedFrom (opened opening.entry) most
        (between R.left R.read_failed reader.old reader.new) (between W.written W.write_failed writer.old writer.new)) }
    ensures stopped { IfErr result (StoppedFrom (opened opening.entry) most
        (between R.left R.read_failed reader.old reader.new) (between W.written W.write_failed writer.old writer.new)) }
    ensures in_full { IfErr result (λ fault. fault ≡ Read → UpToDate (AnswersFrom (opened opening.entry))
        (between R.left R.read_failed reader.old reader.new) (between W.written W.write_failed writer.old writer.new)) }
{
    let Ok(mut service) = Service::open(alloc, opening, false) else {
        return Err(ServeFault::Memory);
    };
    serve_lines(reader, writer, &mut service, most)
}

/// The same as `serve_one_from`, but at the end of the input it returns the tenants, in the state after all lines. It
/// also ends with `Memory` where memory is refused to a line, which is then not answered.
pub fn serve_to_state<R: Source, W: Sink>(
    alloc: Global,
    reader: &mut R,
    writer: &mut W,
    opening: Opening<'_>,
    most: u64,
) -> Result<Tenants, ServeFault>
    requires some { 1 ≤ most }
    requires most { most ≤ 2 ^ 32 }
    requires reader { R.read_failed reader.old ≡ false }
    requires writer { W.write_failed writer.old ≡ false }
    ensures served { IfOk result (ServedTo (opened opening.entry) most
        (between R.left R.read_failed reader.old reader.new) (between W.written W.write_failed writer.old writer.new)) }
    ensures fit { IfOk result (TenantsFit (opened opening.entry).heading) }
    ensures stopped { IfErr result (StoppedFrom (opened opening.entry) most
        (between R.left R.read_failed reader.old reader.new) (between W.written W.write_failed writer.old writer.new)) }
    ensures in_full { IfErr result (λ fault. fault ≡ Read → UpToDate (AnswersFrom (opened opening.entry))
        (between R.left R.read_failed reader.old reader.new) (between W.written W.write_failed writer.old writer.new)) }
{
    let Ok(mut service) = Service::open(alloc, opening, true) else {
        return Err(ServeFault::Memory);
    };
    // The tenants before the first line fit the heading; by laws so does each that a line admits, and steps keep
    // limits.
    opening.heading();
    admits_what_fits();
    steps_count_once();
    match serve_lines(reader, writer, &mut service, most) {
        Ok(()) => Ok(service.tenants),
        Err(fault) => Err(fault),
    }
}

// The tenants at their places, and the answers that are still to be written.
#[derive(Drop)]
pub(crate) struct Service<'a> {
    alloc: Global,
    opening: Opening<'a>,
    pub(crate) tenants: Tenants,
    output: Vec<u8>,
    // Whether the service ends where memory is refused to a line.
    all_granted: bool,
}

impl<'a> Service<'a> {
    pub(crate) fn open(
        alloc: Global,
        opening: Opening<'a>,
        all_granted: bool,
    ) -> Result<Service<'a>, AllocError>
        ensures state { IfOk result (λ service. let before = opened opening.entry in
            state_of service ≡ state_is before (tenants_at before.places) []) }
        ensures granted { IfOk result (λ service. service.all_granted ≡ all_granted) }
    {
        Ok(Service {
            alloc,
            opening,
            tenants: Tenants::open(alloc, opening)?,
            output: Vec::new(alloc),
            all_granted,
        })
    }
}

// The clerk that answers each line at once, and holds answers back only to write many in one call.
impl Clerk for Service<'_> {
    ghost Kept = { Bool };

    ghost kept = { λ service. service.all_granted };

    ghost opening = { λ service. opened service.opening };

    ghost is_open = { λ _. Unit {0} };

    ghost told = { λ service. ToldAs service.all_granted (state_of service) };

    ghost is_written_out = { λ service. service.output.items ≡ [] };

    ghost is_finished = { λ service. service.output.items ≡ [] };

    fn heading(&self) -> Heading {
        self.opening.heading()
    }

    fn answer<W: Sink>(&mut self, writer: &mut W, line: Line) -> Result<(), ServeFault> {
        let before = self.output.len();
        let tenants = &mut self.tenants;
        let Ok(()) = tenants.put_answer(self.alloc, &mut self.output, line, self.all_granted) else {
            // Laws: a line that gets no answer can be taken as one that was not refused memory.
            unmarked_steps_are_granted();
            refuses_for_the_form();
            self.output.truncate(before);
            return match write_held(writer, &mut self.output) {
                Ok(()) => Err(ServeFault::Memory),
                Err(fault) => Err(fault),
            };
        };
        if self.output.len() < FULL {
            return Ok(());
        }
        write_held(writer, &mut self.output)
    }

    fn write_out<S: Source, W: Sink>(
        &mut self,
        reader: &mut S,
        writer: &mut W,
    ) -> Result<(), ServeFault> {
        let _ = reader;
        write_held(writer, &mut self.output)
    }

    fn finish<W: Sink>(&mut self, writer: &mut W) -> Result<(), ServeFault> {
        write_held(writer, &mut self.output)
    }
}
