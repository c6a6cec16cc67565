//! The service on one thread, with a watcher that is shown its rounds.

ghost use Rattle.std.specs.Prelude.{◌≡◌, ◌^◌, ℕ, List, Option, [], false, OnOk, OnErr, IfErr, IfSome};
ghost use Rattle.firm_rules.specs.Book.{Book};
ghost use Rattle.firm_table.specs.Openings.{opened};
ghost use Rattle.firm_table.specs.Service.{AnswersFrom, BeginsAnswersFrom, IsWritingFault, ServedFrom, StoppedFrom};
ghost use Rattle.firm_table.specs.Service.{UpToDate, between};
ghost use Rattle.firm_table.specs.declared.faults.ServeFault.TheVariants.{Read};
ghost use Rattle.firm_table.specs.inner.Books.{book_named};
ghost use Rattle.firm_table.specs.inner.Granting.{ToldAs};
ghost use Rattle.firm_table.specs.inner.Serving.{state_of};

use crate::clerk::Clerk;
use crate::faults::ServeFault;
use crate::openings::Opening;
use crate::reading::{MOST_INPUT, serve_lines};
use crate::serving::Service;
use firm_rules::{Command, Name, RecentCosts, Rows};
use firm_text::{Heading, Line, Sink, Source};
use std::alloc::{AllocError, Global};

/// A watcher of a service's rounds, which is shown the tenant's book before each and its rows after it.
pub trait Watcher {
    /// The watcher's record of a round to come: that of the tenant of this name, which has this book.
    ghost awaits: { Self → List ℕ → Book → Type 0 } = { λ _ _ _. Unit {0} };

    /// The tenant of this name is asked for a round, and this is its book: its rows, the costs of its last rounds, and
    /// the number of its commands so far.
    fn before_round(&mut self, name: Name, rows: &Rows, costs: RecentCosts, given: u64)
        ensures { awaits self.new name (record { rows = rows.now; costs = costs; given = given }) };

    /// The round was solved, and these are the rows after it. All answers up to its reply were written. Fails if memory
    /// is refused.
    fn after_round(&mut self, name: Name, rows: &Rows) -> Result<(), AllocError>;
}

/// Answers the lines of an input of at most 2^32 bytes as `serve_one_from` does, regardless of the watcher, and shows
/// it each round. What the watcher writes after a round to another sink, perhaps of the same device, comes after the
/// reply to that round.
///
/// Reads, writes to the writer and ends as `serve_one_from` does, except that `Memory` may also say that the watcher
/// was refused memory.
pub fn serve_watched_from<R: Source, W: Sink, V: Watcher>(
    alloc: Global,
    reader: &mut R,
    writer: &mut W,
    watcher: &mut V,
    opening: Opening<'_>,
) -> Result<(), ServeFault>
    requires reader { R.read_failed reader.old ≡ false }
    requires writer { W.write_failed writer.old ≡ false }
    ensures served { OnOk result (ServedFrom (opened opening.entry) (2 ^ 32)
        (between R.left R.read_failed reader.old reader.new) (between W.written W.write_failed writer.old writer.new)) }
    ensures stopped { IfErr result (StoppedFrom (opened opening.entry) (2 ^ 32)
        (between R.left R.read_failed reader.old reader.new) (between W.written W.write_failed writer.old writer.new)) }
    ensures in_full { IfErr result (λ fault. fault ≡ Read → UpToDate (AnswersFrom (opened opening.entry))
        (between R.left R.read_failed reader.old reader.new) (between W.written W.write_failed writer.old writer.new)) }
{
    let Ok(mut service) = Service::open(alloc, opening, false) else {
        return Err(ServeFault::Memory);
    };
    let mut watched = Watched {
        service: &mut service,
        watcher,
    };
    serve_lines(reader, writer, &mut watched, MOST_INPUT)
}

// The service, and the watcher that is shown its rounds.
#[derive(Drop)]
pub(crate) struct Watched<'s, 'a, 'v, V: Watcher> {
    service: &'s mut Service<'a>,
    watcher: &'v mut V,
}

impl<V: Watcher> Watched<'_, '_, '_, V> {
    // Shows the book before a round of the tenant of this name, if any.
    fn show_before(&mut self, name: Name)
        ensures same { self.new.service.now ≡ self.old.service.now }
        ensures shown { IfSome (book_named self.old.service.now.tenants name) (V.awaits self.new.watcher.now name) }
    {
        if let Some(tenant) = self.service.tenants.tenant_of(name) {
            self.watcher
                .before_round(name, tenant.rows(), tenant.costs(), tenant.given());
        }
    }

    // Shows the rows after a round, if the last answer is the reply to one, once all answers are written.
    fn show_after<W: Sink>(&mut self, writer: &mut W, name: Name) -> Result<(), ServeFault>
        requires { W.write_failed writer.old ≡ false }
        ensures told { OnOk result ((text : List ℕ) (written : Option (List ℕ))
            → ToldAs self.old.service.now.all_granted (state_of self.old.service.now) text written
            (W.written writer.old)
            → ToldAs self.new.service.now.all_granted (state_of self.new.service.now) text written
            (W.written writer.new)) }
        ensures begins { OnErr result ((text : List ℕ) (written : Option (List ℕ))
            → ToldAs self.old.service.now.all_granted (state_of self.old.service.now) text written
            (W.written writer.old)
            → BeginsAnswersFrom (opened self.old.service.now.opening) text written (W.written writer.new)) }
        ensures cause { IfErr result (λ fault. IsWritingFault fault (W.write_failed writer.new)) }
        ensures well { OnOk result (W.write_failed writer.new ≡ false) }
        ensures opening { opened self.new.service.now.opening ≡ opened self.old.service.now.opening }
    {
        if !self.service.tenants.has_solved() {
            return Ok(());
        }
        self.service.finish(writer)?;
        let Some(tenant) = self.service.tenants.tenant_of(name) else {
            return Ok(());
        };
        match self.watcher.after_round(name, tenant.rows()) {
            Ok(()) => Ok(()),
            Err(_) => Err(ServeFault::Memory),
        }
    }
}

// The clerk that answers as the service does, and shows each round to the watcher.
impl<V: Watcher> Clerk for Watched<'_, '_, '_, V> {
    ghost kept = { λ _. tt };

    ghost opening = { λ watched. opened watched.service.now.opening };

    ghost is_open = { λ _. Unit {0} };

    ghost told = { λ watched. ToldAs watched.service.now.all_granted (state_of watched.service.now) };

    ghost is_written_out = { λ watched. watched.service.now.output.items ≡ [] };

    ghost is_finished = { λ watched. watched.service.now.output.items ≡ [] };

    fn heading(&self) -> Heading {
        self.service.heading()
    }

    fn answer<W: Sink>(&mut self, writer: &mut W, line: Line) -> Result<(), ServeFault> {
        let Some(name) = round_of(&line) else {
            return self.service.answer(writer, line);
        };
        self.show_before(name);
        match self.service.answer(writer, line) {
            Ok(()) => self.show_after(writer, name),
            Err(fault) => Err(fault),
        }
    }

    fn write_out<S: Source, W: Sink>(
        &mut self,
        reader: &mut S,
        writer: &mut W,
    ) -> Result<(), ServeFault> {
        self.service.write_out(reader, writer)
    }

    fn finish<W: Sink>(&mut self, writer: &mut W) -> Result<(), ServeFault> {
        self.service.finish(writer)
    }
}

// The name of the tenant that the line asks for a round.
fn round_of(line: &Line) -> Option<Name> {
    match line {
        Line::For(name, Command::Round) => Some(*name),
        _ => None,
    }
}
