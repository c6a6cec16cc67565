//! The watcher of the rounds, which writes their reasons.

ghost use Rattle.std.specs.Prelude.{◌≡◌, false, IfSome, Ok, OnOk, Some};
ghost use Rattle.firm_rules.specs.Placement.{Case as CaseRow};
ghost use Rattle.firm_explain.specs.RoundRows.{AwaitsRound, BeginsWith};

use crate::options::Request;
use crate::page::Page;
use crate::reasons::put_reasons;
use crate::rows::put_rows;
use firm_rents::placement_of;
use firm_rules::{Case, Name, RecentCosts, Rows};
use firm_table::Watcher;
use firm_text::{Failed, Sink, write_all};
use std::alloc::{AllocError, Global};
use std::mem;

/// Writes the reasons of rounds as comment lines, after their rows on request. After a failed write it
/// writes no more.
#[derive(Drop)]
pub(crate) struct Explainer<'w, W: Sink> {
    alloc: Global,
    writer: &'w mut W,
    request: Request,
    // The case of the requested round, if it is to be explained; an error if memory was refused.
    case: Result<Option<Case>, AllocError>,
    // The lines of the rows before that round, and those of its reasons. Reused, so that the texts of all rounds take
    // only the memory of the longest.
    rows: Vec<u8>,
    reasons: Page,
    has_failed: bool,
}

impl<'w, W: Sink> Explainer<'w, W> {
    pub(crate) fn new(alloc: Global, writer: &'w mut W, request: Request) -> Explainer<'w, W> {
        Explainer {
            alloc,
            writer,
            request,
            case: Ok(None),
            rows: Vec::new(alloc),
            reasons: Page::new(alloc),
            has_failed: false,
        }
    }

    /// Whether a write has failed.
    pub(crate) fn has_failed(&self) -> bool {
        self.has_failed
    }

    // Stores the rows before a round, on request, and returns the round's case.
    fn await_round(
        &mut self,
        name: Name,
        rows: &Rows,
        costs: RecentCosts,
        given: u64,
    ) -> Result<Option<Case>, AllocError>
        ensures same { self.new.request ≡ self.old.request }
        ensures awaits { AwaitsRound result self.new.rows.items self.new.request.rows name
            (record { rows = rows.now; costs = costs; given = given }) }
    {
        self.rows.clear();
        if self.request.rows {
            put_rows(&mut self.rows, name, rows, costs, given)?;
        }
        Ok(Some(Case::of(self.alloc, rows)?))
    }

    // Writes the reasons of the placement that these rows have, for a round of the case, after the rows before it.
    fn explain(&mut self, rows: &Rows, case: &Case) -> Result<(), AllocError>
        ensures { OnOk result (self.new.has_failed ≡ false
            → BeginsWith (W.written self.old.writer.now) (W.written self.new.writer.now) self.old.rows.items) }
    {
        let placement = placement_of(self.alloc, rows)?;
        put_reasons(&mut self.reasons, rows, case, &placement, self.request);
        self.reasons.finish()?;
        self.write_out();
        Ok(())
    }

    // Writes the rows and the reasons.
    fn write_out(&mut self)
        ensures { self.new.has_failed ≡ false
            → BeginsWith (W.written self.old.writer.now) (W.written self.new.writer.now) self.old.rows.items }
    {
        if !self.has_failed {
            self.has_failed = write_both(self.writer, &self.rows, self.reasons.as_slice()).is_err();
        }
        self.reasons.clear();
    }
}

impl<W: Sink> Watcher for Explainer<'_, W> {
    ghost awaits = { λ explainer. AwaitsRound explainer.case explainer.rows.items explainer.request.rows };

    fn before_round(&mut self, name: Name, rows: &Rows, costs: RecentCosts, given: u64) {
        self.case = if self.request.is_of(name) {
            self.await_round(name, rows, costs, given)
        } else {
            Ok(None)
        };
    }

    fn after_round(&mut self, name: Name, rows: &Rows) -> Result<(), AllocError>
        ensures { OnOk result ((case : CaseRow) → self.old.case ≡ Ok (Some case) → self.new.has_failed ≡ false
            → BeginsWith (W.written self.old.writer.now) (W.written self.new.writer.now) self.old.rows.items) }
    {
        let _ = name;
        match mem::replace(&mut self.case, Ok(None))? {
            Some(case) => self.explain(rows, &case),
            None => Ok(()),
        }
    }
}

// Writes a text, followed by another one.
fn write_both<W: Sink>(writer: &mut W, first: &[u8], second: &[u8]) -> Result<(), Failed>
    ensures { OnOk result (BeginsWith (W.written writer.old) (W.written writer.new) first.now) }
{
    write_all(writer, first)?;
    write_all(writer, second)?;
    Ok(())
}
