//! A state while its rows are read.
ghost use Rattle.std.specs.Prelude.{◌≡◌, ◌⊎◌, ◌≤◌, ◌<◌, ◌++◌, ◌∷◌, [], OnOk, IfOk, IfSome, Ok, Err, None, Some, length};
ghost use Rattle.std.specs.Prelude.{true, All, MatchResult, option_map, List};
ghost use Rattle.firm_rules.specs.Names.{is_name};
ghost use Rattle.firm_text.specs.Rosters.{most_places};
ghost use Rattle.firm_saved.specs.Saved.{IsSoundPlace, AreSoundSaved, filled};
ghost use Rattle.firm_saved.specs.Drafts.{empty_draft, finished, after_place, has_tenant, place_of};
ghost use Rattle.firm_saved.specs.Drafts.{tenant_fault, taken, whole};
ghost use Rattle.firm_saved.specs.inner.Kept.{AreSoundPlaces, IsSoundDraft, WasGiven, view};
ghost use Rattle.firm_saved.specs.inner.Loads.{view as tenant_view};
ghost use Rattle.firm_saved.specs.inner.Returned.{Gives};
ghost use Rattle.firm_saved.specs.Reading.{line_read, stepped};
ghost use Rattle.firm_saved.specs.declared.rows.Row.TheVariants as row;
ghost use Rattle.firm_saved.specs.declared.faults.FaultKind.TheVariants as fault;

use crate::faults::FaultKind;
use crate::row_lines::row_of;
use crate::rows::Row;
use crate::saved::{Places, SavedPlace};
use crate::tenant_drafts::TenantDraft;
use firm_rules::{Limits, Name};
use firm_text::{Heading, MOST_ADMISSIONS, PLACES};
use std::alloc::{AllocError, Global};
use std::mem;

/// The places that were read, how often the last of them was given, and its tenant so far.
pub struct Draft {
    before: Vec<SavedPlace>,
    present: Option<u32>,
    tenant: Option<TenantDraft>,
}

impl Drop for Draft {
    // Written out, so that who owns a draft has one call where it is dropped.
    fn drop(self) {
        let Self {
            before,
            present: _,
            tenant,
        } = self;
        drop(before);
        drop(tenant);
    }
}

impl Draft {
    /// Nothing was read.
    pub fn new(alloc: Global) -> Draft
        ensures value { view result ≡ empty_draft }
        ensures sound { IsSoundDraft result }
    {
        Draft {
            before: Vec::new(alloc),
            present: None,
            tenant: None,
        }
    }

    /// Takes the next line under this heading, with a buffer to write its row into; gives the count of the last row, if
    /// it is that. The draft is of no use after an error.
    pub fn take_line(
        &mut self,
        alloc: Global,
        heading: Heading,
        buffer: &mut Vec<u8>,
        line: &[u8],
    ) -> Result<Option<u64>, FaultKind>
        requires { IsSoundDraft self.old }
        ensures read { Gives (λ count. (view self.new, count)) result (line_read heading (view self.old) line.now) }
        ensures sound { OnOk result (IsSoundDraft self.new) }
    {
        match row_of(heading, line, buffer) {
            Ok(row) => self.step(alloc, &row),
            Err(kind) => Err(kind),
        }
    }

    // Takes the next row; the count of the last row, if it is that.
    fn step(&mut self, alloc: Global, row: &Row) -> Result<Option<u64>, FaultKind>
        requires { IsSoundDraft self.old }
        ensures read { Gives (λ count. (view self.new, count)) result (stepped (view self.old) row.now) }
        ensures sound { OnOk result (IsSoundDraft self.new) }
    {
        if let Row::Rows(count) = row {
            return Ok(Some(*count));
        }
        self.take(alloc, row)?;
        Ok(None)
    }

    fn take(&mut self, alloc: Global, row: &Row) -> Result<(), FaultKind>
        requires { IsSoundDraft self.old }
        ensures taken { Gives (λ _. view self.new) result (taken (view self.old) row.now) }
        ensures sound { OnOk result (IsSoundDraft self.new) }
    {
        match row {
            Row::Place(admissions) => self.take_place(*admissions),
            Row::Tenant(name, limits, given) => self.take_tenant(alloc, *name, *limits, *given),
            Row::Rows(_) => Err(FaultKind::Row),
            Row::Costs(_) | Row::Machine(_) | Row::Job(_) | Row::Task(_) => {
                match &mut self.tenant {
                    Some(tenant) => tenant.grow(row),
                    None => Err(FaultKind::Row),
                }
            }
        }
    }

    fn take_place(&mut self, admissions: u64) -> Result<(), FaultKind>
        requires { IsSoundDraft self.old }
        ensures taken { Gives (λ _. view self.new) result (after_place (view self.old) admissions) }
        ensures sound { OnOk result (IsSoundDraft self.new) }
    {
        self.close()?;
        if self.before.len() >= PLACES {
            return Err(FaultKind::Places);
        }
        if admissions == 0 || admissions > u64::from(MOST_ADMISSIONS) {
            return Err(FaultKind::BadNumber);
        }
        self.present = Some(admissions as u32);
        Ok(())
    }

    fn take_tenant(
        &mut self,
        alloc: Global,
        name: Name,
        limits: Limits,
        given: u64,
    ) -> Result<(), FaultKind>
        requires { IsSoundDraft self.old }
        ensures taken { Gives (λ _. view self.new) result (taken (view self.old) (row.Tenant name limits given)) }
        ensures sound { OnOk result (IsSoundDraft self.new) }
    {
        if let Some(kind) = self.tenant_fault(name, limits, given) {
            return Err(kind);
        }
        // Only for its contract, by which the name has the form of one.
        name.as_bytes();
        self.tenant = Some(TenantDraft::new(alloc, name, limits, given));
        Ok(())
    }

    fn tenant_fault(&self, name: Name, limits: Limits, given: u64) -> Option<FaultKind>
        ensures { result ≡ tenant_fault (view self.now) name limits given }
    {
        if self.present.is_none() || self.tenant.is_some() {
            return Some(FaultKind::Row);
        }
        if has_tenant(&self.before, name) {
            return Some(FaultKind::Repeated);
        }
        if limits.life() < given {
            return Some(FaultKind::Commands);
        }
        None
    }

    // Moves the present place, if any, to those before it.
    fn close(&mut self) -> Result<(), FaultKind>
        requires { IsSoundDraft self.old }
        ensures closed { Gives (λ _. self.new.before.items) result (whole (view self.old)) }
        ensures none { OnOk result ((self.new.present ≡ None) × (self.new.tenant ≡ None)) }
        ensures sound { OnOk result (AreSoundPlaces self.new.before.items) }
        ensures given { OnOk result (All WasGiven self.new.before.items) }
    {
        let Some(admissions) = self.present.take() else {
            return Ok(());
        };
        let place = place_of(admissions, self.tenant.take())?;
        self.before.push(place)?;
        Ok(())
    }

    /// The places, if the rows end here. The draft is of no use after it.
    pub fn finish(&mut self, alloc: Global) -> Result<Places, FaultKind>
        requires { IsSoundDraft self.old }
        ensures { Gives (λ places. places) result (finished (view self.old)) }
    {
        self.close()?;
        let mut places = mem::replace(&mut self.before, Vec::new(alloc));
        if places.is_empty() {
            return Err(FaultKind::Places);
        }
        fill(&mut places)?;
        Ok(Places::of(places))
    }
}

// A place, with the tenant that was read, if any.
fn place_of(admissions: u32, tenant: Option<TenantDraft>) -> Result<SavedPlace, FaultKind>
    ensures value { result ≡ place_of admissions (option_map tenant_view tenant) }
    ensures sound { IfSome tenant (λ kept. is_name kept.name ≡ true) → IfOk result IsSoundPlace }
{
    match tenant {
        None => Ok(SavedPlace {
            admissions,
            tenant: None,
        }),
        Some(tenant) => {
            let tenant = tenant.finish()?;
            Ok(SavedPlace {
                admissions,
                tenant: Some(tenant),
            })
        }
    }
}

fn has_tenant(places: &[SavedPlace], name: Name) -> bool
    ensures { result ≡ has_tenant places.now name }
{
    places.iter().any(|place| place.is_of(name))
}

// Adds places that were never given, up to the 64th.
fn fill(places: &mut Vec<SavedPlace>) -> Result<(), AllocError>
    requires { length places.old.items ≤ most_places }
    ensures { OnOk result (places.new.items ≡ filled places.old.items) }
{
    while places.len() < PLACES {
        places.push(SavedPlace {
            admissions: 0,
            tenant: None,
        })?;
    }
    Ok(())
}
