//! The opening of a service: its tenants and their books.

ghost use Rattle.std.specs.Prelude.{◌≡◌, ◌<◌, ◌≤◌, All, IfOk, IsSome, length, option_map, slice_index_or};
ghost use Rattle.firm_text.specs.Registers.{most_admissions};
ghost use Rattle.firm_text.specs.Rosters.{most_places};
ghost use Rattle.firm_saved.specs.Saved.{AreGivenInOrder, entry_of, untouched, register_of as register_saved};
ghost use Rattle.firm_table.specs.Places.{StayFits, book_of, opening_places, register_of, unused_place};
ghost use Rattle.firm_table.specs.Openings.{opened, place_opened, places_opened};

use firm_saved::{Saved, SavedPlace, places_are_given_in_order};
use firm_tenant::Tenant;
use firm_text::{Entry, Heading, PLACES, Register, Roster};
use std::alloc::{AllocError, Global};

/// The opening of a service.
#[derive(Clone, Copy)]
pub enum Opening<'a> {
    /// A roster, whose tenants are admitted in its order.
    Roster(&'a Roster),
    /// A saved state, whose tenants go on from their books.
    State(&'a Saved),
}

impl Opening<'_> {
    /// The heading under which the lines of the service are read. It fits the limits of each tenant before the first.
    pub fn heading(&self) -> Heading
        ensures heading { result ≡ (opened self.now).heading }
        ensures fit { All (StayFits (opened self.now).heading) (places_opened self.now) }
    {
        match self {
            Opening::Roster(roster) => roster.heading(),
            Opening::State(saved) => saved.heading(),
        }
    }

    /// Number of places: 64.
    pub fn places(&self) -> usize
        ensures all { result ≡ length (places_opened self.now) }
        ensures most { result ≡ most_places }
    {
        match self {
            Opening::Roster(roster) => {
                // A roster has no more tenants than a service has places.
                prove!(roster.len() <= PLACES);
                PLACES
            }
            Opening::State(saved) => saved.places().len(),
        }
    }

    /// The tenant of each place before the first line, and the number of times that each place was given.
    pub fn register(&self) -> Register
        ensures places { result ≡ register_of (places_opened self.now) }
        ensures in_order { AreGivenInOrder result }
    {
        match self {
            Opening::Roster(roster) => {
                // A roster has a tenant, and a law: its places are given in their order.
                prove!(roster.len() > 0);
                places_are_given_in_order();
                Register::of(roster)
            }
            Opening::State(saved) => restored_register(saved),
        }
    }

    /// How often a place was given before the first line.
    pub fn admissions_at(&self, place: usize) -> u32
        requires { place < most_places }
        ensures count { result ≡ (place_opened self.now place).admissions }
        ensures few { result ≤ most_admissions }
        ensures some { IsSome (place_opened self.now place).stay → 0 < result }
    {
        match self {
            Opening::Roster(roster) => rows_at(roster, place),
            Opening::State(saved) => saved.places()[place].admissions,
        }
    }

    /// The tenant at a place before the first line, if one stays there. Fails only if memory is refused.
    pub fn tenant_at(&self, alloc: Global, place: usize) -> Result<Option<Tenant>, AllocError>
        requires { place < most_places }
        ensures { IfOk result (λ tenant. tenant ≡ option_map book_of (place_opened self.now place).stay) }
    {
        match self {
            Opening::Roster(roster) => admitted_at(alloc, roster, place),
            Opening::State(saved) => restored_at(alloc, saved, place),
        }
    }
}

// The register of a saved state.
fn restored_register(saved: &Saved) -> Register
    ensures places { result ≡ register_saved saved.now.places }
    ensures in_order { AreGivenInOrder result }
{
    let places = saved.places();
    let mut entries = [Entry::EMPTY; PLACES];
    for at in 0..PLACES {
        entries[at] = entry_of(&places[at]);
    }
    Register::restored(entries)
}

// The register's entry of a place.
fn entry_of(place: &SavedPlace) -> Entry
    ensures { result ≡ entry_of place.now }
{
    let tenant = match &place.tenant {
        Some((name, _)) => Some(*name),
        None => None,
    };
    Entry {
        tenant,
        admissions: place.admissions,
    }
}

// 1 for a place of the roster's, and 0 for another.
fn rows_at(roster: &Roster, place: usize) -> u32
    requires { place < most_places }
    ensures count { result ≡ (slice_index_or (opening_places roster.now.rows) place unused_place).admissions }
    ensures few { result ≤ most_admissions }
    ensures some { IsSome (slice_index_or (opening_places roster.now.rows) place unused_place).stay → 0 < result }
{
    // A roster has no more tenants than a service has places.
    prove!(roster.len() <= PLACES);
    match roster.get(place) {
        Some(_) => 1,
        None => 0,
    }
}

// The roster's tenant at a place, if it has one.
fn admitted_at(alloc: Global, roster: &Roster, place: usize) -> Result<Option<Tenant>, AllocError>
    requires { place < most_places }
    ensures { IfOk result (λ tenant. tenant
        ≡ option_map book_of (slice_index_or (opening_places roster.now.rows) place unused_place).stay) }
{
    // A roster has no more tenants than a service has places.
    prove!(roster.len() <= PLACES);
    match roster.get(place) {
        Some((_, limits)) => Ok(Some(Tenant::admit(alloc, limits)?)),
        None => Ok(None),
    }
}

// The tenant that goes on at a place of a saved state, if any.
fn restored_at(alloc: Global, saved: &Saved, place: usize) -> Result<Option<Tenant>, AllocError>
    requires { place < most_places }
    ensures { IfOk result (λ tenant. tenant
        ≡ option_map (λ tenant. tenant.1) (slice_index_or saved.now.places place untouched).tenant) }
{
    let opened = &saved.places()[place];
    match &opened.tenant {
        Some((_, book)) => Ok(Some(Tenant::restore(alloc, book)?)),
        None => Ok(None),
    }
}
