//! The tenant of each place while tenants are admitted and retired.
ghost use Rattle.std.specs.Prelude.{◌≡◌, ◌<◌, ℕ, List, IfOk, IfSome, OnErr, position};
ghost use Rattle.std.specs.Option.{ok_or};
ghost use Rattle.firm_text.specs.Registers.{IsRegister, IsAdmission, first_places, is_free, is_named};
ghost use Rattle.firm_text.specs.Rosters.{most_places};
ghost use Rattle.firm_text.specs.Registers.{place_for, place_in, with_tenant, without_tenant};
ghost use Rattle.firm_text.specs.declared.registers.Entry.{Entry};
ghost use Rattle.firm_text.specs.declared.operator.OperatorRefusal.TheVariants.{NoSuchTenant};

use crate::operator::OperatorRefusal;
use crate::rosters::Roster;
use firm_rules::Name;
use std::marker::Model;

/// A service has this many places.
pub const PLACES: usize = 64;

/// A place is given at most this often, a roster's row included.
pub const MOST_ADMISSIONS: u32 = 32_768;

/// The entry of a place: the tenant that has it, and how often it was given.
#[derive(Clone, Copy, PartialEq, Eq)]
pub struct Entry {
    pub tenant: Option<Name>,
    pub admissions: u32,
}

/// The 64 places of a service: which tenant has which, and how often each was given. None of its calls takes memory.
#[derive(Drop)]
pub struct Register {
    places: [Entry; PLACES],
}

impl Model for Register {
    ghost use Rattle.std.specs.Prelude.{List};
    ghost use Rattle.firm_text.specs.declared.registers.Entry.{Entry};

    ghost Value = { List Entry };

    ghost use Rattle.firm_text.specs.Registers.{IsRegister};

    ghost view = { λ register. register.places };

    ghost invariant = { λ register. IsRegister register.places };
}

impl Register {
    /// The places of the roster's tenants, in its order, and then empty ones. A roster's row counts as an admission.
    pub fn of(roster: &Roster) -> Register
        ensures { result ≡ first_places roster.now.rows }
    {
        let mut places = [Entry::EMPTY; PLACES];
        for at in 0..roster.len() {
            let (name, _limits) = roster.get(at).unwrap();
            places[at] = Entry {
                tenant: Some(name),
                admissions: 1,
            };
        }
        Register { places }
    }

    /// The register of these entries, as a service left them. It asks that they are those of a register.
    pub fn restored(entries: [Entry; PLACES]) -> Register
        requires { IsRegister entries }
        ensures { result ≡ entries }
    {
        Register { places: entries }
    }

    /// The entries of the 64 places, in their order.
    pub fn entries(&self) -> &[Entry]
        ensures entries { result.now ≡ self.now }
        ensures sound { IsRegister self.now }
    {
        &self.places
    }

    /// The place of the tenant of this name, below 64. No two places have one tenant.
    pub fn place_of(&self, name: Name) -> Option<usize>
        ensures place { result ≡ place_in self.now name }
        ensures within { IfSome result (λ place. place < most_places) }
        ensures sound { IsRegister self.now }
    {
        self.places.iter().position(|place| place.is_of(name))
    }

    /// Gives a new tenant of this name the first empty place that has an admission left, of 32,768. The error is
    /// `TenantExists` where a tenant of the name is there, else `Full` where no place may be given; it changes nothing.
    pub fn admit(&mut self, name: Name) -> Result<usize, OperatorRefusal>
        ensures place { result ≡ place_for self.old name }
        ensures within { IfOk result (λ place. place < most_places) }
        ensures sound { IsRegister self.old }
        ensures admitted { IfOk result (λ place. self.new ≡ with_tenant self.old place name) }
        ensures unchanged { OnErr result (self.new ≡ self.old) }
    {
        if self.place_of(name).is_some() {
            return Err(OperatorRefusal::TenantExists);
        }
        let Some(at) = self.free_place() else {
            return Err(OperatorRefusal::Full);
        };
        self.places[at] = Entry {
            tenant: Some(name),
            admissions: self.places[at].admissions + 1,
        };
        Ok(at)
    }

    /// Empties the place of the tenant of this name. The error is `NoSuchTenant` if there is none; it changes
    /// nothing.
    pub fn retire(&mut self, name: Name) -> Result<usize, OperatorRefusal>
        ensures place { result ≡ ok_or (place_in self.old name) NoSuchTenant }
        ensures within { IfOk result (λ place. place < most_places) }
        ensures sound { IsRegister self.old }
        ensures retired { IfOk result (λ place. self.new ≡ without_tenant self.old place) }
        ensures unchanged { OnErr result (self.new ≡ self.old) }
    {
        let Some(at) = self.place_of(name) else {
            return Err(OperatorRefusal::NoSuchTenant);
        };
        self.places[at].tenant = None;
        Ok(at)
    }

    /// Takes back the admission to this place, its count too. It asks that this admission was the last change.
    pub fn undo(&mut self, place: usize)
        requires { (before : List Entry) × (name : List ℕ) × IsAdmission before name place self.old }
        ensures { (before : List Entry) (name : List ℕ) → IsAdmission before name place self.old → self.new ≡ before }
    {
        let places = &mut self.places;
        places[place] = Entry {
            tenant: None,
            admissions: places[place].admissions - 1,
        };
    }

    fn free_place(&self) -> Option<usize>
        ensures { result ≡ position is_free self.now }
    {
        self.places.iter().position(|place| place.is_free())
    }
}

impl Entry {
    /// A place that was never given.
    pub const EMPTY: Entry = Entry {
        tenant: None,
        admissions: 0,
    };

    fn is_of(&self, name: Name) -> bool
        ensures { result ≡ is_named name self.now.tenant }
    {
        match self.tenant {
            Some(tenant) => tenant == name,
            None => false,
        }
    }

    fn is_free(&self) -> bool
        ensures { result ≡ is_free self.now }
    {
        self.tenant.is_none() && self.admissions < MOST_ADMISSIONS
    }
}
