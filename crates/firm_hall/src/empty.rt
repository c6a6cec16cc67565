//! The empty desks of a hall: places without a tenant.
ghost use Rattle.std.specs.Prelude.{◌≡◌, ◌+◌, ◌<◌, ◌≤◌, ◌^◌, [], ◌∷◌, ◌++◌, IfOk, IfErr, OnOk};
ghost use Rattle.firm_rules.specs.Book.{opening_book};
ghost use Rattle.firm_rounds.specs.Passes.{closing_is};
ghost use Rattle.firm_rounds.specs.Rounds.{share};
ghost use Rattle.firm_text.specs.Registers.{most_admissions};
ghost use Rattle.firm_hall.specs.Desks.{desk_is, spent_place};
ghost use Rattle.firm_hall.specs.Admissions.{IsAdmitFault};

use crate::desks::Desk;
use crate::places::Place;
use firm_rounds::Closing;
use firm_rules::Limits;
use firm_tenant::Tenant;
use std::alloc::Global;
use std::marker::Model;

/// A place without a tenant; its holder may admit one. Contracts see its hall, which place it is, how many rounds were
/// asked there and how often the place was given.
#[derive(Drop)]
pub struct EmptyDesk {
    pub(crate) place: Place,
}

impl Model for EmptyDesk {
    ghost use Rattle.firm_hall.specs.Desks.{PlaceIs};

    ghost Value = { PlaceIs };

    ghost view = { λ d. d.place };
}

/// Why no tenant was admitted. The empty desk is given back unchanged.
#[derive(Drop)]
pub enum AdmitFault {
    /// The place was given 32,768 times, counting a row of the roster as one.
    Worn(EmptyDesk),
    /// Memory was refused. No admission is used.
    Memory(EmptyDesk),
}

impl EmptyDesk {
    /// Admits a tenant with these limits: its desk has the opening book, and its tickets are numbered on from those of
    /// the tenants before it. Never waits.
    pub fn admit(self, alloc: Global, limits: Limits) -> Result<Desk, AdmitFault>
        ensures admitted { IfOk result (λ desk. desk
            ≡ desk_is self.queue self.place self.put (self.admissions + 1) (opening_book limits)) }
        ensures left { OnOk result (self.admissions < most_admissions) }
        ensures fault { IfErr result (IsAdmitFault self) }
    {
        if self.place.is_worn() {
            return Err(AdmitFault::Worn(self));
        }
        let Ok(tenant) = Tenant::admit(alloc, limits) else {
            return Err(AdmitFault::Memory(self));
        };
        // A life is at most 2^40 commands, so ticket numbers never run out.
        prove!(limits.life() <= 1 << 40);
        let EmptyDesk { place } = self;
        Ok(Desk::at(place.given(), tenant))
    }

    // Hands in the pass.
    pub(crate) fn give(&mut self, closing: &mut Closing)
        requires { self.old.queue ≡ closing.old.id }
        ensures closing { closing.new
            ≡ closing_is closing.old.id (closing.old.shares ++ share self.old.place self.old.put [] ∷ []) }
        ensures desk { self.new ≡ spent_place self.old }
    {
        self.place.give(closing);
    }
}
