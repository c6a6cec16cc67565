//! Joining two states.
ghost use Rattle.std.specs.Prelude.{◌≡◌, All, Some, OnOk};
ghost use Rattle.firm_text.specs.Registers.{IsRegister};
ghost use Rattle.firm_saved.specs.Saved.{AreGivenInOrder, entry_of, IsSoundPlace, register_of};
ghost use Rattle.firm_parts.specs.Parts.{either_heading, joined, joined_by, joined_state};
ghost use Rattle.firm_parts.specs.inner.Joining.{Comes};

use firm_rules::{Book, Name};
use firm_saved::{Saved, SavedPlace, places_are_given_in_order};
use firm_text::{Entry, Heading, OperatorRefusal, PLACES, Register};

/// A tenant that finds no place in another state, and why.
#[derive(Clone, Copy, Debug, PartialEq, Eq)]
pub struct JoinFault {
    pub tenant: Name,
    /// `TenantExists` where a tenant of its name is there, else `Full` where no empty place has an admission left.
    pub refusal: OperatorRefusal,
}

/// The state once the tenants of another have come with their books, in the order of their places. Each gets the first
/// empty place that has an admission left, as if the operator had admitted it. It is extended if one of the two is.
pub fn join(saved: Saved, other: Saved) -> Result<Saved, JoinFault>
    ensures { result ≡ joined_state saved other }
{
    let heading = either_heading(saved.heading(), other.heading());
    let mut places = saved.into_places();
    match settle_all(&mut places, other.into_places()) {
        Ok(()) => Ok(Saved::of(heading, places)),
        Err(fault) => Err(fault),
    }
}

// The heading of two states that are joined.
fn either_heading(first: Heading, second: Heading) -> Heading
    ensures { result ≡ either_heading first second }
{
    match first {
        Heading::Plain => second,
        Heading::Extended => Heading::Extended,
    }
}

// Gives the tenants of the other places a place each. After an error some of them have one.
fn settle_all(places: &mut Vec<SavedPlace>, mut others: Vec<SavedPlace>) -> Result<(), JoinFault>
    requires register { IsRegister (register_of places.old.items) }
    requires in_order { AreGivenInOrder (register_of places.old.items) }
    requires books { All IsSoundPlace places.old.items }
    ensures joined { Comes places.new.items result (joined places.old.items others.items) }
    ensures register { OnOk result (IsRegister (register_of places.new.items)) }
    ensures in_order { OnOk result (AreGivenInOrder (register_of places.new.items)) }
    ensures books { OnOk result (All IsSoundPlace places.new.items) }
{
    let mut register = register(places);
    for at in 0..others.len() {
        settle_tenant(places, &mut register, others[at].tenant.take())?;
    }
    // They are those of a register, as this says.
    register.entries();
    Ok(())
}

// Gives the tenant, if any, the place that the register has for it.
fn settle_tenant(
    places: &mut Vec<SavedPlace>,
    register: &mut Register,
    tenant: Option<(Name, Book)>,
) -> Result<(), JoinFault>
    requires register { register.old ≡ register_of places.old.items }
    requires in_order { AreGivenInOrder register.old }
    requires books { All IsSoundPlace places.old.items }
    ensures joined { Comes places.new.items result (joined_by places.old.items tenant) }
    ensures register { OnOk result (register.new ≡ register_of places.new.items) }
    ensures in_order { OnOk result (AreGivenInOrder register.new) }
    ensures books { OnOk result (All IsSoundPlace places.new.items) }
{
    match tenant {
        Some((name, book)) => settle(places, register, name, book),
        None => Ok(()),
    }
}

// Gives a tenant the place that the register has for it.
fn settle(
    places: &mut Vec<SavedPlace>,
    register: &mut Register,
    name: Name,
    book: Book,
) -> Result<(), JoinFault>
    requires register { register.old ≡ register_of places.old.items }
    requires in_order { AreGivenInOrder register.old }
    requires books { All IsSoundPlace places.old.items }
    ensures joined { Comes places.new.items result (joined_by places.old.items (Some (name, book))) }
    ensures register { OnOk result (register.new ≡ register_of places.new.items) }
    ensures in_order { OnOk result (AreGivenInOrder register.new) }
    ensures books { OnOk result (All IsSoundPlace places.new.items) }
{
    // A name has its form, a book is sound, and the places stay given in their order, as these say.
    name.as_bytes();
    book.given();
    places_are_given_in_order();
    match register.admit(name) {
        Ok(at) => {
            let admissions = places[at].admissions + 1;
            places[at] = SavedPlace {
                admissions,
                tenant: Some((name, book)),
            };
            Ok(())
        }
        Err(refusal) => Err(JoinFault {
            tenant: name,
            refusal,
        }),
    }
}

// The register of these places.
fn register(places: &[SavedPlace]) -> Register
    requires { IsRegister (register_of places.now) }
    ensures { result ≡ register_of places.now }
{
    let mut entries = [Entry::EMPTY; PLACES];
    for at in 0..PLACES {
        entries[at] = entry_of(&places[at]);
    }
    Register::restored(entries)
}

fn entry_of(place: &SavedPlace) -> Entry
    ensures { result ≡ entry_of place.now }
{
    let tenant = match &place.tenant {
        Some((name, _)) => Some(*name),
        None => None,
    };
    Entry {
        tenant,
        admissions: place.admissions,
    }
}
