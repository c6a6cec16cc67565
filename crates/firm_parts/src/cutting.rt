//! Cutting a state to some of its tenants.
ghost use Rattle.std.specs.Prelude.{◌≡◌, is_some};
ghost use Rattle.firm_rules.specs.Names.{is_among};
ghost use Rattle.firm_parts.specs.Parts.{book_in, cut_state, kept_place};
ghost use Rattle.firm_parts.specs.inner.Seats.{is_seated};

use firm_rules::Name;
use firm_saved::{Saved, SavedPlace};

/// Whether a tenant of this name stays at one of the state's places.
pub fn has_tenant(saved: &Saved, name: Name) -> bool
    ensures { result ≡ is_some (book_in saved.now.places name) }
{
    is_seated(saved.places(), name)
}

/// The state with the tenants of these names alone, of the same heading. The others have left, as if the operator had
/// retired them.
pub fn cut_to(saved: Saved, names: &[Name]) -> Saved
    ensures { result ≡ cut_state names.now saved }
{
    let heading = saved.heading();
    let mut places = saved.into_places();
    for at in 0..places.len() {
        keep(&mut places[at], names);
    }
    Saved::of(heading, places)
}

fn is_seated(places: &[SavedPlace], name: Name) -> bool
    ensures { result ≡ is_seated places.now name }
{
    places.iter().any(|place| place.is_of(name))
}

// Has the tenant of a place leave, unless it has one of these names.
fn keep(place: &mut SavedPlace, names: &[Name])
    ensures { place.new ≡ kept_place names.now place.old }
{
    let stays = match &place.tenant {
        Some((name, _)) => is_among(names, *name),
        None => true,
    };
    if !stays {
        place.tenant = None;
    }
}

fn is_among(names: &[Name], name: Name) -> bool
    ensures { result ≡ is_among names.now name }
{
    names.iter().any(|other| *other == name)
}
