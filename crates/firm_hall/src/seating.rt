//! The states of a hall's places before the first line.
ghost use Rattle.std.specs.Prelude.{◌≡◌, ◌<◌, All, IfOk, length};
ghost use Rattle.firm_text.specs.Rosters.{most_places};
ghost use Rattle.firm_table.specs.Openings.{place_opened, places_opened};
ghost use Rattle.firm_rounds.specs.Passes.{new_puts};
ghost use Rattle.firm_hall.specs.inner.Serving.{opening_state, opening_states};

use crate::desk_states::DeskState;
use crate::desks::Desk;
use crate::empty::EmptyDesk;
use crate::places::Place;
use firm_rounds::PutPass;
use firm_table::Opening;
use firm_text::PLACES;
use std::alloc::{AllocError, Global};

// The state of each place before the first line.
pub(crate) fn open_states(
    alloc: Global,
    opening: Opening<'_>,
    passes: Vec<PutPass>,
) -> Result<Vec<DeskState>, AllocError>
    requires count { length passes.items ≡ most_places }
    requires unused { All (λ p. p.put ≡ 0) passes.items }
    ensures opened { IfOk result (λ states. (id : _)
        → passes.items ≡ new_puts id most_places
        → states.items ≡ opening_states id 0 (places_opened opening.entry)) }
    ensures all { length (places_opened opening.entry) ≡ most_places }
{
    // A service has as many places as there are passes.
    prove!(opening.places() == PLACES);
    let mut states = Vec::with_capacity(alloc, PLACES)?;
    for pass in passes {
        let state = open_state(alloc, opening, states.len(), pass)?;
        states.push_reserved(state);
    }
    Ok(states)
}

// The state of a place before the first line: the desk of its tenant, or an empty one.
fn open_state(
    alloc: Global,
    opening: Opening<'_>,
    at: usize,
    pass: PutPass,
) -> Result<DeskState, AllocError>
    requires low { at < most_places }
    requires unused { pass.put ≡ 0 }
    ensures { IfOk result
        (λ state. state ≡ opening_state pass.queue pass.place (place_opened opening.entry at)) }
{
    let place = Place::given_before(pass, opening.admissions_at(at));
    let Some(tenant) = opening.tenant_at(alloc, at)? else {
        return Ok(DeskState::Empty(EmptyDesk { place }));
    };
    // A life is at most 2^40 commands, and no more were given, so ticket numbers never run out.
    prove!(tenant.limits().life() <= 1 << 40);
    prove!(tenant.life_left() <= 1 << 40);
    Ok(DeskState::Home(Desk::at(place, tenant), false))
}
