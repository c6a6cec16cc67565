//! The state of a service.
ghost use Rattle.std.specs.Prelude.{◌≡◌, All};
ghost use Rattle.firm_text.specs.Registers.{is_named};
ghost use Rattle.firm_saved.specs.Saved.{AreSoundSaved, IsSoundSaved, PlaceFits, saved_with, tenant_name};

use firm_rules::{Book, Name};
use firm_text::Heading;
use std::marker::Model;

/// A place of a service: how often it was given, and the tenant that stays there, with its book.
#[derive(Drop)]
pub struct SavedPlace {
    pub admissions: u32,
    pub tenant: Option<(Name, Book)>,
}

impl SavedPlace {
    /// Whether the tenant of this name stays here.
    pub fn is_of(&self, name: Name) -> bool
        ensures { result ≡ is_named name (tenant_name self.now) }
    {
        match &self.tenant {
            Some((tenant, _)) => *tenant == name,
            None => false,
        }
    }
}

/// The 64 places of a service in their order.
pub(crate) struct Places {
    places: Vec<SavedPlace>,
}

impl Drop for Places {
    // Written out, so that who owns places has one call where they are dropped.
    fn drop(self) {
        let Self { places } = self;
        drop(places);
    }
}

impl Model for Places {
    ghost use Rattle.std.specs.Prelude.{List};
    ghost use Rattle.firm_saved.specs.declared.saved.SavedPlace.{SavedPlace as PlaceRow};
    ghost use Rattle.firm_saved.specs.Saved.{AreSoundSaved};

    ghost Value = { List PlaceRow };

    ghost view = { λ p. p.places.items };

    ghost invariant = { λ p. AreSoundSaved p.places.items };
}

impl Places {
    /// These places.
    pub(crate) fn of(places: Vec<SavedPlace>) -> Places
        requires { AreSoundSaved places.items }
        ensures { result ≡ places.items }
    {
        Places { places }
    }

    fn as_slice(&self) -> &[SavedPlace]
        ensures { result.now ≡ self.now }
    {
        &self.places
    }

    fn into_vec(self) -> Vec<SavedPlace>
        ensures { result.items ≡ self }
    {
        let Places { places } = self;
        places
    }
}

/// The state of a service: the heading under which it reads lines, and its places.
pub struct Saved {
    heading: Heading,
    places: Places,
}

impl Drop for Saved {
    // Written out, so that who owns a state has one call where it is dropped.
    fn drop(self) {
        let Self { heading: _, places } = self;
        drop(places);
    }
}

impl Model for Saved {
    ghost use Rattle.firm_saved.specs.Saved.{IsSoundSaved, SavedIs, saved_with};

    ghost Value = { SavedIs };

    ghost view = { λ s. saved_with s.heading s.places };

    ghost invariant = { λ s. IsSoundSaved (saved_with s.heading s.places) };
}

impl Saved {
    /// The state of this heading and these places.
    pub fn of(heading: Heading, places: Vec<SavedPlace>) -> Saved
        requires { IsSoundSaved (saved_with heading places.items) }
        ensures { result ≡ saved_with heading places.items }
    {
        let places = Places::of(places);
        Saved { heading, places }
    }

    /// The state of this heading and these places, which are sound.
    pub(crate) fn with_places(heading: Heading, places: Places) -> Saved
        requires { IsSoundSaved (saved_with heading places) }
        ensures { result ≡ saved_with heading places }
    {
        Saved { heading, places }
    }

    /// The heading, under which a service that goes on from this state reads its lines. Each tenant's limits fit it.
    pub fn heading(&self) -> Heading
        ensures heading { result ≡ self.now.heading }
        ensures fit { All (PlaceFits self.now.heading) self.now.places }
    {
        self.heading
    }

    /// The places, 64 of them. No two have one tenant.
    pub fn places(&self) -> &[SavedPlace]
        ensures places { result.now ≡ self.now.places }
        ensures sound { IsSoundSaved self.now }
    {
        self.places.as_slice()
    }

    /// The places, 64 of them, as their owner.
    pub fn into_places(self) -> Vec<SavedPlace>
        ensures places { result.items ≡ self.places }
        ensures sound { IsSoundSaved self }
    {
        let Saved { heading: _, places } = self;
        places.into_vec()
    }
}
