//! The machines that a task prefers.
ghost use Rattle.std.specs.Prelude.{◌≡◌, ◌<◌, ◌≤◌, [], length, bytes_eq};
ghost use Rattle.std.specs.List.{IsDistinct};
ghost use Rattle.firm_rules.specs.Names.{is_among};
ghost use Rattle.firm_rules.specs.Preferences.{with_preference, without_preference};

use crate::names::Name;
use std::marker::Model;

/// A task prefers at most this many machines.
pub const MOST_PREFERENCES: usize = 4;

/// The names of the machines that a task prefers, 4 at most, each once, in the order in which they were given.
#[derive(Clone, Copy, PartialEq, Eq)]
pub struct Preferred {
    // The names past the length are a hyphen.
    names: [Name; MOST_PREFERENCES],
    len: u8,
}

impl Model for Preferred {
    ghost use Rattle.std.specs.Prelude.{ℕ, List, length, take};

    ghost Value = { List (List ℕ) };

    ghost use Rattle.firm_rules.specs.inner.Padding.{padded_preferences, ArePreferences};
    ghost use Rattle.std.proofs.Common.{sym};

    ghost view = { λ p. take p.len p.names };

    ghost invariant = { λ p. ArePreferences p.names p.len };

    ghost inverse = { λ names. record { names = padded_preferences names; len = length names } };

    ghost inverse_ok = { λ p kept i. record { names = sym kept.rest i; len = kept.counted i } };
}

impl Preferred {
    /// No preferences.
    pub fn new() -> Preferred
        ensures { result ≡ [] }
    {
        Preferred {
            names: [Name::hyphen(); MOST_PREFERENCES],
            len: 0,
        }
    }

    /// Adds the machine of this name last. Where it is among them already nothing changes.
    pub fn add(&mut self, name: Name)
        requires { length self.old < 4 }
        ensures { self.new ≡ with_preference self.old name }
    {
        if self.contains(name) {
            return;
        }
        self.names[self.len as usize] = name;
        self.len += 1;
    }

    /// The names, in the order in which they were given.
    pub fn as_slice(&self) -> &[Name]
        ensures names { result.now ≡ self.now }
        ensures few { length self.now ≤ 4 }
        ensures differ { IsDistinct bytes_eq self.now }
    {
        &self.names[..self.len as usize]
    }

    /// How many there are, 4 at most.
    pub fn len(&self) -> usize
        ensures value { result ≡ length self.now }
        ensures most { result ≤ 4 }
    {
        self.len as usize
    }

    /// Whether the machine of this name is among them.
    pub fn contains(&self, name: Name) -> bool
        ensures { result ≡ is_among self.now name }
    {
        self.as_slice().iter().any(|other| name == *other)
    }

    // The preferences without the machine of this name; the others keep their order.
    pub(crate) fn without(&self, name: Name) -> Preferred
        ensures { result ≡ without_preference name self.now }
    {
        let mut left = Preferred::new();
        for other in self.as_slice() {
            if name != *other {
                left.add(*other);
            }
        }
        left
    }
}
