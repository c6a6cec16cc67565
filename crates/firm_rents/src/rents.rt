//! The rents of a tenant's machines.
ghost use Rattle.std.specs.Prelude.{◌≡◌, ◌^◌, ◌≤◌, ℕ, length, slice_index};
ghost use Rattle.firm_rents.specs.Rents.{rent, AreRents};
ghost use Rattle.firm_rents.specs.Lowest.{IsLowest};
ghost use Rattle.firm_rents.specs.inner.Lowest.{is_neither};

use crate::choices::is_on;
use firm_rules::Choice;
use std::marker::Model;

/// The highest rent.
pub(crate) const MOST_RENT: u64 = 1 << 40;

/// A rent for each machine, in order of addition, 2^40 at most.
#[derive(Drop)]
pub struct Rents {
    table: Vec<u64>,
    // The machines with the three lowest rents: one of them is left if two machines are excluded.
    first: Choice,
    second: Choice,
    third: Choice,
}

impl Model for Rents {
    ghost use Rattle.std.specs.Prelude.{ℕ, List};

    ghost Value = { List ℕ };

    ghost use Rattle.firm_rents.specs.inner.Lowest.{RentsFit};

    ghost view = { λ r. r.table.items };

    ghost invariant = { RentsFit };
}

impl Rents {
    pub(crate) fn of(table: Vec<u64>) -> Rents
        requires small { (j : ℕ) → slice_index table.items j ≤ 2 ^ 40 }
        requires few { length table.items ≤ 4096 }
        ensures { result ≡ table.items }
    {
        let first = lowest_of(table.as_slice(), Choice::Wait, Choice::Wait);
        let second = lowest_of(table.as_slice(), first, Choice::Wait);
        let third = lowest_of(table.as_slice(), first, second);
        Rents {
            table,
            first,
            second,
            third,
        }
    }

    /// The rents, in order of the machines' addition.
    pub fn as_slice(&self) -> &[u64]
        ensures rents { result.now ≡ self.now }
        ensures small { AreRents (length self.now) self.now }
        ensures few { length self.now ≤ 4096 }
    {
        self.table.as_slice()
    }

    /// The rent of a choice: that of its machine, and 0 for waiting.
    pub fn of_choice(&self, choice: Choice) -> u64
        ensures rent { result ≡ rent self.now choice }
        ensures most { result ≤ 2 ^ 40 }
    {
        rent_of(self.table.as_slice(), choice)
    }

    /// The machine with the lowest rent apart from these two, or else `Wait`.
    pub(crate) fn lowest_but(&self, one: Choice, other: Choice) -> Choice
        ensures { IsLowest (slice_index self.now) (length self.now) one other result }
    {
        if is_neither(one, other, self.first) {
            self.first
        } else if is_neither(one, other, self.second) {
            self.second
        } else {
            self.third
        }
    }
}

/// The rent of a choice: that of its machine, and 0 for waiting.
pub(crate) fn rent_of(rents: &[u64], choice: Choice) -> u64
    ensures { result ≡ rent rents.now choice }
{
    match choice {
        Choice::On(place) => rents.get(place as usize).copied().unwrap_or(0),
        Choice::Wait => 0,
    }
}

// The machine with the lowest rent apart from these two, the first if several have it, or else `Wait`.
fn lowest_of(rents: &[u64], one: Choice, other: Choice) -> Choice
    requires { length rents.now ≤ 4096 }
    ensures { IsLowest (slice_index rents.now) (length rents.now) one other result }
{
    let mut lowest = Choice::Wait;
    for place in 0..rents.len() {
        let machine = place as u32;
        let is_lower = match lowest {
            Choice::On(best) => rents[place] < rents[best as usize],
            Choice::Wait => true,
        };
        if is_lower && !is_on(one, machine) && !is_on(other, machine) {
            lowest = Choice::On(machine);
        }
    }
    lowest
}

// Whether the choice is neither of these machines.
fn is_neither(one: Choice, other: Choice, choice: Choice) -> bool
    ensures { result ≡ is_neither one other choice }
{
    match choice {
        Choice::On(place) => !is_on(one, place) && !is_on(other, place),
        Choice::Wait => true,
    }
}
