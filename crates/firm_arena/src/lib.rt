#![tactic(auto)]
//! A map from ids to values with a fixed number of places, in one block of memory that the constructor takes whole. The
//! id of a value that was taken never finds a value again, so a stale id can't reach another's row.
//!
//! Contracts see the record `Arena` of `specs/Arena.antt`; `specs/Steps.antt` applies a list of calls. Every call
//! ensures `IsBoundedMap`: at most `capacity` entries, exactly those that ids find, at different places and with stamps
//! below the counter.
//!
//! The raw pointer is in `src/block.rt` alone, proved against the memory model: a value that was moved out is neither
//! used nor dropped again. No clause says that only constructors take memory, since an arena keeps a handle of the heap
//! for its drop. An arena is `Send` if its values are.
ghost use Rattle.std.specs.Prelude.{◌≡◌, ℕ, ◌+◌, ◌<◌, ◌≤◌, ◌^◌, ◌↔◌, IsOk, IsSome, OnSome, IfSome, IfNone, IfOk, IfErr};
ghost use Rattle.std.specs.Prelude.{OnOk, OnErr, List, Some, None, option_copied};
ghost use Rattle.std.specs.Option.{option_copied_mut};
ghost use Rattle.std.specs.Borrow.{sem};
ghost use Rattle.firm_arena.specs.Arena.{find, held_at, len_of, capacity_of, id_under, vacant, with_put, without};
ghost use Rattle.firm_arena.specs.Arena.{IsVacant, Refuses, IsBoundedMap, SameOthers};
ghost use Rattle.firm_arena.specs.Steps.{Step, after};

mod block;
mod slot;

use block::Block;
use slot::{Slot, claim, unhold};
use std::alloc::{AllocError, Global};
use std::marker::Model;

/// Names a value of an arena: the place where it lies, and a stamp that the arena gives out once.
#[derive(Clone, Copy, PartialEq, Eq, Hash)]
pub struct Id {
    pub place: u32,
    pub stamp: u64,
}

/// Why `Arena::put` did not take a value, which comes back.
#[derive(PartialEq, Debug, Drop)]
pub enum Refused<T> {
    /// As many values are held as the arena has places.
    Full(T),
    /// The counter of stamps is `u64::MAX`, and the arena is not full.
    Worn(T),
}

/// A map from ids to values that holds at most `capacity` of them.
///
/// An id names its value until that is taken, and then nothing, for as long as the arena lives. The id of another arena
/// finds what this one holds under it, or nothing.
pub struct Arena<T> {
    block: Block<Slot<T>>,
    // Takes the block's memory back.
    alloc: Global,
    // The places from here on were never written, so that the constructor writes none.
    used: u32,
    len: u32,
    first_free: Option<u32>,
    // The stamp of the next value.
    counter: u64,
}

impl<T> Model for Arena<T> {
    ghost use Rattle.std.specs.Prelude.{map};
    ghost use Rattle.firm_arena.specs.Arena.{Arena as Map, arena_code};

    ghost Value = { Map T };

    ghost coded = { arena_code T.code };

    ghost use Rattle.firm_arena.specs.inner.Slot.{held_in, IsSound};

    ghost view = { λ a. record { held = map held_in a.block; counter = a.counter } };

    ghost invariant = { λ a. IsSound a.block a.used a.len a.first_free a.counter };
}

impl<T> Arena<T> {
    ghost use Rattle.firm_arena.specs.Lends.{lends_value};

    /// An empty arena of `capacity` places, which takes all its memory now. `Err` where memory is refused, or where
    /// the block would have 2^63 bytes or more.
    pub fn new(alloc: Global, capacity: u32) -> Result<Arena<T>, AllocError>
        ensures empty { IfOk result (λ arena. arena ≡ vacant capacity 0) }
        ensures map { IfOk result (λ arena. IsBoundedMap arena) }
    {
        Arena::with_stamp(alloc, capacity, 0)
    }

    /// `new`, whose first stamp is `first`.
    pub fn with_stamp(alloc: Global, capacity: u32, first: u64) -> Result<Arena<T>, AllocError>
        ensures empty { IfOk result (λ arena. arena ≡ vacant capacity first) }
        ensures map { IfOk result (λ arena. IsBoundedMap arena) }
    {
        Ok(Arena {
            block: Block::new(&alloc, capacity)?,
            alloc,
            used: 0,
            len: 0,
            first_free: None,
            counter: first,
        })
    }

    /// Adds a value under a new id. A full arena refuses with `Full`, and else one without a stamp left with `Worn`.
    pub fn put(&mut self, value: T) -> Result<Id, Refused<T>>
        // The id has a place that held nothing, and the stamp that the counter was at.
        ensures place { IfOk result (λ id. IsVacant self.old id.place) }
        ensures stamp { IfOk result (λ id. id.stamp ≡ self.old.counter) }
        ensures adds { IfOk result (λ id. self.new ≡ with_put self.old id.place value) }

        // The map has the entry and the others, whose stamps are all below the old counter.
        ensures found { IfOk result (λ id. find self.new id ≡ Some value) }
        ensures others { IfOk result (λ id. SameOthers self.old self.new id) }
        ensures kept { OnOk result ((other : Id) → other.stamp < self.old.counter
            → find self.new other ≡ find self.old other) }
        ensures len { OnOk result (len_of self.new ≡ len_of self.old + 1) }

        // It succeeds wherever there is a place and a stamp, and a refusal changes nothing.
        ensures succeeds { IsOk result ↔ (len_of self.old < capacity_of self.old) × (self.old.counter + 1 < 2 ^ 64) }
        ensures refused { IfErr result (Refuses self.old value) }
        ensures unchanged { OnErr result (self.new ≡ self.old) }

        ensures map_before { IsBoundedMap self.old }
        ensures map { IsBoundedMap self.new }
    {
        if self.len == self.block.capacity() {
            return Err(Refused::Full(value));
        }
        if self.counter == u64::MAX {
            return Err(Refused::Worn(value));
        }
        let stamp = self.counter;
        let place = claim(&mut self.block, &mut self.used, &mut self.first_free);
        self.block.write(place, Slot::Held(stamp, value));
        self.len += 1;
        self.counter += 1;
        Ok(Id { place, stamp })
    }

    /// The value of an id.
    pub fn get(&self, id: Id) -> Option<&T>
        ensures value { option_copied result ≡ find self.now id }
        ensures map { IsBoundedMap self.now }
    {
        if id.place >= self.used {
            return None;
        }
        match self.block.get(id.place) {
            Slot::Held(stamp, value) if *stamp == id.stamp => Some(value),
            _ => None,
        }
    }

    /// The value of an id, to write to.
    pub fn get_mut(&mut self, id: Id) -> Option<&mut T>
        ensures* writes_back { sem 𝓛 (lends_value T.row self.entry id result) }
        ensures value { option_copied_mut result ≡ find self.old id }
        ensures map { IsBoundedMap self.old }
    {
        if self.get(id).is_none() {
            return None;
        }
        Some(self.block.get_mut(id.place).value_mut())
    }

    /// Removes the value of an id. That id finds nothing from then on, whatever is put later.
    pub fn take(&mut self, id: Id) -> Option<T>
        ensures value { result ≡ find self.old id }
        ensures removes { OnSome result (self.new ≡ without self.old id.place) }
        ensures unchanged { IfNone result (self.new ≡ self.old) }

        ensures gone { find self.new id ≡ None }
        ensures others { SameOthers self.old self.new id }
        ensures len { OnSome result (len_of self.new + 1 ≡ len_of self.old) }
        ensures never_again { OnSome result ((steps : List (Step T)) → find (after self.new steps) id ≡ None) }

        ensures map_before { IsBoundedMap self.old }
        ensures map { IsBoundedMap self.new }
        ensures stamp { OnSome result (id.stamp < self.new.counter) }
    {
        if self.get(id).is_none() {
            return None;
        }
        let value = unhold(&mut self.block, id.place);
        self.block.write(id.place, Slot::Free(self.first_free));
        self.first_free = Some(id.place);
        self.len -= 1;
        Some(value)
    }

    /// The id of the value at a place, counted from 0.
    pub fn id_at(&self, place: u32) -> Option<Id>
        ensures value { result ≡ id_under self.now place }
        ensures found { IfSome result (λ id. (id.place ≡ place) × IsSome (find self.now id)) }
        ensures only { (stamp : ℕ) → IsSome (find self.now (record { place = place; stamp = stamp }))
            → result ≡ Some (record { place = place; stamp = stamp }) }
        ensures map { IsBoundedMap self.now }
    {
        if place >= self.used {
            return None;
        }
        match self.block.get(place) {
            Slot::Held(stamp, _) => Some(Id {
                place,
                stamp: *stamp,
            }),
            Slot::Free(_) => None,
        }
    }

    /// A place above those of all values and above no place that was never written, so a pass over the values need
    /// not visit all places.
    pub fn used(&self) -> u32
        ensures nothing { (place : ℕ) → result ≤ place → held_at self.now place ≡ None }
        ensures within { result ≤ capacity_of self.now }
    {
        self.used
    }

    /// Number of values in the arena.
    pub fn len(&self) -> u32
        ensures value { result ≡ len_of self.now }
        ensures map { IsBoundedMap self.now }
    {
        self.len
    }

    /// Number of values that can still be added.
    pub fn room(&self) -> u32
        ensures value { result + len_of self.now ≡ capacity_of self.now }
        ensures map { IsBoundedMap self.now }
    {
        self.block.capacity() - self.len
    }

    /// Number of values that fit in all.
    pub fn capacity(&self) -> u32
        ensures value { result ≡ capacity_of self.now }
        ensures map { IsBoundedMap self.now }
    {
        self.block.capacity()
    }
}

impl<T: Drop> Drop for Arena<T> {
    fn drop(self) {
        let Arena {
            mut block,
            alloc,
            used,
            len: _,
            first_free: _,
            counter: _,
        } = self;
        for place in 0..used {
            let _ = block.read(place);
        }
        block.free(&alloc);
    }
}
