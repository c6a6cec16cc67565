//! A list in slots, some of which are gaps.
ghost use Rattle.std.specs.Prelude.{◌≡◌, ◌+◌, ◌-◌, ◌<◌, ◌∷◌, ◌++◌, [], length, OnOk, OnErr, IsOk, remove};
ghost use Rattle.std.specs.Prelude.{slice_index_or, slice_set as set, vec_capacity};
ghost use Rattle.firm_sequence.specs.Kept.{AreGaps, kept, Splits};

use crate::gaps::{gap_or_end, gaps_before};
use std::alloc::{AllocError, Allocator, Global};
use std::marker::Model;

// Room for the numbers of gaps: one for four slots, so that closing them costs few steps a removal, and 4,096 at most,
// so that few numbers move when one is added.
const SLOTS_PER_GAP: usize = 4;

const MOST_GAPS: usize = 4_096;

/// A list from which an item leaves without the others moving.
#[derive(Drop)]
pub struct Sequence<T: Copy, A: Allocator = Global> {
    slots: Vec<T, A>,
    gaps: Vec<usize, A>,
}

impl<T: Copy, A: Allocator> Model for Sequence<T, A> {
    ghost use Rattle.std.specs.Prelude.{length, vec_capacity, ◌-◌};
    ghost use Rattle.firm_sequence.specs.Items.{Items};
    ghost use Rattle.firm_sequence.specs.Kept.{AreGaps, kept};

    ghost Value = { Items T };

    ghost view = { λ s. record {
      items = kept s.slots.items s.gaps.items;
      room = vec_capacity s.slots - length s.slots.items;
    } };

    ghost invariant = { λ s. AreGaps 0 (length s.slots.items) s.gaps.items };
}

impl<T: Copy, A: Allocator + Copy> Sequence<T, A> {
    /// A list of no items. It takes no memory.
    pub fn new(alloc: A) -> Sequence<T, A>
        ensures items { result.items ≡ [] }
    {
        Sequence {
            slots: Vec::new(alloc),
            gaps: Vec::new(alloc),
        }
    }
}

impl<T: Copy, A: Allocator> Sequence<T, A> {
    /// Number of items.
    pub fn len(&self) -> usize
        ensures { result ≡ length self.now.items }
    {
        self.slots.len() - self.gaps.len()
    }

    /// The item at a place.
    #[inline(always)]
    pub fn at(&self, place: usize) -> &T
        requires { place < length self.now.items }
        ensures { result.now ≡ slice_index_or self.now.items place result.now }
    {
        let before = gaps_before(&self.gaps, place);
        &self.slots[place + before]
    }

    /// Puts an item at a place.
    pub fn set(&mut self, place: usize, item: T)
        requires { place < length self.old.items }
        ensures items { self.new.items ≡ set self.old.items place item }
    {
        let before = gaps_before(&self.gaps, place);
        self.slots[place + before] = item;
    }

    /// Makes room for one more item. The error comes only where memory is refused, and leaves the items as they were.
    pub fn make_room(&mut self) -> Result<(), AllocError>
        ensures items { self.new.items ≡ self.old.items }
        ensures ok { OnOk result (0 < self.new.room) }
        ensures succeeds { 0 < self.old.room → IsOk result }
    {
        if self.slots.len() < self.slots.capacity() {
            return Ok(());
        }
        self.slots.reserve(1)?;
        let wanted = (self.slots.capacity() / SLOTS_PER_GAP).min(MOST_GAPS);
        if self.gaps.capacity() < wanted {
            self.gaps.reserve(wanted - self.gaps.len())?;
        }
        Ok(())
    }

    /// Adds an item last. The error comes only where memory is refused, and leaves the items as they were.
    pub fn push(&mut self, item: T) -> Result<(), AllocError>
        ensures ok { OnOk result (self.new.items ≡ self.old.items ++ item ∷ []) }
        ensures err { OnErr result (self.new.items ≡ self.old.items) }
        ensures succeeds { 0 < self.old.room → IsOk result }
    {
        self.make_room()?;
        self.slots.push(item)?;
        Ok(())
    }

    /// Removes the item at a place. It takes no memory.
    pub fn remove(&mut self, place: usize) -> T
        requires { place < length self.old.items }
        ensures value { result ≡ slice_index_or self.old.items place result }
        ensures items { self.new.items ≡ remove self.old.items place }
    {
        let item = *self.at(place);
        if self.gaps.len() < self.gaps.capacity() {
            let before = gaps_before(&self.gaps, place);
            let Ok(()) = self.gaps.insert(before, place + before) else {
                unreachable!()
            };
        } else {
            close(&mut self.slots, &mut self.gaps);
            self.slots.remove(place);
        }
        item
    }
}

// Moves the items together, into the first slots.
fn close<T: Copy, A: Allocator>(slots: &mut Vec<T, A>, gaps: &mut Vec<usize, A>)
    requires { AreGaps 0 (length slots.old.items) gaps.old.items }
    ensures gaps { gaps.new.items ≡ [] }
    ensures slots { slots.new.items ≡ kept slots.old.items gaps.old.items }
{
    if gaps.is_empty() {
        return;
    }
    let end = slots.len();
    let left = end - gaps.len();
    for count in 0..gaps.len() {
        let gap = gaps[count];
        let next = gap_or_end(gaps, count + 1, end);
        slots.copy_within(gap + 1..next, gap - count);
    }
    slots.truncate(left);
    gaps.clear();
}
