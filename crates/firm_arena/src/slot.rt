//! The content of a place that was written: a link of the free list, or a value under its stamp.
ghost use Rattle.std.specs.Prelude.{◌≡◌, ◌+◌, ◌^◌, ◌<◌, Some, None, IfSome, IfNone, slice_index_or, slice_set, IsSome};
ghost use Rattle.std.specs.Borrow.{sem};
ghost use Rattle.firm_arena.specs.inner.Slot.{value_in, IsFreeAt, IsHeldAt, ReadsHeld, Claims};
ghost use Rattle.firm_arena.specs.inner.SlotLends.{lends_held};

use crate::block::Block;

#[derive(Drop)]
pub enum Slot<T> {
    /// Free, with the next place of the free list.
    Free(Option<u32>),
    /// Held under a stamp.
    Held(u64, T),
}

impl<T> Slot<T> {
    pub(crate) fn value_mut(&mut self) -> &mut T
        requires { IsSome (value_in self.old) }
        ensures* writes_back { sem 𝓛 (lends_held T.row self.entry result) }
        ensures value { value_in self.old ≡ Some result.now }
    {
        match self {
            Slot::Held(_, value) => value,
            Slot::Free(_) => unreachable!(),
        }
    }
}

/// Empties a free place, and returns the next one of the free list.
pub(crate) fn unlink<T>(block: &mut Block<Slot<T>>, place: u32) -> Option<u32>
    requires { IsFreeAt block.old place }
    ensures next { slice_index_or block.old place None ≡ Some (Slot.Free result) }
    ensures row { block.new ≡ slice_set block.old place None }
{
    match block.read(place) {
        Slot::Free(next) => next,
        Slot::Held(_, _) => unreachable!(),
    }
}

/// Claims a place that holds nothing, and empties it.
pub(crate) fn claim<T>(
    block: &mut Block<Slot<T>>,
    used: &mut u32,
    first_free: &mut Option<u32>,
) -> u32
    requires linked { IfSome first_free.old (IsFreeAt block.old) }
    requires room { IfNone first_free.old (used.old + 1 < 2 ^ 32) }
    ensures { Claims block.old used.old first_free.old block.new used.new first_free.new result }
{
    match *first_free {
        Some(place) => {
            *first_free = unlink(block, place);
            place
        }
        None => {
            let place = *used;
            *used += 1;
            place
        }
    }
}

/// Empties a place that holds a value, and returns the value.
pub(crate) fn unhold<T>(block: &mut Block<Slot<T>>, place: u32) -> T
    requires { IsHeldAt block.old place }
    ensures value { ReadsHeld block.old place result }
    ensures row { block.new ≡ slice_set block.old place None }
{
    match block.read(place) {
        Slot::Held(_, value) => value,
        Slot::Free(_) => unreachable!(),
    }
}
