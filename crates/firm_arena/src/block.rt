//! A block of memory that is seen as a row of places, each empty or holding a value. All raw pointers are here.
ghost use Rattle.std.specs.Prelude.{◌≡◌, ◌^◌, ◌<◌, List, Option, Some, None, length, replicate, slice_index_or};
ghost use Rattle.std.specs.Prelude.{slice_set, IsSome, IfOk};
ghost use Rattle.std.specs.Borrow.{sem};
ghost use Rattle.std.specs.Vec.Ownership.{FitsInBlock};

use std::alloc::{AllocError, Allocator, Global};
use std::marker::{Model, Send, Sync};
use std::mem::{align_of, size_of};
use std_alloc::room::may_hold;

/// Owns its memory and the values in it. Any `Global` may take the memory back.
pub struct Block<T> {
    start: *mut T,
    capacity: u32,
    ghost row: { List (Option T) },
}

impl<T> Model for Block<T> {
    ghost use Rattle.std.specs.Prelude.{List, Option};
    ghost use Rattle.std.specs.Coded.{coded_list, coded_option};

    ghost Value = { List (Option T) };

    ghost coded = { coded_list (coded_option T.code) };

    ghost use Rattle.firm_arena.specs.inner.Ownership.{block_owns, block_lends};
    ghost use Rattle.firm_arena.specs.inner.Block.{IsBlock};

    ghost view = { λ b. b.row };

    ghost invariant = { IsBlock };

    ghost also_owns = { λ b. block_owns T.row b.start b.capacity b.row };

    ghost also_shares = { λ b _ κ. block_lends T.row b.start b.capacity b.row κ };
}

unsafe impl<T: Send> Send for Block<T> {}

unsafe impl<T: Sync> Sync for Block<T> {}

impl<T> Block<T> {
    ghost use Rattle.firm_arena.specs.inner.BlockLends.{lends_place};

    /// A block of `capacity` empty places. `Err` where memory is refused, or the block would have 2^63 bytes or more.
    pub(crate) fn new(alloc: &Global, capacity: u32) -> Result<Block<T>, AllocError>
        ensures { IfOk result (λ block. block ≡ replicate capacity None) }
    {
        if !may_hold::<T>(capacity as usize) {
            return Err(AllocError);
        }
        Block::allocate(alloc, capacity)
    }

    /// `new`, for a size that fits.
    fn allocate(alloc: &Global, capacity: u32) -> Result<Block<T>, AllocError>
        requires { FitsInBlock T.row capacity }
        ensures { IfOk result (λ block. block ≡ replicate capacity None) }
    {
        match alloc.allocate(capacity as usize * size_of::<T>(), align_of::<T>()) {
            Ok(memory) => Ok(Block {
                start: memory as *mut T,
                capacity,
            }),
            Err(refused) => Err(refused),
        }
    }

    /// Gives the memory back, once each place is empty.
    pub(crate) fn free(self, alloc: &Global)
        requires { self ≡ replicate (length self) None }
    {
        let Block { start, capacity } = self;
        let size = capacity as usize * size_of::<T>();
        unsafe { alloc.deallocate(start as *mut u8, size, align_of::<T>()) }
    }

    pub(crate) fn capacity(&self) -> u32
        ensures value { result ≡ length self.now }
        ensures range { length self.now < 2 ^ 32 }
    {
        self.capacity
    }

    /// Puts a value at an empty place.
    pub(crate) fn write(&mut self, place: u32, value: T)
        requires within { place < length self.old }
        requires empty { slice_index_or self.old place None ≡ None }
        ensures { self.new ≡ slice_set self.old place (Some value) }
    {
        unsafe { self.start.add(place as usize).write(value) }
    }

    /// Moves the value out of a place, which is empty then.
    pub(crate) fn read(&mut self, place: u32) -> T
        requires { IsSome (slice_index_or self.old place None) }
        ensures value { slice_index_or self.old place None ≡ Some result }
        ensures row { self.new ≡ slice_set self.old place None }
    {
        unsafe { self.start.add(place as usize).read() }
    }

    pub(crate) fn get(&self, place: u32) -> &T
        requires { IsSome (slice_index_or self.now place None) }
        ensures { slice_index_or self.now place None ≡ Some result.now }
    {
        unsafe { &*self.start.add(place as usize) }
    }

    pub(crate) fn get_mut(&mut self, place: u32) -> &mut T
        requires { IsSome (slice_index_or self.old place None) }
        ensures* writes_back { sem 𝓛 (lends_place T.row self.entry place result) }
        ensures value { slice_index_or self.old place None ≡ Some result.now }
    {
        unsafe { &mut *self.start.add(place as usize) }
    }
}
