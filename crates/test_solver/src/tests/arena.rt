//! Properties of an arena that no clause states: each value is dropped once. Places and stamps as they are used up, and
//! a block that is too large.
use super::expect;
use Refused::{Full, Worn};
use Step::{Counts, Found, Put, Taken};
use firm_arena::{Arena, Id, Refused};
use std::alloc::Global;
use std::cell::Cell;
use std::process::Abort;

/// Counts its drops.
struct Counted<'a> {
    drops: &'a Cell<u32>,
}

impl Drop for Counted<'_> {
    fn drop(self) {
        let Counted { drops } = self;
        drops.set(drops.get().wrapping_add(1));
    }
}

fn put<'a>(rt: &impl Abort, arena: &mut Arena<Counted<'a>>, drops: &'a Cell<u32>) -> Id {
    arena.put(Counted { drops }).ok().expect(rt, "room")
}

// A refused value comes back, and is dropped by its owner.
fn refuse<'a>(rt: &impl Abort, arena: &mut Arena<Counted<'a>>, drops: &'a Cell<u32>) {
    let before = drops.get();
    let refused = arena.put(Counted { drops }).err();
    let refused = refused.expect(rt, "no room");
    expect(rt, drops.get(), before);
    drop(refused);
    expect(rt, drops.get(), before.wrapping_add(1));
}

// So is one that is taken, whose id finds nothing any more.
fn take<'a>(rt: &impl Abort, arena: &mut Arena<Counted<'a>>, drops: &'a Cell<u32>, id: Id) {
    let before = drops.get();
    let taken = arena.take(id).expect(rt, "the value is there");
    expect(rt, drops.get(), before);
    drop(taken);
    expect(rt, drops.get(), before.wrapping_add(1));
    expect(rt, arena.get(id).is_none(), true);
}

// Of three places and four stamps, the last goes to a place that is used again. The first and the last place stay held.
fn use_up<'a>(rt: &impl Abort, arena: &mut Arena<Counted<'a>>, drops: &'a Cell<u32>) {
    let first = put(rt, arena, drops);
    let second = put(rt, arena, drops);
    put(rt, arena, drops);
    refuse(rt, arena, drops);
    take(rt, arena, drops, first);
    let again = put(rt, arena, drops);
    expect(rt, (again.place, again.stamp), (first.place, u64::MAX - 1));
    expect(rt, arena.get(first).is_none(), true);
    take(rt, arena, drops, second);
    refuse(rt, arena, drops);
}

#[test]
fn each_value_is_dropped_once(rt: HostRuntime) {
    let drops = Cell::new(0);
    let arena = Arena::with_stamp(rt.alloc(), 3, u64::MAX - 4);
    let mut arena = arena.expect(&rt, "memory");
    use_up(&rt, &mut arena, &drops);
    expect(&rt, drops.get(), 4);
    // The arena drops what it still holds, and no place twice.
    drop(arena);
    expect(&rt, drops.get(), 6);
}

#[test]
fn more_memory_than_the_machine_can_address_is_refused(rt: HostRuntime) {
    // 2^32 - 1 places of 2^17 bytes and more: the allocator has no such block.
    let made: Option<Arena<[u64; 16384]>> = Arena::new(rt.alloc(), u32::MAX).ok();
    expect(&rt, made.is_none(), true);
}

/// A call of an arena. Ids are numbered in the order in which they are given.
enum Step {
    /// A value is put, or comes back.
    Put(u32, Option<Refused<u32>>),
    /// The value that an id takes out.
    Taken(usize, Option<u32>),
    /// The value of an id.
    Found(usize, Option<u32>),
    /// Numbers of values in it, and of those that still fit.
    Counts(u32, u32),
}

fn put_number(
    rt: &impl Abort,
    arena: &mut Arena<u32>,
    ids: &mut Vec<Id>,
    number: u32,
) -> Option<Refused<u32>> {
    match arena.put(number) {
        Ok(id) => {
            ids.push(id).expect(rt, "memory");
            None
        }
        Err(refused) => Some(refused),
    }
}

fn id_of(rt: &impl Abort, ids: &Vec<Id>, number: usize) -> Id {
    ids.get(number).copied().expect(rt, "it was given")
}

fn make(rt: &impl Abort, arena: &mut Arena<u32>, ids: &mut Vec<Id>, step: &Step) {
    match step {
        Put(number, wanted) => expect(rt, put_number(rt, arena, ids, *number) == *wanted, true),
        Taken(id, wanted) => expect(rt, arena.take(id_of(rt, ids, *id)), *wanted),
        Found(id, wanted) => expect(rt, arena.get(id_of(rt, ids, *id)).copied(), *wanted),
        Counts(held, free) => expect(rt, (arena.len(), arena.room()), (*held, *free)),
    }
}

/// The number of an arena's places, its first stamp if that is given, and what is done with it.
type Script = (u32, Option<u64>, &'static [Step]);

fn opened(rt: &impl Abort, alloc: Global, places: u32, first: Option<u64>) -> Arena<u32> {
    let made = match first {
        Some(first) => Arena::with_stamp(alloc, places, first),
        None => Arena::new(alloc, places),
    };
    made.expect(rt, "memory")
}

fn play(rt: &impl Abort, alloc: Global, (places, first, steps): &Script) {
    let mut arena = opened(rt, alloc, *places, *first);
    let mut ids = Vec::new(alloc);
    for each in *steps {
        make(rt, &mut arena, &mut ids, each);
    }
}

static PLAYED: [&Script; 4] = [
    // The id of a value that was taken finds no later one.
    &(
        2,
        None,
        &[
            Put(10, None),
            Put(20, None),
            Put(30, Some(Full(30))),
            Taken(0, Some(10)),
            Found(0, None),
            Put(40, None),
            Found(0, None),
            Found(2, Some(40)),
            Found(1, Some(20)),
            Counts(2, 0),
            Taken(1, Some(20)),
            Counts(1, 1),
        ],
    ),
    &(0, None, &[Put(1, Some(Full(1)))]),
    // No stamp is left, though a place is.
    &(
        2,
        Some(u64::MAX - 1),
        &[
            Put(1, None),
            Put(2, Some(Worn(2))),
            Taken(0, Some(1)),
            Put(3, Some(Worn(3))),
        ],
    ),
    &(0, Some(u64::MAX), &[Put(4, Some(Full(4)))]),
];

fn play_all(rt: &impl Abort, alloc: Global, scripts: &[&Script]) {
    for script in scripts {
        play(rt, alloc, script);
    }
}

#[test]
fn places_and_stamps_are_used_up(rt: HostRuntime) {
    play_all(&rt, rt.alloc(), &PLAYED);
}
