//! Ladders: nested orders of the machines and waiting, by which rents show the first of the least placements.
ghost use Rattle.std.specs.Prelude.{◌≡◌, ◌+◌, ◌*◌, ◌^◌, ◌<◌, ◌≤◌, length, IfOk, IsTrue};
ghost use Rattle.firm_rules.specs.Round.{IsRound};

use crate::first::shows_first;
use crate::rents::Rents;
use firm_levels::{Allowance, Class, LevelRents, Work};
use firm_rules::{Case, Choice};
use std::alloc::{AllocError, Global};

/// Some machines, with or without waiting, or groups of them in their order.
#[derive(Clone, Copy, PartialEq, Eq)]
pub struct Group {
    /// The group that this one is in; of the first, itself.
    pub outer: u32,
    /// The groups in this one are ordered, lowest first, from the task of this number on: later tasks that would pay
    /// as much elsewhere would go down, or stay in their group.
    pub after: u32,
}

/// A nested order of the machines and waiting.
#[derive(Drop)]
pub struct Ladder {
    /// The first contains all others, each follows the one that contains it, and the lower of two in one stands
    /// first.
    pub groups: Vec<Group>,
    /// The group of each machine and, last, that of waiting.
    pub places: Vec<u32>,
}

/// Whether a ladder, with these rents, shows that a placement is the round's: it is legal, no legal one costs less, and
/// none that costs as much comes before it. A no says nothing. The ladder is read as rents in
/// levels: a lower group is dearer, from its time on. Fails only if memory is refused.
pub fn is_ladder(
    alloc: Global,
    case: &Case,
    rents: &Rents,
    ladder: &Ladder,
    placement: &[Choice],
) -> Result<bool, AllocError>
    ensures { IfOk result (λ shown. IsTrue shown → IsRound case.now placement.now) }
{
    // In a tree in which each group has places, or two groups and more, there are no more groups.
    if ladder.groups.len() > 2 * case.machine_count() + 2 {
        return Ok(false);
    }
    let levels = in_levels(alloc, case, rents, ladder, placement)?;
    // As much as it takes.
    let mut work = Work::new(Allowance {
        searches: 0,
        looks: u64::MAX,
    });
    Ok(shows_first(case, &levels, placement, &mut work))
}

// The rents, followed by the ladder.
fn in_levels(
    alloc: Global,
    case: &Case,
    rents: &Rents,
    ladder: &Ladder,
    placement: &[Choice],
) -> Result<LevelRents, AllocError> {
    let first = Class {
        parent: 0,
        time: 0,
        number: 1,
    };
    let mut classes = vec![in alloc; first; 1]?;
    let places = classes_of_places(alloc, case, ladder, placement, &mut classes)?;
    let amounts = Vec::from_slice(alloc, rents.as_slice())?;
    Ok(LevelRents {
        amounts,
        places,
        classes,
    })
}

// The class of each place: that of its group. Adds the classes.
fn classes_of_places(
    alloc: Global,
    case: &Case,
    ladder: &Ladder,
    placement: &[Choice],
    classes: &mut Vec<Class>,
) -> Result<Vec<u32>, AllocError> {
    let of = classes_of_groups(alloc, case, ladder, placement, classes)?;
    let mut places = Vec::from_slice(alloc, &ladder.places)?;
    for place in 0..places.len() {
        let group = at(&places, place);
        set(&mut places, place, at(&of, group as usize));
    }
    Ok(places)
}

// The class of each group. Adds the classes.
fn classes_of_groups(
    alloc: Global,
    case: &Case,
    ladder: &Ladder,
    placement: &[Choice],
    classes: &mut Vec<Class>,
) -> Result<Vec<u32>, AllocError> {
    let references = references_of(alloc, ladder)?;
    let mut of = vec![in alloc; 0; ladder.groups.len()]?;
    for group in 1..ladder.groups.len() {
        let outer = ladder.groups[group].outer as usize;
        let mut class = at(&of, outer);
        let reference = at(&references, outer);
        if reference as usize != group {
            let pair = classes_of(case, ladder, placement, group, reference);
            class = put_classes(classes, class, pair)?;
        }
        set(&mut of, group, class);
    }
    Ok(of)
}

// Adds two classes, each behind its parent; gives the number of the second.
fn put_classes(classes: &mut Vec<Class>, parent: u32, pair: [Class; 2]) -> Result<u32, AllocError> {
    let [first, second] = pair;
    let own = u32::try_from(classes.len()).unwrap_or(0);
    classes.push(Class { parent, ..first })?;
    classes.push(Class {
        parent: own,
        ..second
    })?;
    Ok(own.saturating_add(1))
}

// Of the groups in each one, that which has the class of the outer one: the main one or, where several stand above it,
// none, `u32::MAX`. Then few classes lie between two places, however deep the ladder is.
fn references_of(alloc: Global, ladder: &Ladder) -> Result<Vec<u32>, AllocError> {
    let mut references = main_groups(alloc, ladder)?;
    let mut above = vec![in alloc; 0; ladder.groups.len()]?;
    for group in 1..ladder.groups.len() {
        let outer = ladder.groups[group].outer as usize;
        if (at(&references, outer) as usize) < group {
            if at(&above, outer) > 0 {
                set(&mut references, outer, u32::MAX);
            }
            set(&mut above, outer, 1);
        }
    }
    Ok(references)
}

// For each group, the one in it with the most groups; 0 if there is none.
fn main_groups(alloc: Global, ladder: &Ladder) -> Result<Vec<u32>, AllocError> {
    let sizes = sizes_of(alloc, ladder)?;
    let mut main = vec![in alloc; 0; ladder.groups.len()]?;
    for group in 1..ladder.groups.len() {
        let outer = ladder.groups[group].outer as usize;
        let before = at(&main, outer);
        if before == 0 || at(&sizes, before as usize) < at(&sizes, group) {
            set(&mut main, outer, u32::try_from(group).unwrap_or(0));
        }
    }
    Ok(main)
}

// Number of groups in each group, itself included.
fn sizes_of(alloc: Global, ladder: &Ladder) -> Result<Vec<u32>, AllocError> {
    let mut sizes = vec![in alloc; 1; ladder.groups.len()]?;
    for back in 0..ladder.groups.len() {
        let group = ladder.groups.len() - 1 - back;
        let outer = ladder.groups[group].outer as usize;
        let size = at(&sizes, outer).saturating_add(at(&sizes, group));
        set(&mut sizes, outer, size);
    }
    Ok(sizes)
}

// The classes of a group, the second for its places; the parents are yet to be set. At the first time of the task after
// which it is ordered, it is dearer than what the task has, if it is lower, so that no better choice in it is cheaper.
// At the last time of the task the lower group is the dearer. The reference has 1 at both times.
fn classes_of(
    case: &Case,
    ladder: &Ladder,
    placement: &[Choice],
    group: usize,
    reference: u32,
) -> [Class; 2]
    requires group { group < length ladder.now.groups.items }
{
    let outer = ladder.groups[group].outer;
    let after = after_of(ladder, outer);
    let has = u64::from(group_in(ladder, outer, group_of(case, ladder, placement, after)));
    let (own, other) = (group as u64, u64::from(reference));
    let ranks = case.machine_count() as u32 + 2;
    let begun = after.saturating_mul(ranks);
    let below = other.min(ladder.groups.len() as u64).saturating_sub(own);
    let first = Class {
        parent: 0,
        time: begun,
        number: number_at_first(own, has, other),
    };
    let second = Class {
        parent: 0,
        time: begun.saturating_add(ranks - 1),
        number: if own < other {
            u32::try_from(below).unwrap_or(0).saturating_add(1)
        } else {
            0
        },
    };
    [first, second]
}

// The number of a group at the first time, where what the task has is in this one, 0 if it is in none, and the
// reference has 1.
fn number_at_first(own: u64, has: u64, reference: u64) -> u32 {
    if has == 0 {
        1
    } else if reference < has {
        u32::from(own < has)
    } else if own < has {
        3
    } else {
        1
    }
}

// After which task the groups in this one are ordered.
fn after_of(ladder: &Ladder, group: u32) -> u32 {
    ladder
        .groups
        .get(group as usize)
        .map_or(0, |found| found.after)
}

// The group of what the task of this number has.
fn group_of(case: &Case, ladder: &Ladder, placement: &[Choice], task: u32) -> u32 {
    let place = match placement.get(task as usize).copied() {
        Some(Choice::On(place)) => place as usize,
        _ => case.machine_count(),
    };
    ladder.places.get(place).copied().unwrap_or(0)
}

// The group in the outer one that is or has in it the other; 0 if none is.
fn group_in(ladder: &Ladder, outer: u32, other: u32) -> u32 {
    let mut at = other;
    for _ in 0..ladder.groups.len() {
        match ladder.groups.get(at as usize) {
            Some(found) if found.outer == outer => return at,
            Some(found) if found.outer == at => return 0,
            Some(found) => at = found.outer,
            None => return 0,
        }
    }
    0
}

// The number of a group; 0 past the last.
fn at(table: &[u32], group: usize) -> u32 {
    table.get(group).copied().unwrap_or(0)
}

fn set(table: &mut [u32], group: usize, number: u32) {
    if let Some(item) = table.get_mut(group) {
        *item = number;
    }
}
