//! The groups of a ladder, as they are parted.

use crate::moves::{Move, Moves};
use crate::numbers::{NONE, at, number_of, set};
use firm_rents::{Group, Ladder};
use std::alloc::{AllocError, Global};

/// Groups of places, each in another or the first.
#[derive(Drop)]
pub(crate) struct Groups {
    groups: Vec<Group>,
    // Whether a group has to be parted.
    inner: Vec<bool>,
    /// Whether memory was refused for a group.
    pub(crate) is_refused: bool,
    /// The group of each place; `NONE` for one that nothing comes back to.
    pub(crate) of: Vec<u32>,
}

impl Groups {
    /// This number of places, all in one group.
    pub(crate) fn new(alloc: Global, places: usize) -> Result<Groups, AllocError> {
        let mut groups = Groups {
            groups: Vec::new(alloc),
            inner: Vec::new(alloc),
            is_refused: false,
            of: vec![in alloc; 0; places]?,
        };
        let _ = groups.add(0, true);
        Ok(groups)
    }

    /// Number of groups.
    pub(crate) fn count(&self) -> u32 {
        number_of(self.groups.len())
    }

    /// Whether a group has to be parted.
    pub(crate) fn is_inner(&self, group: u32) -> bool {
        self.inner.get(group as usize).copied().unwrap_or(false)
    }

    /// Adds a group to another; gives its number.
    pub(crate) fn add(&mut self, outer: u32, is_inner: bool) -> u32 {
        let number = self.count();
        if self.groups.push(Group { outer, after: 0 }).is_err()
            || self.inner.push(is_inner).is_err()
        {
            self.is_refused = true;
        }
        number
    }

    /// Orders the groups in this one from a task on. If they are ordered from an earlier one, a further group in it is
    /// ordered so. Gives the group that is.
    pub(crate) fn order_after(&mut self, outer: u32, last: u32, after: u32) -> u32 {
        if after == last {
            return outer;
        }
        let group = if last == NONE {
            outer
        } else {
            self.add(outer, false)
        };
        if let Some(found) = self.groups.get_mut(group as usize) {
            found.after = after;
        }
        group
    }

    /// The places of a group get another.
    pub(crate) fn rename(&mut self, group: u32, other: u32) {
        for place in 0..number_of(self.of.len()) {
            if at(&self.of, place) == group {
                set(&mut self.of, place, other);
            }
        }
    }

    /// The groups as a ladder.
    pub(crate) fn into_ladder(self) -> Ladder {
        let mut places = self.of;
        // `any` is no place of a ladder.
        let _ = places.pop();
        Ladder {
            groups: self.groups,
            places,
        }
    }
}

/// A group, and the moves from its places.
#[derive(Clone, Copy)]
pub(crate) struct Members<'a> {
    pub(crate) moves: &'a Moves,
    pub(crate) of: &'a [u32],
    pub(crate) group: u32,
}

impl Members<'_> {
    /// Whether a place is in the group.
    pub(crate) fn has(&self, place: u32) -> bool {
        at(self.of, place) == self.group
    }

    /// The first machine of the lowest rent in the group, or `NONE`.
    pub(crate) fn lowest(&self) -> u32 {
        for machine in self.moves.lowest.iter() {
            if self.has(*machine) {
                return *machine;
            }
        }
        NONE
    }

    /// Whether the move's choice is better, and in the group, in which this is the first machine of the lowest rent.
    pub(crate) fn is_better(&self, found: Move, lowest: u32) -> bool {
        if found.to == self.moves.any() {
            found.is_better && lowest < found.from
        } else {
            found.is_better && self.has(found.to)
        }
    }

    /// Number of moves that lead from a place to one of the group.
    pub(crate) fn move_count_from(&self, place: u32) -> u32 {
        let mut count = 0;
        for number in self.moves.start(place)..self.moves.end(place) {
            if let Some(found) = self.moves.at(number) {
                count = u32::saturating_add(count, u32::from(self.has(found.to)));
            }
        }
        count
    }
}
