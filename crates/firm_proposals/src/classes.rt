//! The classes of places by which prices differ behind their amounts.
ghost use Rattle.std.specs.Prelude.{◌≡◌, ◌+◌, length, IfOk};
ghost use Rattle.firm_levels.specs.Work.{GoesOn};

use crate::column::{Column, Stack};
use crate::index::{ClassId, Place, Time};
use crate::memory::Memory;
use crate::round::Round;
use firm_levels::{Class, Work};
use firm_rules::Case;
use std::alloc::AllocError;

/// The number of the first class at each time, and of a class that is cheaper or dearer than its parent at its own.
const PAR: u32 = 1;

const CHEAPER: u32 = 0;

const DEARER: u32 = 2;

/// A class that splits off its parent, where a search finds no path into it or out of it: at this time it has this
/// number.
#[derive(Clone, Copy, Default)]
struct Split {
    parent: ClassId,
    time: Time,
    number: u32,
}

/// A tree of classes, and the class of each place.
#[derive(Drop)]
pub(crate) struct Classes {
    of: Column<Place, ClassId>,
    tree: Stack<Split>,
}

impl Classes {
    /// No classes, and room for this many tasks and machines together.
    pub(crate) fn new(memory: &mut Memory, nodes: usize) -> Classes {
        Classes {
            of: Column::new(memory, nodes),
            tree: Stack::new(memory, max_classes(nodes)),
        }
    }

    /// Puts all places into one class.
    pub(crate) fn clear(&mut self, round: &Round, work: &mut Work)
        ensures work { GoesOn work.old work.new }
    {
        self.of.reset(round.places(), ClassId(0), work);
        self.tree.clear();
        self.tree.push(Split {
            number: PAR,
            ..Split::default()
        });
    }

    pub(crate) fn count(&self) -> u32 {
        self.tree.count()
    }

    pub(crate) fn of(&self, place: Place) -> ClassId {
        self.of.at(place)
    }

    pub(crate) fn are_one(&self, place: Place, other: Place) -> bool {
        self.of.at(place) == self.of.at(other)
    }

    /// Splits these places, of one class, off it: they are dearer or cheaper from this time on.
    pub(crate) fn split(
        &mut self,
        places: &Stack<Place>,
        time: Time,
        is_dearer: bool,
        work: &mut Work,
    )
        ensures work { GoesOn work.old work.new }
    {
        let number = if is_dearer { DEARER } else { CHEAPER };
        let class = self.add(places.at(0), time, number);
        for number in 0..work.pass(places.count()) {
            self.of.set(places.at(number), class);
        }
    }

    /// Splits a place that nothing leaves any more off its class.
    pub(crate) fn split_one(&mut self, place: Place, time: Time) {
        let class = self.add(place, time, DEARER);
        self.of.set(place, class);
    }

    // Adds a class below that of the place.
    fn add(&mut self, place: Place, time: Time, number: u32) -> ClassId {
        let class = ClassId(self.tree.count());
        self.tree.push(Split {
            parent: self.of.at(place),
            time,
            number,
        });
        class
    }

    /// Writes the class of each machine and, last, of the outside. Fails only if memory is refused, of which none is
    /// needed where there is room.
    pub(crate) fn write_places(
        &self,
        case: &Case,
        round: &Round,
        places: &mut Vec<u32>,
    ) -> Result<(), AllocError>
        ensures { IfOk result (λ _. length places.new.items ≡ length case.now.slots + 1) }
    {
        places.clear();
        for machine in 0..case.machine_count() as u32 {
            places.push(self.of.at(Place(machine)).0)?;
        }
        places.push(self.of.at(round.outside()).0)?;
        Ok(())
    }

    /// Writes the classes. Fails only if memory is refused, of which none is needed where there is room.
    pub(crate) fn write(&self, classes: &mut Vec<Class>) -> Result<(), AllocError> {
        classes.clear();
        for class in 0..self.tree.count() {
            let split = self.tree.at(class);
            classes.push(Class {
                parent: split.parent.0,
                time: split.time.0,
                number: split.number,
            })?;
        }
        Ok(())
    }
}

/// The most classes of a number of places: each split leaves two classes for one, and each machine is split off by
/// itself once.
pub(crate) fn max_classes(nodes: usize) -> usize {
    nodes.saturating_mul(2)
}
