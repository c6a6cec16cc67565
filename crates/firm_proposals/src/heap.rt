//! The places that a search for a shortest path has reached, the nearest first.

ghost use Rattle.firm_levels.specs.Work.{GoesOn};

use crate::column::{Column, Stack};
use crate::index::{Cost, Index, Optional, Place};
use crate::memory::Memory;
use firm_levels::Work;

/// How deep the heap is at most.
const MAX_DEPTH: u32 = 32;

/// A position in the heap.
#[derive(Clone, Copy, Default, PartialEq, Eq)]
struct Position(u32);

impl Index for Position {
    const LAST: Position = Position(u32::MAX);

    fn number(self) -> u32 {
        self.0
    }
}

/// A binary heap of places by distance, each in it once.
#[derive(Drop)]
pub(crate) struct DistanceHeap {
    places: Stack<Place>,
    distances: Column<Place, Cost>,
    // The position of each place that is in the heap.
    positions: Column<Place, Optional<Position>>,
    // The places that have a distance.
    reached: Stack<Place>,
}

impl DistanceHeap {
    /// No place, and room for this many.
    pub(crate) fn new(memory: &mut Memory, places: usize) -> DistanceHeap {
        DistanceHeap {
            places: Stack::new(memory, places),
            distances: Column::new(memory, places),
            positions: Column::new(memory, places),
            reached: Stack::new(memory, places),
        }
    }

    /// Forgets the last round.
    pub(crate) fn reset(&mut self, places: u32, work: &mut Work)
        ensures work { GoesOn work.old work.new }
    {
        self.places.clear();
        self.reached.clear();
        self.distances.reset(places, Cost::INFINITE, work);
        self.positions.reset(places, Optional::NONE, work);
    }

    /// Forgets all distances, of the places that have one.
    pub(crate) fn clear(&mut self, work: &mut Work)
        ensures work { GoesOn work.old work.new }
    {
        for number in 0..work.pass(self.reached.count()) {
            let place = self.reached.at(number);
            self.distances.set(place, Cost::INFINITE);
            self.positions.set(place, Optional::NONE);
        }
        self.places.clear();
        self.reached.clear();
    }

    /// The place's distance, as far as the search has come.
    pub(crate) fn distance(&self, place: Place) -> Cost {
        self.distances.at(place)
    }

    /// Brings a place nearer.
    pub(crate) fn decrease(&mut self, place: Place, distance: Cost) {
        if self.distances.at(place) == Cost::INFINITE {
            self.reached.push(place);
        }
        self.distances.set(place, distance);
        let position = match self.positions.at(place).get() {
            Some(position) => position.0,
            None => {
                self.places.push(place);
                self.places.count().saturating_sub(1)
            }
        };
        self.rise(place, position);
    }

    /// Takes out the nearest place.
    pub(crate) fn take(&mut self) -> Option<Place> {
        let last = self.places.pop()?;
        let nearest = if self.places.count() == 0 {
            last
        } else {
            self.places.at(0)
        };
        self.positions.set(nearest, Optional::NONE);
        if last != nearest {
            self.sink(last);
        }
        Some(nearest)
    }

    // Puts a place at this position or above it, where none above it is farther.
    fn rise(&mut self, place: Place, from: u32) {
        let distance = self.distances.at(place);
        let mut position = from;
        for _ in 0..MAX_DEPTH {
            if position == 0 {
                break;
            }
            let parent = position.saturating_sub(1) >> 1;
            let above = self.places.at(parent);
            if self.distances.at(above) <= distance {
                break;
            }
            self.put(above, position);
            position = parent;
        }
        self.put(place, position);
    }

    // Puts a place at the top or below it, where none below it is nearer.
    fn sink(&mut self, place: Place) {
        let distance = self.distances.at(place);
        let mut position = 0;
        for _ in 0..MAX_DEPTH {
            let child = self.nearer_child(position);
            if child >= self.places.count() {
                break;
            }
            let below = self.places.at(child);
            if self.distances.at(below) >= distance {
                break;
            }
            self.put(below, position);
            position = child;
        }
        self.put(place, position);
    }

    // The position below this one whose place is nearer.
    fn nearer_child(&self, position: u32) -> u32 {
        let left = position.saturating_mul(2).saturating_add(1);
        let right = left.saturating_add(1);
        if right < self.places.count() && self.distance_at(right) < self.distance_at(left) {
            right
        } else {
            left
        }
    }

    fn distance_at(&self, position: u32) -> Cost {
        self.distances.at(self.places.at(position))
    }

    fn put(&mut self, place: Place, position: u32) {
        self.places.set(position, place);
        self.positions
            .set(place, Optional::some(Position(position)));
    }
}
