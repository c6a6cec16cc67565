//! Index types, which can't be taken for one another, and costs.

/// A number of a row of a `Column`.
pub(crate) trait Index: Copy {
    /// The index that stands for none.
    const LAST: Self;

    fn number(self) -> u32;
}

/// A task, by its place in the case.
#[derive(Clone, Copy, Default, PartialEq, Eq)]
pub(crate) struct Task(pub(crate) u32);

impl Index for Task {
    const LAST: Task = Task(u32::MAX);

    fn number(self) -> u32 {
        self.0
    }
}

/// A node to which tasks go: a machine, by its place in the case, then the hub, then the outside.
#[derive(Clone, Copy, Default, PartialEq, Eq)]
pub(crate) struct Place(pub(crate) u32);

impl Index for Place {
    const LAST: Place = Place(u32::MAX);

    fn number(self) -> u32 {
        self.0
    }
}

/// An arc from a task to a place.
#[derive(Clone, Copy, Default, PartialEq, Eq)]
pub(crate) struct ArcId(pub(crate) u32);

impl Index for ArcId {
    const LAST: ArcId = ArcId(u32::MAX);

    fn number(self) -> u32 {
        self.0
    }
}

impl ArcId {
    /// The arc after this one.
    pub(crate) fn next(self) -> ArcId {
        ArcId(self.0.saturating_add(1))
    }
}

/// A tight arc, by its place in the list of them.
#[derive(Clone, Copy, Default, PartialEq, Eq)]
pub(crate) struct TightId(pub(crate) u32);

impl Index for TightId {
    const LAST: TightId = TightId(u32::MAX);

    fn number(self) -> u32 {
        self.0
    }
}

/// A class of places.
#[derive(Clone, Copy, Default, PartialEq, Eq)]
pub(crate) struct ClassId(pub(crate) u32);

/// A slot of a machine, by the number of slots that are filled before it.
#[derive(Clone, Copy, Default, PartialEq, Eq)]
pub(crate) struct Slot(pub(crate) u32);

impl Index for Slot {
    const LAST: Slot = Slot(u32::MAX);

    fn number(self) -> u32 {
        self.0
    }
}

/// A cost or a price, in units of cost. Sums saturate at `INFINITE`.
#[derive(Clone, Copy, Default, PartialEq, Eq, PartialOrd, Ord)]
pub(crate) struct Cost(pub(crate) u32);

impl Cost {
    pub(crate) const ZERO: Cost = Cost(0);

    /// More than anything costs.
    pub(crate) const INFINITE: Cost = Cost(u32::MAX);

    pub(crate) fn plus(self, more: Cost) -> Cost {
        Cost(self.0.saturating_add(more.0))
    }

    /// The difference, or 0 if the other cost is greater.
    pub(crate) fn minus(self, less: Cost) -> Cost {
        Cost(self.0.saturating_sub(less.0))
    }
}

/// The time of a choice: choices are made for each task in order, and for a task in the order of its ranks.
#[derive(Clone, Copy, Default)]
pub(crate) struct Time(pub(crate) u32);

impl Time {
    /// The time this many choices later.
    pub(crate) fn after(self, choices: u32) -> Time {
        Time(self.0.saturating_add(choices))
    }
}

/// Indices from one up to another.
#[derive(Clone, Copy, Default)]
pub(crate) struct Span<K> {
    pub(crate) from: K,
    pub(crate) to: K,
}

impl<K: Index> Span<K> {
    pub(crate) fn count(self) -> u32 {
        self.to.number().saturating_sub(self.from.number())
    }

    pub(crate) fn is_empty(self) -> bool {
        self.from.number() >= self.to.number()
    }
}

/// An index or none, in the space of an index: what columns hold for an `Option`.
#[derive(Clone, Copy)]
pub(crate) struct Optional<T> {
    index: T,
}

impl<T: Index> Optional<T> {
    pub(crate) const NONE: Optional<T> = Optional { index: T::LAST };

    pub(crate) fn some(index: T) -> Optional<T> {
        Optional { index }
    }

    pub(crate) fn of(index: Option<T>) -> Optional<T> {
        Optional {
            index: index.unwrap_or(T::LAST),
        }
    }

    #[inline(always)]
    pub(crate) fn get(self) -> Option<T> {
        if self.index.number() == u32::MAX {
            None
        } else {
            Some(self.index)
        }
    }

    pub(crate) fn is_none(self) -> bool {
        self.index.number() == u32::MAX
    }
}

impl<T: Index> Default for Optional<T> {
    fn default() -> Optional<T> {
        Optional::NONE
    }
}
