//! The memory of tables.
ghost use Rattle.std.specs.Prelude.{◌≡◌, []};

use std::alloc::{AllocError, Global};

/// Where memory comes from, and whether some was refused: then no more is asked for.
#[derive(Drop)]
pub(crate) struct Memory {
    alloc: Global,
    is_short: bool,
}

impl Memory {
    /// None refused yet.
    pub(crate) fn new(alloc: Global) -> Memory {
        Memory {
            alloc,
            is_short: false,
        }
    }

    /// A table this long, each item of it this one; an empty one where memory is refused.
    pub(crate) fn table<T: Copy>(&mut self, item: T, length: usize) -> Vec<T> {
        if !self.is_short {
            match vec![in self.alloc; item; length] {
                Ok(table) => return table,
                Err(_) => self.is_short = true,
            }
        }
        Vec::new(self.alloc)
    }

    /// An empty table with room for this many items, or for none where memory is refused.
    pub(crate) fn room<T: Copy>(&mut self, length: usize) -> Vec<T>
        ensures { result.items ≡ [] }
    {
        if !self.is_short {
            match Vec::with_capacity(self.alloc, length) {
                Ok(table) => return table,
                Err(_) => self.is_short = true,
            }
        }
        Vec::new(self.alloc)
    }

    /// Whether there was enough.
    pub(crate) fn was_enough(&self) -> Result<(), AllocError> {
        if self.is_short {
            Err(AllocError)
        } else {
            Ok(())
        }
    }
}
