//! Columns and stacks: tables that take their memory once and never fail.
//!
//! Each is read and written by its index type alone. No proof says that an index is in range: past the end a table
//! reads as its default value, and nothing is written. That happens only in `read`, `entry` and `head`.
//! `tests/indices` has them index instead, and plays rounds: there an index out of range ends the program.

ghost use Rattle.firm_levels.specs.Work.{GoesOn};

use crate::index::{Index, Span};
use crate::memory::Memory;
use firm_levels::Work;
use std::marker::PhantomData;

/// A value for each index.
#[derive(Drop)]
pub(crate) struct Column<K, V> {
    items: Vec<V>,
    rows: PhantomData<K>,
}

impl<K: Index + Drop, V: Copy + Default + Drop> Column<K, V> {
    /// This many default values.
    pub(crate) fn new(memory: &mut Memory, length: usize) -> Column<K, V> {
        Column {
            items: memory.table(V::default(), length),
            rows: PhantomData,
        }
    }

    pub(crate) fn length(&self) -> u32 {
        self.items.len().min(u32::MAX as usize) as u32
    }

    pub(crate) fn at(&self, row: K) -> V {
        read(&self.items, row.number())
    }

    pub(crate) fn set(&mut self, row: K, value: V) {
        if let Some(item) = entry(&mut self.items, row.number()) {
            *item = value;
        }
    }

    /// The value itself, to change a part of it.
    pub(crate) fn entry(&mut self, row: K) -> Option<&mut V> {
        entry(&mut self.items, row.number())
    }

    /// The first `count` values.
    pub(crate) fn first(&self, count: u32) -> &[V] {
        head(&self.items, count)
    }

    pub(crate) fn within(&self, span: Span<K>) -> &[V] {
        let values = head(&self.items, span.to.number());
        let start = values.len().min(span.from.number() as usize);
        &values[start..]
    }

    /// Gives the first `count` rows this value.
    pub(crate) fn reset(&mut self, count: u32, value: V, work: &mut Work)
        ensures work { GoesOn work.old work.new }
    {
        let end = self.items.len().min(work.pass(count) as usize);
        for item in &mut self.items[..end] {
            *item = value;
        }
    }
}

impl<K: Index + Drop> Column<K, u32> {
    pub(crate) fn add(&mut self, row: K, more: u32) {
        let number = self.at(row).saturating_add(more);
        self.set(row, number);
    }

    /// Subtracts this much, down to 0.
    pub(crate) fn subtract(&mut self, row: K, less: u32) {
        let number = self.at(row).saturating_sub(less);
        self.set(row, number);
    }
}

/// Some values, in a table of fixed size.
#[derive(Drop)]
pub(crate) struct Stack<V> {
    items: Vec<V>,
    count: u32,
}

impl<V: Copy + Default + Drop> Stack<V> {
    /// No values, and room for this many.
    pub(crate) fn new(memory: &mut Memory, length: usize) -> Stack<V> {
        Stack {
            items: memory.table(V::default(), length),
            count: 0,
        }
    }

    pub(crate) fn count(&self) -> u32 {
        self.count
    }

    pub(crate) fn at(&self, number: u32) -> V {
        read(&self.items, number)
    }

    pub(crate) fn set(&mut self, number: u32, value: V) {
        if let Some(item) = entry(&mut self.items, number) {
            *item = value;
        }
    }

    pub(crate) fn clear(&mut self) {
        self.count = 0;
    }

    pub(crate) fn push(&mut self, value: V) {
        self.set(self.count, value);
        self.count = self.count.saturating_add(1);
    }

    /// Takes off the last value, if any.
    #[inline(always)]
    pub(crate) fn pop(&mut self) -> Option<V> {
        if self.count == 0 {
            return None;
        }
        self.count = self.count.saturating_sub(1);
        Some(self.at(self.count))
    }

    pub(crate) fn truncate(&mut self, count: u32) {
        self.count = self.count.min(count);
    }
}

fn read<V: Copy + Default>(items: &[V], number: u32) -> V {
    items.get(number as usize).copied().unwrap_or_default()
}

fn entry<V: Copy>(items: &mut [V], number: u32) -> Option<&mut V> {
    items.get_mut(number as usize)
}

fn head<V: Copy>(items: &[V], count: u32) -> &[V] {
    let end = items.len().min(count as usize);
    &items[..end]
}
