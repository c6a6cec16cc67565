//! The turns of a source and its thread. The word is 0 while the source has its reader, 1 while a read is requested,
//! 2 once the thread has read, and 3 once the source is closed; the slot holds the reader on its way. A seat is the
//! knowledge of one side.
use crate::pieces::PieceReader;
use atomic_table::{Play, Seat, Split, Table, TableRule};
use std::alloc::Global;
use std::collections::LinkedList;
use std::io::Read;

/// The source has its reader.
pub(crate) const HOME: u64 = 0;

/// A read is requested of the thread.
pub(crate) const ASKED: u64 = 1;

/// The thread has read.
pub(crate) const READ: u64 = 2;

/// The source is closed.
pub(crate) const CLOSED: u64 = 3;

/// The stage of a seat. The first two are those of the single seat, before there are two sides; the next two are the
/// source's; the last two the thread's.
pub enum Stage {
    Opening,
    Holding,
    Reads,
    Lends,
    Rests,
    Takes,
}

/// A seat's knowledge: its stage, and the bytes that were left when the reader was handed over. Never constructed.
pub struct Sight {
    pub stage: Stage,
    pub left: Option<LinkedList<u8>>,
}

/// The rule that every step keeps.
pub struct TurnRule;

impl<T: Read> TableRule<Option<PieceReader<T>>, Sight, PieceReader<T>> for TurnRule {
    ghost use Rattle.firm_input.specs.Rule.{KeepsRule};
    ghost use Rattle.firm_input.specs.inner.Steps.{opening_sight};

    ghost holds = { λ _. KeepsRule };

    ghost first = { opening_sight };
}

pub(crate) type Board<T> = Table<Option<PieceReader<T>>, Sight, PieceReader<T>, TurnRule, Global>;

pub(crate) type SourceSeat<T> = Seat<Option<PieceReader<T>>, Sight>;

/// The opening seat takes the slot out, before there are two sides.
pub struct TakesSlot;

impl<T: Read> Play<Option<PieceReader<T>>, Sight> for TakesSlot {
    ghost use Rattle.firm_input.specs.inner.Steps.{takes_slot};

    ghost then = { takes_slot };
}

/// The source puts the slot back with its reader in it.
pub struct Lends;

impl<T: Read> Play<Option<PieceReader<T>>, Sight> for Lends {
    ghost use Rattle.firm_input.specs.inner.Steps.{lends};

    ghost then = { lends };
}

/// The thread looks, and takes the reader if a read is requested.
pub struct TakesReader;

impl<T: Read> Play<Option<PieceReader<T>>, Sight> for TakesReader {
    ghost use Rattle.firm_input.specs.inner.Steps.{takes_reader};

    ghost then = { takes_reader };
}

/// The thread puts the slot back with the reader in it.
pub struct ReturnsReader;

impl<T: Read> Play<Option<PieceReader<T>>, Sight> for ReturnsReader {
    ghost use Rattle.firm_input.specs.inner.Steps.{returns_reader};

    ghost then = { returns_reader };
}

/// The source looks, and takes its reader back if the thread has read.
pub struct TakesBack;

impl<T: Read> Play<Option<PieceReader<T>>, Sight> for TakesBack {
    ghost use Rattle.firm_input.specs.inner.Steps.{takes_back};

    ghost then = { takes_back };
}

/// The source closes.
pub struct Closes;

impl<T: Read> Play<Option<PieceReader<T>>, Sight> for Closes {
    ghost use Rattle.firm_input.specs.inner.Steps.{closes};

    ghost then = { closes };
}

/// The seat that holds the slot reads, and the new one rests.
pub struct Sides;

impl Split<Sight> for Sides {
    ghost use Rattle.firm_input.specs.inner.Steps.{reading_sight, resting_sight};

    ghost left = { reading_sight };

    ghost right = { resting_sight };
}
