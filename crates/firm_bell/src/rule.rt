//! The words of a hall's bell and the steps on them. `specs/Bell.antt` has the rule that each step keeps. A seat is
//! what one thread knows of the bell.
use atomic_table::{Play, Seat, Table, TableRule};
use std::alloc::Global;

// Eight words fill a cache line, so each word below has its own line.

/// Counts the rounds that wait in the queue or are being put.
pub(crate) const WAITING: usize = 0;

/// 1 if a round was put and no worker was woken for it.
pub(crate) const OWES: usize = 8;

/// Counts the workers that have announced a rest and not ended it.
pub(crate) const RESTING: usize = 16;

/// Counts the wakes that no resting worker has used yet. Resting workers sleep on this word while it is 0.
pub(crate) const WAKES: usize = 24;

pub(crate) const WORDS: usize = 32;

/// Number of wakes once the bell is shut. No use lowers it, and no hall has as many workers.
pub(crate) const EVERYONE: u64 = 1 << 16;

/// The stage of a seat.
pub enum Stage {
    /// A worker that does not rest, or a caller.
    Awake,
    /// A caller that has counted a round and not put it yet.
    Putting,
    /// A worker that has announced a rest and not looked for a round since, or was woken and has not ended its rest.
    Announced,
    /// A worker that sleeps until a wake.
    Resting,
    /// A worker that has ended.
    Ended,
}

/// A seat's knowledge: its stage; whether it has still to wake a worker if a round waits; whether it has still to ring;
/// whether it knows that the bell is shut; whether it is late, as it raised the count of rounds once the bell was shut;
/// and how many rounds it counted, how many it took, and how many wakes it left. Never constructed.
pub struct BellSight {
    pub stage: Stage,
    pub owes_call: bool,
    pub owes_ring: bool,
    pub knows_shut: bool,
    pub is_late: bool,
    pub counted: u64,
    pub took: u64,
    pub left: u64,
}

/// The rule that every step keeps.
pub struct BellRule;

impl TableRule<(), BellSight, ()> for BellRule {
    ghost use Rattle.firm_bell.specs.Bell.{KeepsRule, newcomer};

    ghost holds = { λ _. KeepsRule };

    ghost first = { λ _. newcomer };
}

pub(crate) type Board = Table<(), BellSight, (), BellRule, Global>;

pub(crate) type BellSeat = Seat<(), BellSight>;

/// A caller or a worker comes.
pub struct Comes;

impl Play<(), BellSight> for Comes {
    ghost use Rattle.firm_bell.specs.Steps.{comes};

    ghost then = { comes };
}

/// A caller counts a round, which it is to put.
pub struct Expects;

impl Play<(), BellSight> for Expects {
    ghost use Rattle.firm_bell.specs.Steps.{expects};

    ghost then = { expects };
}

/// A caller that has put its round, or a seat that may owe a call, looks whether a worker rests.
pub struct LooksForRest;

impl Play<(), BellSight> for LooksForRest {
    ghost use Rattle.firm_bell.specs.Steps.{looks_for_rest};

    ghost then = { looks_for_rest };
}

/// A seat looks whether a round waits.
pub struct LooksForRound;

impl Play<(), BellSight> for LooksForRound {
    ghost use Rattle.firm_bell.specs.Steps.{looks_for_round};

    ghost then = { looks_for_round };
}

/// A seat leaves wakes for workers that rest.
pub struct Discharges;

impl Play<(), BellSight> for Discharges {
    ghost use Rattle.firm_bell.specs.Steps.{discharges};

    ghost then = { discharges };
}

/// A caller leaves a wake that is owed until it rings.
pub struct Owes;

impl Play<(), BellSight> for Owes {
    ghost use Rattle.firm_bell.specs.Steps.{owes};

    ghost then = { owes };
}

/// A caller rings: it takes over an owed wake.
pub struct Rings;

impl Play<(), BellSight> for Rings {
    ghost use Rattle.firm_bell.specs.Steps.{rings};

    ghost then = { rings };
}

/// A caller shuts the bell.
pub struct Shuts;

impl Play<(), BellSight> for Shuts {
    ghost use Rattle.firm_bell.specs.Steps.{shuts};

    ghost then = { shuts };
}

/// A worker learns whether the bell is shut.
pub struct LearnsShut;

impl Play<(), BellSight> for LearnsShut {
    ghost use Rattle.firm_bell.specs.Steps.{learns_shut};

    ghost then = { learns_shut };
}

/// A worker announces a rest, if as many have announced one as it expects.
pub struct Announces;

impl Play<(), BellSight> for Announces {
    ghost use Rattle.firm_bell.specs.Steps.{announces};

    ghost then = { announces };
}

/// A worker that has announced a rest looks once more, and rests if no round waits.
pub struct LiesDown;

impl Play<(), BellSight> for LiesDown {
    ghost use Rattle.firm_bell.specs.Steps.{lies_down};

    ghost then = { lies_down };
}

/// A resting worker uses a wake, if there are as many as it expects.
pub struct Wakes;

impl Play<(), BellSight> for Wakes {
    ghost use Rattle.firm_bell.specs.Steps.{wakes_up};

    ghost then = { wakes_up };
}

/// A worker ends its rest.
pub struct EndsRest;

impl Play<(), BellSight> for EndsRest {
    ghost use Rattle.firm_bell.specs.Steps.{ends_rest};

    ghost then = { ends_rest };
}

/// A worker takes a round.
pub struct Takes;

impl Play<(), BellSight> for Takes {
    ghost use Rattle.firm_bell.specs.Steps.{takes};

    ghost then = { takes };
}

/// A worker that knows that the bell is shut looks whether a round waits, and ends if none does.
pub struct Ends;

impl Play<(), BellSight> for Ends {
    ghost use Rattle.firm_bell.specs.Steps.{ends};

    ghost then = { ends };
}
