//! Why a round's placement is least, in one number per machine, its *rent* (the idea: docs/EXPLAIN.md). Rents *show* a
//! placement whose cost meets the bound that they give; *rents in levels* show it to be the first of the least. The
//! crate knows no network, flow or price.
//!
//! A round is given as firm_rules' `Case`: its data, with machines by place and tasks by number. `Rents` are a list of
//! one rent for each machine, at most 2^40. `specs/Rents.antt` says what a task pays, what a machine gains, and when
//! rents `Show` a placement or `Suit` it: each task pays its least, the last task of each machine is paid for, no free
//! slot is worth more than it costs.
//!
//! `specs/Levels.antt` says the same of *rents in levels*: for each machine, and for waiting, an amount, followed by a
//! number at each *time*, the choice of some rank of some task. They are compared at the first level at which they
//! differ. After its cost, a choice is cheaper by 1 at its own time: so of two choices that pay the same amount, the
//! one that ranks first is cheaper, unless a rent differs at its time or before. `LevelRents` of firm_levels are such
//! rents as a caller proposes them: amounts, and a tree of classes of places, each like its parent but at one time. No
//! clause asks anything of them. A `Ladder` says the same in another form: groups of places, nested, each ordered from
//! a task on. `is_ladder` reads it, with rents, as rents in levels.
//!
//! # What is proved
//!
//! The laws stand in `src/laws.rt`. In `rents_show_first` the rents cancel in a sum over tasks and machines; at equal
//! cost, the first time at which two placements differ is that of the better one's choice. Not proved
//! (docs/DECISIONS.md): that the low and the high rents show a least placement, that some rents in levels, or a ladder,
//! show each round, and that the savings are reached. `Nearest::machine` gives the machine whose excess, the greater of
//! two tables, is least.
//!
//! # How it works
//!
//! Rents show a placement exactly if the differences of two rents, and of a rent and 0, keep certain bounds, so there
//! is a least and a greatest solution. `low_rents` raises rents from where the last task of each machine is paid for
//! until no task would pay less elsewhere; `high_rents` lowers them from where a free slot is worth its cost.
//! `rents_for` takes the high rents, lowers that of the task's machine to the low one, and the others until they
//! settle. A pass looks once at each machine and at each task, with its own machine, those that it prefers and, of all
//! others, the one of the lowest rent. A few passes are usual; it stops after one for each machine, which should always
//! be enough (no clause says so).
//!
//! `shows_first` counts its passes over machines, tasks and classes in a `Work`, and says no where that is used up. The
//! classes that a comparison of equal amounts walks through belong to its look. Nearly each comparison ends at the
//! amount. A task's choice is compared with its own machine, those that it prefers, waiting, and the machine of the
//! lowest rent. Where that one would be cheaper at the time of the first machine, the machines are compared one by one
//! up to the place at whose time it no longer is, but for those that were dearer already before the task: as times rise
//! from task to task, these are passed once and for all.
#![tactic(auto)]

mod both;
mod bounds;
mod choices;
mod classes;
mod cost_parts;
mod first;
mod ladders;
mod laws;
mod placed;
mod rents;
mod slots;
mod tables;

pub use both::Nearest;
pub use bounds::{Shown, shows_least};
pub use choices::{cheapest_other, excess, least_paid, paid};
pub use cost_parts::{Parts, parts_of};
pub use first::shows_first;
pub use ladders::{Group, Ladder, is_ladder};
pub use laws::{
    each_choice_costs_its_excess, one_more_machine_saves, other_slots_cost, rents_bound,
    rents_show_first, rents_show_least, rents_that_show_suit,
};
pub use placed::placement_of;
pub use rents::Rents;
pub use slots::{Saving, lost_by_slot, saved_by_machine, saved_by_slot};
pub use tables::{high_rents, low_rents, rents_for};
