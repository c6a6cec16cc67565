//! A tenant before any network: names and limits, rows, their use of its arena, the cost of a placement and the choice
//! of a round; also commands and replies. docs/PLACEMENT.md has the rules in words.
//!
//! `Rows` are the record `TenantRows` of `specs/Book.antt`, always sound (`specs/Sound.antt`): names differ, a task's
//! job and machines exist, no machine runs more tasks than it has slots, no wait is above the patience, the limits of
//! nodes and arcs are kept. A `Book` is rows, costs and a count of commands.
//!
//! A round is a function, `round_placement` in `specs/Round.antt`, which three laws (docs/results/claims.md) read
//! aloud; `proofs/RoundExamples.antt` computes worked rounds with all their placements. Three more laws, in
//! `specs/Preemption.antt`, say what a preemption takes (docs/PLACEMENT.md), one in `specs/Starvation.antt` what a
//! round does to a long wait.
//!
//! `Rows` keep the `Case` of their rounds (the record of that name in `specs/Placement.antt`): slots, and what each
//! task brings, with machines and jobs by place. Names are looked up as a row comes; each change of the rows changes
//! the case too, so that it is always `case_of` them, and `legal`, `cost_of`, `ranks_before` and `changes_of` read it
//! in time in proportion to tasks and machines. Only the adders, `changes_of` and `Case::of`, which makes a case from
//! names for a caller that outlives the rows, take memory.
#![tactic(auto)]

mod amounts;
mod book;
mod books;
mod bounds;
mod cases;
mod changes;
mod commands;
mod demands;
mod laws;
mod names;
mod placements;
mod preferences;
mod recent;
mod replies;
mod rounds;
mod standing;
mod tables;
mod tickets;

pub use amounts::{Slots, Weight};
pub use book::{Job, Machine, NewTask, Task, Use};
pub use books::{Book, BookFault};
pub use bounds::{LONGEST_PATIENCE, Limits};
pub use cases::Case;
pub use changes::{Changes, changes_of};
pub use commands::{Command, LineFault};
pub use laws::{
    legality_is_judged, loads_are_sums_of_slots, long_waits_yield_to_long_waits,
    opening_books_are_sound, patience_bounds_preemptions, preemptions_gain,
    preemptions_have_causes, sound_rows_stay_sound, tasks_stay_where_they_may_stand,
    the_first_difference_decides, the_round_is_the_first,
};
pub use names::Name;
pub use placements::{
    MOST_MACHINES, cost_of, cost_of_load, legal, loads_of, ranks_before, slot_cost, weight_of,
};
pub use preferences::{MOST_PREFERENCES, Preferred};
pub use recent::{MOST_COSTS, RecentCosts};
pub use replies::{Outcome, Refusal, Reply};
pub use rounds::{Change, Choice};
pub use standing::may_run;
pub use tables::{Rows, use_of};
pub use tickets::Ticket;
