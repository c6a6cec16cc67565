//! The choice of a round: `first_best` gives the first of a tenant's cheapest legal placements. It solves one
//! minimum-cost flow, then fixes task after task; it lists no placements. A tenant calls it for the rounds whose
//! proposal was not shown to be right (`proposals.rt` of firm_tenant).
//!
//! # What is proved
//!
//! `first_best` requires prices and scratch made for the graph's limits. `Ok` is the round's placement; `Err` comes
//! only for refused memory, before all else. With t tasks of p preferences in all, m machines and a arcs it makes at
//! most 3 * t + 2 * m + 1 + p searches, and at most t * (m + 4), each of at most 2 * a looks. All these together take
//! at most (3 * t + d + 2) * 2 * a looks, if a is at most 2^d (`specs/Counts.antt`). No count falls or is reset on the
//! way.
//!
//! # How it works
//!
//! After each task the flow is least, lower bounds hold the choices so far, and no least placement comes before them.
//! The next task takes its first *open* choice: one whose arc carries a unit that no earlier choice holds, or along
//! which a unit can be sent and back from head to tail by tight residual arcs, which keeps the cost.
//!
//! - **Arcs.** A task reaches its own machine by the stay arc, a preferred one by the preference's arc, others by the
//!   wide arc to the hub and then the hub's arc, which leaves the wide arc full.
//! - **Two searches.** Where the task's unit is not at the hub, it goes to its own machine at once, to the hub if that
//!   is open, else where it prefers to be, or it waits: one search, against the arcs, finds the ways to the task. Where
//!   the unit is at the hub, one search finds the ways to the hub; those to the task end with the unit's own way back.
//!   The machines are then tried in order. Neither search begins before an arc without a unit is met that is tight and
//!   has room; it ends at that arc's head or, if there is no way from there, has found all ways.
//! - **What a search leaves out.** The nodes that a search does not reach are a set that no tight residual arc leaves.
//!   So no flow as cheap carries more on an arc that leads into the set, and no least placement goes that way.
//! - **Spent machines.** A machine to which the hub can send no more than is held stays so, since each choice leaves
//!   fewer flows. Those before the first other one are passed without a look.
//! - **One is found.** The hub sends some machine a unit that is not held. If that is the task's own machine, or one
//!   that it prefers, it is open to the task by its own arc, at no more cost.
//! - **The bound.** The flow takes a search for each task, its choice at most two.
#![tactic(auto)]

mod best;
mod choosing;
mod holds;
mod reads;
mod turns;

pub use best::first_best;
