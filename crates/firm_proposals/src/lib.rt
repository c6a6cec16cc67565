//! Proposals of rounds: a placement, and rents in levels that show that it is the round's, found on flat tables,
//! without the network of firm_graph. Nothing that is claimed of a round rests on this crate, and it does not rest on
//! firm_rents, whose `shows_first` judges what is proposed.
//!
//! A caller makes a `Work` of an `Allowance`, calls `propose` with the hub's price of the round before, as `hub_price`
//! gave it, and has `shows_first` judge `rents` and `placement` with the same `Work`: if it says yes, the placement is
//! the round's. Each call ends, faults nowhere, leaves the allowance as it is, which the searches and looks that `Work`
//! counts never exceed, and counts itself and at least a look at each task and machine. A pass over a table is a loop
//! up to what `Work::pass` returns, which counts its entries; that no loop goes without, no clause says. A proposal has
//! a choice for each task, an amount and a class for each machine, and a class for waiting (`specs/Proposed.antt`). No
//! clause says that a round is proposed, or shown. A proposer takes its memory when it is made, for all rounds within a
//! tenant's limits, and keeps of a round its last proposal, whose price of the hub the next one may try, and which of
//! two prices that one is to try first. A tenant requests one in each round.
//!
//! So that this needs few proofs, no index is proved to be in range, and sums saturate: an error makes a proposal that
//! is refused, and nothing worse. Tables are read and written in one place (`column.rt`), by index types (`index.rt`).
//!
//! A round is a transportation problem (`round.rt`): tasks go to places at a cost, and a place's next task costs more
//! than the one before. Places are the machines; the *hub*, over which a task goes to any machine at one cost; and the
//! *outside*, where tasks wait. A proposal is made in three phases:
//!
//! 1. **Price phase** (`price_phase.rt`), an auction at one price of the hub. Prices of machines fall from it until no
//!    task there prefers to leave. Two prices are tried: one at which as many tasks prefer the hub to waiting as there
//!    are slots that cost no more, and that of the last round. The one that was better when both were last tried comes
//!    first; if it clears the market the other is not tried.
//! 2. **Cost phase** (`cost_phase.rt`): an assignment of least cost, with prices as its dual. Of the tasks that are
//!    indifferent to waiting the last ones wait. Augmenting paths (`paths.rt`) assign the tasks that found no slot,
//!    and pull to the hub the units that it lacks: first along tight arcs, in sweeps of searches depth first, each of
//!    which goes on at a place where the last one there ended. Where a sweep finds no path, a search for a shortest
//!    path from all of these tasks raises prices, or lowers them for what is pulled.
//! 3. **Order phase** (`order_phase.rt`): the first of the assignments of least cost. Each task in order gets the
//!    choice that ranks first. Another task or unit makes way along tight residual arcs (`residual.rt`), found by a
//!    search from both ends, which look in turn (`sides.rt`). A search that fails has seen all that leads on from its
//!    start, or all that leads into its goal. These places split off as a class (`classes.rt`), dearer or cheaper than
//!    its parent from the time of the choice on: the rents' levels.
//!
//! Two traps: between hub and machine there is no capacity but the machine's slots, so such an arc stays open where a
//! machine is full of units from the hub; and a machine of which all slots are held by units from the hub becomes
//! dearer from the time at which the last of them could have waited.
#![tactic(auto)]

mod classes;
mod column;
mod cost_phase;
mod heap;
mod index;
mod memory;
mod order_phase;
mod paths;
mod price_phase;
mod proposal;
mod proposer;
mod residual;
mod round;
mod sides;

pub use proposer::Proposer;
