//! Tests alone: rules, rents, and the crates of the solver, from the arena to a tenant's round, asked by their public
//! calls.
//!
//! The facts that contracts state are not tested here, nor those that the scripts of `tests/` show of the built
//! program. `arena.rt` tests what no clause says: each value of an arena is dropped once. The others play tables,
//! arrays of steps that change a value and of its expected state then. In `nets.rt` a worked network is a table of
//! arcs, with the expected flow and the number of looks at each arc. In `graph.rt` a tenant's rows have that very
//! network, and the placements of a round by hand, of docs/PLACEMENT.md and docs/EXPLAIN.md, have their costs and their
//! order.
//!
//! Numbers from a seed make books, whose rounds are proposed, also where that is cut off, and found by searches
//! (`proposals.rt`). The rounds of the built program beside all placements of a book: `tests/compare.py`.
//!
//! Searches and looks are compared exactly, of searches, flows and two first rounds: 2 tasks on 2 machines, 20 on 10
//! (`canon.rt`); of a tenant's, those of its proposal too (`tenants.rt`). Each allocation of `Prices` and `Scratch` was
//! refused in turn outside the gate.
#![tactic(auto)]

#[cfg(test)]
mod tests;
