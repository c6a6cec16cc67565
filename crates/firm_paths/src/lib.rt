#![tactic(auto)]
//! Prices of a net's nodes, and paths through its *residual network*, which has each arc forward where its flow is
//! below the capacity, and backward, with the cost negated, where the flow is above the lower bound. The *reduced cost*
//! of an arc is its cost plus the price of its tail less that of its head; an arc of reduced cost 0 is *tight*. Prices
//! are *valid* if no residual arc has a negative reduced cost.
//!
//! # What is proved
//!
//! A path meets no node twice, and is lent from the scratch until its next search. A *look* reads an arc, even if
//! barred, full or not tight; with b barred arcs it takes up to b comparisons. A search takes at most two looks for
//! each arc of the net; counts stop at 2^64 - 1. Only the two `new` take memory. No clause bounds other work than
//! looks.
//!
//! - `raise` requires two different nodes, valid prices, none above that of `to`, and that at most 2^60.
//! - `tight_paths` finds a path to a node from a goal or, where there is none, from every other that has one, in one
//!   search; `path_from` gives them.
//!
//! # How it works
//!
//! `raise` is Dijkstra's search on reduced costs, up to the goal, which goes first among nodes as near. The queue is a
//! tournament tree: for n nodes and m arcs a search changes at most 2 * m + 2 * n keys, in log n steps each. Of equal
//! keys it does not always give the first place, or searches would come to nodes that lead nowhere again and again.
//! Prices are kept as distances below a base, so a raise touches settled nodes alone, unless the goal's price is below
//! the base, as after a search for another goal.
//!
//! `tight_path` and `tight_paths` are one breadth-first search from the end of the paths against the arcs, up to where
//! the path begins, or else through all nodes. A search resets only the nodes that the one before visited, and writes
//! down as which number it visited each of its own. So `path_from`, which `first_best` of firm_canon calls for each
//! open arc that it tries, scans nothing.

mod laws;
mod prices;
mod queue;
mod scratch;
mod search;
mod shortest;
mod tight;

pub use laws::{arcs_are_rows, searches_add_up};
pub use prices::Prices;
pub use scratch::Scratch;
pub use search::Step;
pub use shortest::raise;
pub use tight::{tight_path, tight_paths};
