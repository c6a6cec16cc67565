//! A tenant's rows, and a net that always equals the network (docs/ARCHITECTURE.md) that the rows make.
//!
//! A node or arc of the network is named by the place of its machine, job or task in the rows (`Node`, `Key`), not by
//! an id (`specs/Network.antt`). `Shows` of `specs/View.antt` says that a net has exactly the nodes and arcs of the
//! network, each arc once, under different ids.
//!
//! The adders require a new name, known names, and fewer than 2^40 rows ever added (`asked`); they, `open` and
//! `of_rows` alone take memory, before the net changes. `least` always succeeds: a job's arc to the sink has room for
//! all tasks.
//!
//! # How it works
//!
//! `add_new_task` and the `drop_found_..` calls take the places at which names were found: no command looks a name up
//! twice but a new one, before it is refused or added. The others look the names up, and call these.
//!
//! Each change of rows sets the costs that it changes, so `prepare` only clears. A walk over a task's arcs begins with
//! the one to the hub, by which most paths lead on.
#![tactic(auto)]

mod edits;
mod graph;
mod growth;
mod ids;
mod laws;
mod moves;
mod network;
mod preferred;
mod restore;

pub use graph::Graph;
pub use ids::{GraphRefusal, TaskArcs};
pub use laws::{every_graph_shows, networks_are_counted};
pub use network::{Key, Node};
pub use preferred::PreferredArcs;
