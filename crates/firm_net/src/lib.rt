//! A directed network of bounded size. A node's lists of arcs are linked through the arcs, so each change of an arc
//! takes the same time in any network.
//!
//! Contracts see two maps (`specs/Net.antt`): the nodes, each with its lists of outgoing and incoming arcs, and the
//! arcs, each with its row. The lists are part of the value, so two walks of an unchanged net agree. Every call ensures
//! `IsNet`: the ends of an arc are different nodes of the net, and each arc is exactly once in each of its two lists.
//!
//! Each change is one equation between the nets before and after, such as `with_node`. It is also an *edit*
//! (`specs/Edits.antt`): the nodes and arcs removed and added, without places, lists, lower bounds or flow; callers
//! with a network of their own reason by edits. At most 4,096 nodes and 65,536 arcs. `add_node` and `add_arc` require
//! that fewer than 2^62 nodes and arcs were ever added, so no stamp runs out. Only `new` takes memory.
#![tactic(auto)]

mod links;
mod net;
mod row;
mod walk;

pub use net::{ARC_LIMIT, ArcRefusal, NODE_LIMIT, Net, NoNode, NodeRefusal};
pub use row::{ArcId, ArcRow, CAPACITY_LIMIT, COST_LIMIT, NodeId, Way};
pub use walk::Arcs;
