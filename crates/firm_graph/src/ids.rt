//! The nodes and arcs of a machine, of a job and of a task.
ghost use Rattle.std.specs.Prelude.{◌≡◌, ◌≢◌, ◌<◌, ℕ, true, false, length, map, slice_index_or, IfSome, IfNone};
ghost use Rattle.firm_net.specs.declared.row.NodeId.{NodeId as NodeIdRow};

use crate::preferred::PreferredArcs;
use firm_net::{ArcId, NodeId};
use std::marker::Model;

/// Why a row was not added.
#[derive(Clone, Copy, PartialEq, Eq, Debug)]
pub enum GraphRefusal {
    /// The nodes after the call pass the tenant's limit.
    Nodes,
    /// The arcs after the call pass the tenant's limit.
    Arcs,
    /// A growth was refused.
    Memory,
}

/// The arcs out of a task's node.
#[derive(Clone, Copy)]
pub struct TaskArcs {
    /// To the hub.
    pub wide: ArcId,
    /// To the task's machine; while the task waits, to the hub with capacity 0.
    pub stay: ArcId,
    /// To the node of the task's job.
    pub wait: ArcId,
    /// To the machines that the task prefers, in the order of its row.
    pub preferred: PreferredArcs,
}

/// The node of a task and its arcs.
#[derive(Clone, Copy)]
pub(crate) struct TaskParts {
    pub(crate) node: NodeId,
    pub(crate) arcs: TaskArcs,
}

/// How a task stands: the head of its stay arc, whether it runs there, and how many rounds left it waiting.
#[derive(Clone, Copy)]
pub(crate) struct Stand {
    pub(crate) node: NodeId,
    pub(crate) runs: bool,
    pub(crate) waited: u32,
}

/// The node of a job and its arc to the sink.
#[derive(Clone, Copy)]
pub(crate) struct JobParts {
    pub(crate) node: NodeId,
    pub(crate) exit: ArcId,
}

/// The node of a machine, the arc from the hub to it, and its arcs to the sink, one for each slot.
#[derive(Drop)]
pub(crate) struct MachineIds {
    pub(crate) node: NodeId,
    pub(crate) through: ArcId,
    pub(crate) slots: Vec<ArcId>,
}

impl Model for MachineIds {
    ghost use Rattle.firm_graph.specs.Parts.{MachineParts};

    ghost Value = { MachineParts };

    ghost view = { λ m. record { node = m.node; through = m.through; slots = m.slots.items } };
}

/// The place of the machine with a node.
pub(crate) fn find_machine(machines: &[MachineIds], node: NodeId) -> Option<usize>
    ensures some { IfSome result (λ j. (j < length machines.now)
        × ((other : NodeIdRow) → slice_index_or (map (λ parts. parts.node) machines.now) j other ≡ node)) }
    ensures none { IfNone result ((j : ℕ) → j < length machines.now
        → (other : NodeIdRow) → slice_index_or (map (λ parts. parts.node) machines.now) j other ≢ node) }
{
    for place in 0..machines.len() {
        if has_node(machines, place, node) {
            return Some(place);
        }
    }
    None
}

// Whether the machine at a place has the node.
fn has_node(machines: &[MachineIds], place: usize, node: NodeId) -> bool
    requires { place < length machines.now }
    ensures yes { result ≡ true
        → (other : NodeIdRow) → slice_index_or (map (λ parts. parts.node) machines.now) place other ≡ node }
    ensures no { result ≡ false
        → (other : NodeIdRow) → slice_index_or (map (λ parts. parts.node) machines.now) place other ≢ node }
{
    let parts = &machines[place];
    parts.node == node
}
