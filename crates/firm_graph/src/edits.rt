//! Edits of a net, each with what it takes away and brings.
ghost use Rattle.std.specs.Prelude.{◌≡◌, ◌≢◌, ◌+◌, ◌^◌, ◌<◌, ◌≤◌, None, Some, [], ◌∷◌, ◌++◌, vec_len, vec_capacity};
ghost use Rattle.std.specs.Prelude.{length, map, true, nat_lt, if◌then◌else◌, All, Contains};
ghost use Rattle.firm_arena.specs.Arena.{capacity_of};
ghost use Rattle.firm_net.specs.Row.{Row};
ghost use Rattle.firm_net.specs.Net.{IsNet, IsNode, lists_at, row_at, out_list, in_list, added_of, node_count};
ghost use Rattle.firm_net.specs.Net.{arc_count};
ghost use Rattle.std.specs.Prelude.{ℕ, List, slice_index_or};
ghost use Rattle.firm_net.specs.Net.{Net as NetRow};
ghost use Rattle.firm_net.specs.declared.row.NodeId.{NodeId as NodeIdRow};
ghost use Rattle.firm_graph.specs.Graph.{slot_spans, preferred_spans};
ghost use Rattle.firm_net.specs.Edits.{Span, IsEdit, span_of};
ghost use Rattle.firm_graph.specs.inner.Steps.{Holds};

use crate::ids::{MachineIds, TaskParts};
use crate::preferred::PreferredArcs;
use firm_net::{ArcId, ArcRow, Net, NodeId};
use firm_rules::{Limits, slot_cost};
use firm_sequence::Sequence;

/// Adds a node to a net with room for it.
pub(crate) fn put_node(net: &mut Net) -> NodeId
    requires room { node_count net.old < capacity_of net.old.nodes }
    requires stamps { added_of net.old < 2 ^ 62 }
    ensures edit { IsEdit net.old net.new [] (result ∷ []) [] [] }
    ensures fresh { lists_at net.old result ≡ None }
    ensures there { IsNode net.new result }
    ensures nodes { (n : NodeId) → IsNode net.old n → IsNode net.new n }
{
    let Ok(node) = net.add_node() else {
        unreachable!()
    };
    node
}

/// Adds an arc without flow to a net with room for it.
pub(crate) fn link(net: &mut Net, tail: NodeId, head: NodeId, cap: u32, cost: u32) -> ArcId
    requires tail { IsNode net.old tail }
    requires head { IsNode net.old head }
    requires ends { tail ≢ head }
    requires cap { cap ≤ 4096 }
    requires cost { cost ≤ 3000000 }
    requires room { arc_count net.old < capacity_of net.old.arcs }
    requires stamps { added_of net.old < 2 ^ 62 }
    ensures edit { IsEdit net.old net.new [] [] []
        (record { arc = result; tail = tail; head = head; cap = cap; cost = cost } ∷ []) }
    ensures nodes { (n : NodeId) → IsNode net.old n → IsNode net.new n }
{
    let Some(row) = ArcRow::new(tail, head, 0, cap, cost, 0) else {
        unreachable!()
    };
    let Ok(arc) = net.add_arc(row) else {
        unreachable!()
    };
    arc
}

/// Removes an arc.
pub(crate) fn unlink(net: &mut Net, arc: ArcId)
    ensures edit { (row : Row) → row_at net.old arc ≡ Some row
        → IsEdit net.old net.new [] [] (span_of arc row ∷ []) [] }
    ensures net { IsNet net.new }
{
    net.remove_arc(arc);
}

/// Removes a node without arcs.
pub(crate) fn drop_node(net: &mut Net, node: NodeId)
    requires there { IsNode net.old node }
    requires out { out_list net.old node ≡ [] }
    requires into { in_list net.old node ≡ [] }
    ensures edit { IsEdit net.old net.new (node ∷ []) [] [] [] }
{
    let Ok(()) = net.remove_node(node) else {
        unreachable!()
    };
}

/// Gives an arc that is there another capacity and cost, and no flow.
pub(crate) fn rate(net: &mut Net, arc: ArcId, cap: u32, cost: u32)
    requires cap { cap ≤ 4096 }
    requires cost { cost ≤ 3000000 }
    ensures edit { (row : Row) → row_at net.old arc ≡ Some row
        → IsEdit net.old net.new [] [] (span_of arc row ∷ [])
        (record { arc = arc; tail = row.tail; head = row.head; cap = cap; cost = cost } ∷ []) }
    ensures added { added_of net.new ≤ added_of net.old }
    ensures net { IsNet net.new }
{
    net.set(arc, 0, cap, cost, 0);
}

/// Moves the head of an arc that is there to a node other than its tail.
pub(crate) fn lead(net: &mut Net, arc: ArcId, head: NodeId)
    ensures edit { (row : Row) → row_at net.old arc ≡ Some row → IsNode net.old head → row.tail ≢ head
        → IsEdit net.old net.new [] [] (span_of arc row ∷ [])
        (record { arc = arc; tail = row.tail; head = head; cap = row.cap; cost = row.cost } ∷ []) }
    ensures added { added_of net.new ≤ added_of net.old }
    ensures net { IsNet net.new }
{
    net.retarget(arc, head);
}

/// Adds a value to a list with room for it.
pub(crate) fn push_reserved<T: Drop>(list: &mut Vec<T>, value: T)
    requires { vec_len list.old < vec_capacity list.old }
    ensures items { list.new.items ≡ list.old.items ++ value ∷ [] }
    ensures capacity { vec_capacity list.old ≤ vec_capacity list.new }
    ensures len { vec_len list.new ≡ vec_len list.old + 1 }
{
    let Ok(()) = list.push(value) else {
        unreachable!()
    };
}

/// Adds the parts of a task to a sequence with room for them.
pub(crate) fn push_task(tasks: &mut Sequence<TaskParts>, parts: TaskParts)
    requires { 0 < tasks.old.room }
    ensures items { tasks.new.items ≡ tasks.old.items ++ parts ∷ [] }
{
    let Ok(()) = tasks.push(parts) else {
        unreachable!()
    };
}

/// The arcs of a machine's slots: the machine's node, the sink, the tenant's spread, and the number of slots.
#[derive(Clone, Copy)]
pub(crate) struct SlotArcs {
    pub(crate) node: NodeId,
    pub(crate) sink: NodeId,
    pub(crate) spread: u32,
    pub(crate) count: u32,
}

/// Adds the arcs of a machine's slots.
pub(crate) fn link_slots(net: &mut Net, ladder: SlotArcs, slots: &mut Vec<ArcId>)
    requires node { IsNode net.old ladder.node }
    requires sink { IsNode net.old ladder.sink }
    requires ends { ladder.node ≢ ladder.sink }
    requires spread { ladder.spread ≤ 1000 }
    requires count { ladder.count ≤ 64 }
    requires empty { slots.old.items ≡ [] }
    requires reserved { ladder.count ≤ vec_capacity slots.old }
    requires room { arc_count net.old + ladder.count ≤ capacity_of net.old.arcs }
    requires stamps { added_of net.old + ladder.count < 2 ^ 62 }
    requires net { IsNet net.old }
    ensures edit { IsEdit net.old net.new [] [] []
        (slot_spans ladder.node ladder.sink ladder.spread 0 slots.new.items) }
    ensures count { length slots.new.items ≡ ladder.count }
{
    for k in 0..ladder.count {
        let cost = slot_cost(u64::from(ladder.spread), u64::from(k)) as u32;
        let arc = link(net, ladder.node, ladder.sink, 1, cost);
        push_reserved(slots, arc);
    }
}

/// Removes the arcs of a machine's slots.
pub(crate) fn unlink_slots(net: &mut Net, slots: &[ArcId])
    requires net { IsNet net.old }
    ensures net { IsNet net.new }
    ensures left { (ns : List NodeIdRow) (ss : List Span) (node sink : NodeIdRow) (spread : ℕ)
        → Holds net.old net.old ns (slot_spans node sink spread 0 slots.now ++ ss) → Holds net.old net.new ns ss }
{
    for arc in slots {
        unlink(net, *arc);
    }
}

/// Adds an arc that costs nothing to the machine at each of these places.
pub(crate) fn link_preferred(
    net: &mut Net,
    node: NodeId,
    machines: &[MachineIds],
    places: &[u32],
) -> PreferredArcs
    requires net { IsNet net.old }
    requires node { IsNode net.old node }
    requires heads { All (λ head. IsNode net.old head × (node ≢ head)) (map (λ parts. parts.node) machines.now) }
    requires there { All (λ place. place < length machines.now) places.now }
    requires few { length places.now ≤ 4 }
    requires room { arc_count net.old + length places.now ≤ capacity_of net.old.arcs }
    requires stamps { added_of net.old + 4 < 2 ^ 62 }
    ensures edit { (hub : NodeIdRow) → IsEdit net.old net.new [] [] [] (preferred_spans node 0
        (map (λ place. slice_index_or (map (λ parts. parts.node) machines.now) place hub) places.now) result) }
    ensures count { length result ≡ length places.now }
    ensures nodes { (n : NodeIdRow) → IsNode net.old n → IsNode net.new n }
    ensures arcs { arc_count net.new ≤ arc_count net.old + length places.now }
    ensures arc_room { capacity_of net.new.arcs ≡ capacity_of net.old.arcs }
    ensures added { added_of net.new ≤ added_of net.old + length places.now }
{
    let mut arcs = PreferredArcs::new();
    for place in places {
        let arc = link(net, node, node_at(machines, *place), 1, 0);
        arcs.add(arc);
    }
    arcs
}

// The node of the machine at a place.
fn node_at(machines: &[MachineIds], place: u32) -> NodeId
    requires there { place < length machines.now }
    ensures node { (hub : NodeIdRow) → result ≡ slice_index_or (map (λ parts. parts.node) machines.now) place hub }
    ensures listed { Contains (map (λ parts. parts.node) machines.now) result }
{
    let parts = &machines[place as usize];
    parts.node
}

/// Removes the arcs of a task to the machines that it prefers.
pub(crate) fn unlink_preferred(net: &mut Net, arcs: PreferredArcs)
    requires net { IsNet net.old }
    ensures net { IsNet net.new }
    ensures left { (ns : List NodeIdRow) (ss : List Span) (node : NodeIdRow) (cost : ℕ) (heads : List NodeIdRow)
        → length heads ≡ length arcs
        → Holds net.old net.old ns (preferred_spans node cost heads arcs ++ ss) → Holds net.old net.new ns ss }
{
    for place in 0..arcs.len() {
        unlink(net, arcs.at(place));
    }
}

/// Gives the arcs of a task to the machines that it prefers another cost, and no flow.
pub(crate) fn rate_preferred(net: &mut Net, arcs: &PreferredArcs, cost: u32)
    requires cost { cost ≤ 3000000 }
    requires net { IsNet net.old }
    ensures rated { (base : NetRow) (ns : List NodeIdRow) (ss : List Span) (node : NodeIdRow) (old : ℕ)
        (heads : List NodeIdRow) → length heads ≡ length arcs.now
        → Holds base net.old ns (preferred_spans node old heads arcs.now ++ ss)
        → Holds base net.new ns (preferred_spans node cost heads arcs.now ++ ss) }
    ensures net { IsNet net.new }
{
    for place in 0..arcs.len() {
        rate(net, arcs.at(place), 1, cost);
    }
}

/// The cost of the way by the hub for a task with this number of preferences, without churn.
pub(crate) fn away_cost(limits: Limits, preferences: usize) -> u32
    ensures value { result ≡ (if nat_lt 0 preferences then limits.remote else 0) }
    ensures most { result ≤ 1000000 }
{
    if preferences > 0 {
        limits.remote() as u32
    } else {
        0
    }
}
