//! The network: a bounded map of nodes and a bounded map of arcs.
ghost use Rattle.std.specs.Prelude.{◌≡◌, ◌≢◌, ◌+◌, ◌-◌, ◌<◌, ◌≤◌, ◌^◌, ◌↔◌, ◌∷◌, length, map, IsSome, IfSome, IfNone};
ghost use Rattle.std.specs.Prelude.{IfOk, IsOk, OnErr, Some, None, IsTrue};
ghost use Rattle.std.specs.Prelude.{[], false, true, ◌⊎◌};
ghost use Rattle.firm_arena.specs.Arena.{IsVacant, IsFull, capacity_of};
ghost use Rattle.firm_net.specs.Row.{Row, IsRow};
ghost use Rattle.firm_net.specs.Net.{IsNet, IsNode, IsArc, row_at, lists_at, out_list, in_list, place_of, added_of};
ghost use Rattle.firm_net.specs.Net.{node_count, arc_count, CountsAre, empty_net, with_node, without_node, with_arc};
ghost use Rattle.firm_net.specs.Net.{without_row, with_row, with_head, without_flow, with_numbers, with_unit, arcs_on};
ghost use Rattle.firm_net.specs.Net.{rows_of, SameOtherRows, SameOtherNodes};
ghost use Rattle.firm_net.specs.Net.{AreInRange, HasOtherTail, CanPush};
ghost use Rattle.firm_net.specs.Edits.{IsEdit, SameNodes, span_of};

use crate::links::{
    ArcList, Link, Node, Side, clear_rows, link_at_front, set_row, two_arenas, unlink,
};
use crate::row::{ArcId, ArcRow, NodeId, Way};
use crate::walk::Arcs;
use firm_arena::Arena;
use std::alloc::{AllocError, Global};
use std::marker::Model;

/// The most nodes that a net may have room for.
pub const NODE_LIMIT: u32 = 4_096;

/// The most arcs that a net may have room for.
pub const ARC_LIMIT: u32 = 65_536;

/// `Net::add_node` found no room.
#[derive(Clone, Copy, PartialEq, Eq, Debug)]
pub struct NoNode;

/// Why `Net::remove_node` removed nothing.
#[derive(Clone, Copy, PartialEq, Eq, Debug)]
pub enum NodeRefusal {
    /// The node is not there.
    Gone,
    /// The node has arcs.
    Busy,
}

/// Why `Net::add_arc` added nothing.
#[derive(Clone, Copy, PartialEq, Eq, Debug)]
pub enum ArcRefusal {
    /// An end of the arc is not there.
    Gone,
    /// Both ends are there, and there are as many arcs as the net has room for.
    NoArc,
}

/// A network of nodes and arcs, of bounded size.
#[derive(Drop)]
pub struct Net {
    nodes: Arena<Node>,
    links: Arena<Link>,
    added: u64,
    // Set if low and flow of every arc are 0, so that a clear net is not cleared again.
    clear: bool,
}

impl Model for Net {
    ghost use Rattle.firm_net.specs.Net.{Net as Network};

    ghost Value = { Network };

    ghost use Rattle.firm_net.specs.inner.Inside.{net_of, IsSound};

    ghost view = { net_of };

    ghost invariant = { IsSound };
}

impl Net {
    /// An empty net with room for these numbers of nodes and arcs; it takes all its memory now. `Err` only where memory
    /// is refused.
    pub fn new(alloc: Global, nodes: u32, arcs: u32) -> Result<Net, AllocError>
        requires nodes { nodes ≤ 4096 }
        requires arcs { arcs ≤ 65536 }
        ensures empty { IfOk result (λ net. net ≡ empty_net nodes arcs) }
        ensures net { IfOk result (λ net. IsNet net) }
    {
        let (nodes, links) = two_arenas(alloc, nodes, arcs)?;
        Ok(Net {
            nodes,
            links,
            added: 0,
            clear: true,
        })
    }

    /// The nodes and the arcs that there is room for, as `new` was given them.
    pub fn limits(&self) -> (u32, u32)
        ensures nodes { result.0 ≡ capacity_of self.now.nodes }
        ensures arcs { result.1 ≡ capacity_of self.now.arcs }
        ensures net { IsNet self.now }
    {
        (self.nodes.capacity(), self.links.capacity())
    }

    /// Numbers of nodes and arcs that can still be added.
    pub fn room(&self) -> (u32, u32)
        ensures nodes { result.0 + node_count self.now ≡ capacity_of self.now.nodes }
        ensures arcs { result.1 + arc_count self.now ≡ capacity_of self.now.arcs }
        ensures net { IsNet self.now }
    {
        (self.nodes.room(), self.links.room())
    }

    /// Number of nodes and arcs ever added.
    pub fn added(&self) -> u64
        ensures value { result ≡ added_of self.now }
        ensures net { IsNet self.now }
    {
        self.added
    }

    /// The place of a node: below the limit of nodes, another one for each node that is there, and the same as long
    /// as the node is there. `None` exactly where the node is not there.
    pub fn place(&self, node: NodeId) -> Option<u32>
        ensures value { result ≡ place_of self.now node }
        ensures there { IsSome result ↔ IsNode self.now node }
        ensures below { IfSome result (λ place. place < capacity_of self.now.nodes) }
        ensures net { IsNet self.now }
    {
        self.nodes.get(node.id)?;
        Some(node.id.place)
    }

    /// Adds a node without arcs. `NoNode` exactly where as many nodes are there as there is room for.
    pub fn add_node(&mut self) -> Result<NodeId, NoNode>
        requires { added_of self.old < 2 ^ 62 }
        ensures place { IfOk result (λ n. IsVacant self.old.nodes n.id.place) }
        ensures stamp { IfOk result (λ n. n.id.stamp ≡ self.old.nodes.counter) }
        ensures adds { IfOk result (λ n. self.new ≡ with_node self.old n.id.place) }
        ensures others { IfOk result (λ n. SameOtherNodes self.old self.new n) }
        ensures edit { IfOk result (λ n. IsEdit self.old self.new [] (n ∷ []) [] []) }

        ensures counts { IfOk result (λ _. CountsAre self.new (node_count self.old + 1) (arc_count self.old)) }
        ensures room { IsOk result ↔ (node_count self.old < capacity_of self.old.nodes) }
        ensures full { OnErr result (IsFull self.old.nodes) }
        ensures unchanged { OnErr result (self.new ≡ self.old) }
        ensures net_before { IsNet self.old }
        ensures net { IsNet self.new }
    {
        let Ok(id) = self.nodes.put(Node::new()) else {
            return Err(NoNode);
        };
        self.added += 1;
        Ok(NodeId { id })
    }

    /// Removes a node without arcs. `Gone` exactly where it is not there, `Busy` exactly where it has arcs.
    pub fn remove_node(&mut self, node: NodeId) -> Result<(), NodeRefusal>
        ensures removes { IsOk result → self.new ≡ without_node self.old node }
        ensures others { SameOtherNodes self.old self.new node }
        ensures edit { IsOk result → IsEdit self.old self.new (node ∷ []) [] [] [] }

        ensures counts { IsOk result → CountsAre self.new (node_count self.old - 1) (arc_count self.old) }
        ensures free { IsOk result ↔
            IsNode self.old node × (out_list self.old node ≡ []) × (in_list self.old node ≡ []) }
        ensures gone { (result ≡ Err NodeRefusal.Gone) ↔ (lists_at self.old node ≡ None) }
        ensures unchanged { OnErr result (self.new ≡ self.old) }
        ensures net_before { IsNet self.old }
        ensures net { IsNet self.new }
        // The name answers no more, and no later node gets it: each gets the counter at its time as its stamp.
        ensures absent { IsOk result → lists_at self.new node ≡ None }
        ensures stamp { IsOk result → node.id.stamp < self.new.nodes.counter }
    {
        let Some(lists) = self.nodes.get(node.id).copied() else {
            return Err(NodeRefusal::Gone);
        };
        if lists.outgoing.count != 0 {
            return Err(NodeRefusal::Busy);
        }
        if lists.incoming.count != 0 {
            return Err(NodeRefusal::Busy);
        }
        let _ = self.nodes.take(node.id);
        Ok(())
    }

    /// Adds an arc, which stands first in the walks of its ends. `Gone` exactly where an end is not there, else
    /// `NoArc` exactly where as many arcs are there as there is room for.
    pub fn add_arc(&mut self, row: ArcRow) -> Result<ArcId, ArcRefusal>
        requires { added_of self.old < 2 ^ 62 }
        ensures place { IfOk result (λ a. IsVacant self.old.arcs a.id.place) }
        ensures stamp { IfOk result (λ a. a.id.stamp ≡ self.old.arcs.counter) }
        ensures adds { IfOk result (λ a. self.new ≡ with_arc self.old a row) }
        ensures row { IfOk result (λ a. row_at self.new a ≡ Some row) }
        ensures others { IfOk result (λ a. SameOtherRows self.old self.new a) }
        ensures nodes { SameNodes self.old self.new }
        ensures edit { IfOk result (λ a. IsEdit self.old self.new [] [] [] (span_of a row ∷ [])) }

        ensures counts { IfOk result (λ _. CountsAre self.new (node_count self.old) (arc_count self.old + 1)) }
        ensures room { IsOk result ↔
            IsNode self.old row.tail × IsNode self.old row.head × (arc_count self.old < capacity_of self.old.arcs) }
        ensures no_arc { result ≡ Err ArcRefusal.NoArc
            → IsNode self.old row.tail × IsNode self.old row.head × IsFull self.old.arcs }
        ensures gone { result ≡ Err ArcRefusal.Gone
            → (lists_at self.old row.tail ≡ None) ⊎ (lists_at self.old row.head ≡ None) }
        ensures unchanged { OnErr result (self.new ≡ self.old) }
        ensures net_before { IsNet self.old }
        ensures net { IsNet self.new }
    {
        let tail = row.tail();
        let head = row.head();
        let Some(_from) = self.nodes.get(tail.id).copied() else {
            return Err(ArcRefusal::Gone);
        };
        let Some(_to) = self.nodes.get(head.id).copied() else {
            return Err(ArcRefusal::Gone);
        };
        let Ok(id) = self.links.put(Link::new(row)) else {
            return Err(ArcRefusal::NoArc);
        };
        self.clear = false;
        let arc = ArcId { id };
        link_at_front(&mut self.nodes, &mut self.links, Side::Out, tail, arc);
        link_at_front(&mut self.nodes, &mut self.links, Side::In, head, arc);
        self.added += 1;
        Ok(arc)
    }

    /// Removes an arc and gives its row; the other arcs keep their order in the walks. `None` exactly where the arc
    /// is not there, and then nothing changes.
    pub fn remove_arc(&mut self, arc: ArcId) -> Option<ArcRow>
        ensures row { result ≡ row_at self.old arc }
        ensures removes { IfSome result (λ row. self.new ≡ without_row self.old arc row) }
        ensures gone { row_at self.new arc ≡ None }
        ensures counts { IfSome result (λ _. CountsAre self.new (node_count self.old) (arc_count self.old - 1)) }
        ensures others { SameOtherRows self.old self.new arc }
        ensures nodes { SameNodes self.old self.new }
        ensures edit { (row : Row) → row_at self.old arc ≡ Some row
            → IsEdit self.old self.new [] [] (span_of arc row ∷ []) [] }
        ensures unchanged { IfNone result (self.new ≡ self.old) }
        ensures net_before { IsNet self.old }
        ensures net { IsNet self.new }
        // No later arc gets this name: each gets the counter at its time as its stamp.
        ensures stamp { IfSome result (λ _. arc.id.stamp < self.new.arcs.counter) }
    {
        let Some(link) = self.links.get(arc.id).copied() else {
            return None;
        };
        let tail = link.row.tail();
        let head = link.row.head();
        unlink(
            &mut self.nodes,
            &mut self.links,
            Side::Out,
            tail,
            link.outgoing,
        );
        unlink(
            &mut self.nodes,
            &mut self.links,
            Side::In,
            head,
            link.incoming,
        );
        let _ = self.links.take(arc.id);
        self.clear = false;
        Some(link.row)
    }

    /// The row of an arc; `None` exactly where it is not there.
    pub fn arc(&self, arc: ArcId) -> Option<ArcRow>
        ensures row { result ≡ row_at self.now arc }
        ensures in_range { IfSome result (λ row. IsRow row × IsNode self.now row.tail × IsNode self.now row.head) }
        ensures net { IsNet self.now }
    {
        let link = self.links.get(arc.id)?;
        Some(link.row)
    }

    /// The arc at a place, with its row; `None` exactly where no arc stands there. With `used` it visits every arc once
    /// without following the walks.
    pub fn arc_at(&self, place: u32) -> Option<(ArcId, ArcRow)>
        ensures there { IfSome result (λ entry. (entry.0.id.place ≡ place) × (row_at self.now entry.0 ≡ Some entry.1)) }
        ensures ends { IfSome result (λ entry. IsNode self.now entry.1.tail × IsNode self.now entry.1.head) }
        ensures none { IfNone result ((a : ArcId) → IsArc self.now a → a.id.place ≢ place) }
        ensures net { IsNet self.now }
    {
        let id = self.links.id_at(place)?;
        let Some(link) = self.links.get(id) else {
            unreachable!()
        };
        Some((ArcId { id }, link.row))
    }

    /// A place above those of all arcs, at most the limit of arcs.
    pub fn used(&self) -> u32
        ensures below { (a : ArcId) → IsArc self.now a → a.id.place < result }
        ensures within { result ≤ capacity_of self.now.arcs }
        ensures net { IsNet self.now }
    {
        self.links.used()
    }

    /// Gives an arc these numbers. False, and nothing changes, exactly where the arc is not there or not
    /// `low <= flow <= cap <= 4,096` and `cost <= 3,000,000`.
    pub fn set(&mut self, arc: ArcId, low: u32, cap: u32, cost: u32, flow: u32) -> bool
        ensures allowed { IsTrue result ↔ IsArc self.old arc × AreInRange low cap cost flow }
        ensures sets { IsTrue result → self.new ≡ with_row self.old arc (with_numbers low cap cost flow) }
        ensures unchanged { result ≡ false → self.new ≡ self.old }
        ensures row { (row : Row) → row_at self.old arc ≡ Some row → IsTrue result
            → row_at self.new arc ≡ Some (with_numbers low cap cost flow row) }
        ensures counts { CountsAre self.new (node_count self.old) (arc_count self.old) }
        ensures others { SameOtherRows self.old self.new arc }
        ensures nodes { SameNodes self.old self.new }
        ensures edit { (row : Row) → row_at self.old arc ≡ Some row → IsTrue result
            → IsEdit self.old self.new [] [] (span_of arc row ∷ [])
            (span_of arc (with_numbers low cap cost flow row) ∷ []) }
        ensures net_before { IsNet self.old }
        ensures net { IsNet self.new }
    {
        let Some(link) = self.links.get_mut(arc.id) else {
            return false;
        };
        if !link.row.set_numbers(low, cap, cost, flow) {
            return false;
        }
        self.clear = false;
        true
    }

    /// Moves the head of an arc to a node, in whose walk it then stands first. False, and nothing changes, exactly
    /// where the arc or the node is not there, or the node is the arc's tail.
    pub fn retarget(&mut self, arc: ArcId, head: NodeId) -> bool
        ensures allowed { IsTrue result ↔ IsNode self.old head × HasOtherTail (row_at self.old arc) head }
        ensures moves { IsTrue result
            → IfSome (row_at self.old arc) (λ row. self.new ≡ with_head self.old arc row head) }
        ensures unchanged { result ≡ false → self.new ≡ self.old }
        ensures row { (row : Row) → row_at self.old arc ≡ Some row → IsTrue result
            → row_at self.new arc ≡ Some (record row { head = head }) }
        ensures counts { CountsAre self.new (node_count self.old) (arc_count self.old) }
        ensures others { SameOtherRows self.old self.new arc }
        ensures nodes { SameNodes self.old self.new }
        ensures edit { (row : Row) → row_at self.old arc ≡ Some row → IsTrue result
            → IsEdit self.old self.new [] [] (span_of arc row ∷ [])
            (span_of arc (record row { head = head }) ∷ []) }
        ensures net_before { IsNet self.old }
        ensures net { IsNet self.new }
    {
        let Some(link) = self.links.get(arc.id).copied() else {
            return false;
        };
        let Some(_node) = self.nodes.get(head.id).copied() else {
            return false;
        };
        if link.row.tail() == head {
            return false;
        }
        let old = link.row.head();
        unlink(
            &mut self.nodes,
            &mut self.links,
            Side::In,
            old,
            link.incoming,
        );
        set_row(&mut self.links, arc, link.row.with_head(head));
        link_at_front(&mut self.nodes, &mut self.links, Side::In, head, arc);
        self.clear = false;
        true
    }

    /// Moves one unit of flow along an arc, forward or back. False, and nothing changes, exactly where the arc is not
    /// there or has no room: forward needs `flow < cap`, backward `flow > low`.
    pub fn push(&mut self, arc: ArcId, way: Way) -> bool
        ensures allowed { IsTrue result ↔ CanPush way (row_at self.old arc) }
        ensures pushes { IsTrue result → self.new ≡ with_row self.old arc (with_unit way) }
        ensures unchanged { result ≡ false → self.new ≡ self.old }
        ensures row { (row : Row) → row_at self.old arc ≡ Some row → IsTrue result
            → row_at self.new arc ≡ Some (with_unit way row) }
        ensures same { without_flow self.new ≡ without_flow self.old }
        ensures counts { CountsAre self.new (node_count self.old) (arc_count self.old) }
        ensures others { SameOtherRows self.old self.new arc }
        ensures nodes { SameNodes self.old self.new }
        ensures edit { IsEdit self.old self.new [] [] [] [] }
        ensures net_before { IsNet self.old }
        ensures net { IsNet self.new }
    {
        let Some(link) = self.links.get(arc.id).copied() else {
            return false;
        };
        if !link.row.is_residual(way) {
            return false;
        }
        set_row(&mut self.links, arc, link.row.with_unit(way));
        self.clear = false;
        true
    }

    /// Sets low and flow of every arc to 0. All else stays: nodes, ids, ends, capacities, costs and the walks. It looks
    /// at no arc where none was added, removed or changed since the last call.
    pub fn clear_flow(&mut self)
        ensures clears { self.new ≡ without_flow self.old }
        ensures counts { CountsAre self.new (node_count self.old) (arc_count self.old) }
        ensures nodes { SameNodes self.old self.new }
        ensures edit { IsEdit self.old self.new [] [] [] [] }
        ensures net_before { IsNet self.old }
        ensures net { IsNet self.new }
    {
        if self.clear {
            return;
        }
        clear_rows(&mut self.links);
        self.clear = true;
    }

    /// The arcs out of a node, each once, with their rows; none where the node is not there.
    pub fn out_arcs(&self, node: NodeId) -> Arcs<'_>
        ensures arcs { result ≡ rows_of self.now (out_list self.now node) }
        ensures count { length result ≤ capacity_of self.now.arcs }
        ensures net { IsNet self.now }
    {
        self.walk(Side::Out, node)
    }

    /// The arcs into a node, each once, with their rows; none where the node is not there.
    pub fn in_arcs(&self, node: NodeId) -> Arcs<'_>
        ensures arcs { result ≡ rows_of self.now (in_list self.now node) }
        ensures count { length result ≤ capacity_of self.now.arcs }
        ensures net { IsNet self.now }
    {
        self.walk(Side::In, node)
    }

    /// The walk over one list of a node.
    fn walk(&self, side: Side, node: NodeId) -> Arcs<'_>
        ensures arcs { result ≡ rows_of self.now (arcs_on side self.now node) }
        ensures count { length result ≤ capacity_of self.now.arcs }
        ensures net { IsNet self.now }
    {
        let Some(lists) = self.nodes.get(node.id).copied() else {
            return Arcs::new(&self.links, side, ArcList::new());
        };
        Arcs::new(&self.links, side, lists.list(side))
    }
}
