//! Names of nodes and arcs, and the row of an arc.
ghost use Rattle.std.specs.Prelude.{◌≡◌, ◌≢◌, ◌↔◌, IsSome, IfSome, IsTrue, false};
ghost use Rattle.firm_net.specs.Row.{Row, IsRow};
ghost use Rattle.firm_net.specs.Net.{IsResidual, AreInRange, with_numbers, with_unit};

use firm_arena::Id;
use std::marker::Model;

/// The largest capacity of an arc, in units of flow.
pub const CAPACITY_LIMIT: u32 = 4_096;

/// The largest cost of a unit of flow along one arc.
pub const COST_LIMIT: u32 = 3_000_000;

/// Names a node of a net. Once the node is removed, the name answers no more.
#[derive(Clone, Copy, PartialEq, Eq, Hash)]
pub struct NodeId {
    pub(crate) id: Id,
}

/// Names an arc of a net. Once the arc is removed, the name answers no more.
#[derive(Clone, Copy, PartialEq, Eq, Hash)]
pub struct ArcId {
    pub(crate) id: Id,
}

/// How a unit of flow goes along an arc: from tail to head, or back.
#[derive(Clone, Copy, PartialEq, Eq, Hash)]
pub enum Way {
    Forward,
    Backward,
}

/// An arc from `tail` to `head`, another node: at least `low` and at most `cap` units flow along it, each at `cost`.
#[derive(Clone, Copy, PartialEq, Eq)]
pub struct ArcRow {
    tail: NodeId,
    head: NodeId,
    low: u32,
    cap: u32,
    cost: u32,
    flow: u32,
}

impl Model for ArcRow {
    ghost use Rattle.firm_net.specs.Row.{Row};

    ghost Value = { Row };

    ghost use Rattle.firm_net.specs.inner.Fields.{row_of, fields_of, IsRowOfFields};

    ghost view = { row_of };

    ghost invariant = { IsRowOfFields };

    ghost inverse = { fields_of };
}

impl ArcRow {
    /// The row of these six values; `None` exactly where the ends are one node, or not
    /// `low <= flow <= cap <= 4,096` and `cost <= 3,000,000`.
    pub fn new(
        tail: NodeId,
        head: NodeId,
        low: u32,
        cap: u32,
        cost: u32,
        flow: u32,
    ) -> Option<ArcRow>
        ensures allowed { IsSome result ↔
            IsRow (record { tail = tail; head = head; low = low; cap = cap; cost = cost; flow = flow }) }
        ensures row { IfSome result (λ row.
            row ≡ record { tail = tail; head = head; low = low; cap = cap; cost = cost; flow = flow }) }
    {
        let in_range = are_in_range(low, cap, cost, flow);
        if tail == head || !in_range {
            return None;
        }
        Some(ArcRow {
            tail,
            head,
            low,
            cap,
            cost,
            flow,
        })
    }

    /// The node that the arc leaves.
    pub fn tail(self) -> NodeId
        ensures value { result ≡ self.tail }
        ensures row { IsRow self }
    {
        self.tail
    }

    /// The node that the arc enters.
    pub fn head(self) -> NodeId
        ensures value { result ≡ self.head }
        ensures row { IsRow self }
    {
        self.head
    }

    /// The fewest units that may flow.
    pub fn low(self) -> u32
        ensures value { result ≡ self.low }
        ensures row { IsRow self }
    {
        self.low
    }

    /// The most units that may flow, at most 4,096.
    pub fn cap(self) -> u32
        ensures value { result ≡ self.cap }
        ensures row { IsRow self }
    {
        self.cap
    }

    /// Cost of one unit of flow, at most 3,000,000.
    pub fn cost(self) -> u32
        ensures value { result ≡ self.cost }
        ensures row { IsRow self }
    {
        self.cost
    }

    /// The units that flow.
    pub fn flow(self) -> u32
        ensures value { result ≡ self.flow }
        ensures row { IsRow self }
    {
        self.flow
    }

    /// Whether the arc is residual this way: forward where `flow < cap`, backward where `flow > low`.
    pub(crate) fn is_residual(self, way: Way) -> bool
        ensures { IsTrue result ↔ IsResidual way self }
    {
        match way {
            Way::Forward => self.flow < self.cap,
            Way::Backward => self.low < self.flow,
        }
    }

    /// One unit more, or one less.
    pub(crate) fn with_unit(self, way: Way) -> ArcRow
        requires { IsResidual way self }
        ensures unit { result ≡ with_unit way self }
        ensures row { IsRow result }
    {
        let flow = match way {
            Way::Forward => self.flow + 1,
            Way::Backward => self.flow - 1,
        };
        ArcRow {
            tail: self.tail,
            head: self.head,
            low: self.low,
            cap: self.cap,
            cost: self.cost,
            flow,
        }
    }

    /// The arc with another head.
    pub(crate) fn with_head(self, head: NodeId) -> ArcRow
        requires { self.tail ≢ head }
        ensures { result ≡ record self { head = head } }
    {
        ArcRow {
            tail: self.tail,
            head,
            low: self.low,
            cap: self.cap,
            cost: self.cost,
            flow: self.flow,
        }
    }

    /// Gives the arc these numbers. False, and nothing changes, exactly where not `low <= flow <= cap <= 4,096` and
    /// `cost <= 3,000,000`.
    pub(crate) fn set_numbers(&mut self, low: u32, cap: u32, cost: u32, flow: u32) -> bool
        ensures allowed { IsTrue result ↔ AreInRange low cap cost flow }
        ensures sets { IsTrue result → self.new ≡ with_numbers low cap cost flow self.old }
        ensures unchanged { result ≡ false → self.new ≡ self.old }
        ensures row { IsRow self.new }
    {
        let in_range = are_in_range(low, cap, cost, flow);
        if in_range {
            self.low = low;
            self.cap = cap;
            self.cost = cost;
            self.flow = flow;
        }
        in_range
    }

    /// Sets low and flow to 0.
    pub(crate) fn clear(&mut self)
        ensures { self.new ≡ record self.old { low = 0; flow = 0 } }
    {
        self.low = 0;
        self.flow = 0;
    }
}

/// Whether an arc may have these numbers.
fn are_in_range(low: u32, cap: u32, cost: u32, flow: u32) -> bool
    ensures { IsTrue result ↔ AreInRange low cap cost flow }
{
    low <= flow && flow <= cap && cap <= CAPACITY_LIMIT && cost <= COST_LIMIT
}
