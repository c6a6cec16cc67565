//! Units sent round cycles that cost nothing.
ghost use Rattle.std.specs.Prelude.{◌≡◌, ℕ, ◌+◌, ◌↔◌, ◌++◌, true, false, Some};
ghost use Rattle.firm_net.specs.Row.{Row};
ghost use Rattle.firm_net.specs.Net.{IsNode, IsNet, IsArc, row_at};
ghost use Rattle.firm_paths.specs.NetArcs.{limits_of};
ghost use Rattle.firm_paths.specs.Paths.{IsTightPath};
ghost use Rattle.firm_paths.specs.PriceTable.{price_of};
ghost use Rattle.firm_graph.specs.View.{Shows};
ghost use Rattle.firm_graph.specs.Ids.{view_of};
ghost use Rattle.firm_canon.specs.inner.Graphs.{IsSameGraph};
ghost use Rattle.firm_canon.specs.inner.Turns.{SameLows, SameOff, CarriesOn, Turned, IsBlocked, IsIdle};
ghost use Rattle.firm_canon.specs.inner.Turns.{IsOpen, IsTightAt, IsLooseAt};

use firm_flow::round_a_cycle;
use firm_graph::Graph;
use firm_net::{ArcId, ArcRow, Net, Way};
use firm_paths::{Prices, Step, arcs_are_rows};

/// Pushes one unit along each step.
fn push_along(graph: &mut Graph, steps: &[Step])
    requires shows { Shows (view_of graph.old) }
    ensures shows { Shows (view_of graph.new) }
    ensures same { IsSameGraph graph.old graph.new }
    ensures lows { SameLows graph.old.net graph.new.net }
    ensures others { SameOff graph.old.net graph.new.net steps.now }
    ensures carries { CarriesOn graph.old.net steps.now graph.new.net }
{
    arcs_are_rows();
    round_a_cycle();
    for step in steps {
        graph.push(step.arc, step.way);
    }
}

/// Whether the reduced cost of an arc is 0.
fn is_tight(net: &Net, prices: &Prices, row: ArcRow) -> bool
    requires made_for { prices.now.limits ≡ limits_of net.now }
    requires tail { IsNode net.now row.tail }
    requires head { IsNode net.now row.head }
    ensures { (result ≡ true) ↔ (row.cost + price_of prices.now row.tail.id.place
        ≡ price_of prices.now row.head.id.place) }
{
    let (Some(tail), Some(head)) = (prices.get(net, row.tail()), prices.get(net, row.head())) else {
        unreachable!()
    };
    tail <= head && head - tail == u64::from(row.cost())
}

/// Whether the reduced cost of the arc with an id is 0.
pub(crate) fn is_tight_arc(graph: &Graph, prices: &Prices, arc: ArcId) -> bool
    requires made_for { prices.now.limits ≡ limits_of graph.now.net }
    requires there { IsArc graph.now.net arc }
    ensures tight { result ≡ true → IsTightAt graph.now.net (price_of prices.now) arc }
    ensures loose { result ≡ false → IsLooseAt graph.now.net (price_of prices.now) arc }
{
    let Some(row) = graph.net().arc(arc) else {
        unreachable!()
    };
    is_tight(graph.net(), prices, row)
}

/// Whether an arc has room and the reduced cost 0.
pub(crate) fn is_open(graph: &Graph, prices: &Prices, arc: ArcId) -> bool
    requires made_for { prices.now.limits ≡ limits_of graph.now.net }
    requires there { IsArc graph.now.net arc }
    ensures open { result ≡ true → IsOpen graph.now.net (price_of prices.now) arc }
    ensures blocked { result ≡ false → IsBlocked graph.now.net (price_of prices.now) arc }
{
    let Some(row) = graph.net().arc(arc) else {
        unreachable!()
    };
    if row.flow() >= row.cap() {
        return false;
    }
    is_tight(graph.net(), prices, row)
}

/// Sends one unit more along an open arc at its lower bound, on from its head by these steps, and by those that lead
/// back from there to its tail.
pub(crate) fn turn(graph: &mut Graph, arc: ArcId, steps: &[Step], back: &[Step])
    requires shows { Shows (view_of graph.old) }
    requires idle { IsIdle graph.old.net arc }
    ensures shows { Shows (view_of graph.new) }
    ensures same { IsSameGraph graph.old graph.new }
    ensures turned { (price : ℕ → ℕ) (row : Row) → row_at graph.old.net arc ≡ Some row
        → IsOpen graph.old.net price arc
        → IsTightPath graph.old.net price row.head.id.place row.tail.id.place (steps.now ++ back.now)
        → Turned graph.old.net graph.new.net price arc }
{
    arcs_are_rows();
    round_a_cycle();
    graph.push(arc, Way::Forward);
    push_along(graph, steps);
    push_along(graph, back);
}
