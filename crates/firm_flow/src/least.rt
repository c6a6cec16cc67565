//! The flow of least cost, by one augmenting path for each source.
ghost use Rattle.std.specs.Prelude.{◌≡◌, ◌≢◌, ◌↔◌, ℕ, ◌*◌, ◌≤◌, Bool, All, IfSome, IfNone, IfOk, OnOk, OnErr, pos};
ghost use Rattle.std.specs.Prelude.{map, length};
ghost use Rattle.firm_net.specs.Net.{IsNet, IsNode, arc_count, without_flow};
ghost use Rattle.firm_paths.specs.Network.{AreValid};
ghost use Rattle.firm_paths.specs.NetArcs.{arcs_of, residual_of, limits_of};
ghost use Rattle.firm_paths.specs.Paths.{IsCut, IsHighest};
ghost use Rattle.firm_paths.specs.PriceTable.{price_of};
ghost use Rattle.firm_paths.specs.Workspace.{HasSearched};
ghost use Rattle.firm_flow.specs.NetFlow.{places, AreDistinctNodes, SameButFlow, IsLeastFlow, dearest_path};
ghost use Rattle.firm_flow.specs.Flow.{IsDeficientCut, cost_of, carried};
ghost use Rattle.firm_flow.specs.inner.Push.{Moves, SentSoFar, SendsMore};

use firm_net::{Net, NodeId};
use firm_paths::{Prices, Scratch, Step, raise, searches_add_up};

/// A source is cut off from the sink.
#[derive(Clone, Copy, PartialEq, Eq, Debug)]
pub struct NoWay;

/// Pushes one unit along each step.
fn push_all(net: &mut Net, steps: &[Step])
    ensures same { SameButFlow net.old net.new }
    ensures lows { All (λ a. a.low ≡ 0) (arcs_of net.old) → All (λ a. a.low ≡ 0) (arcs_of net.new) }
    ensures moves { Moves net.old (map (residual_of net.old) steps.now) net.new }
    ensures net { IsNet net.old → IsNet net.new }
    ensures arcs { arc_count net.new ≡ arc_count net.old }
{
    for step in steps {
        net.push(step.arc, step.way);
    }
}

/// Sends one unit from a source to the sink, and says how much more the flow costs; `None` where there is no way.
fn send(
    scratch: &mut Scratch,
    net: &mut Net,
    prices: &mut Prices,
    source: NodeId,
    sink: NodeId,
) -> Option<u64>
    requires nodes { IsNode net.old source × IsNode net.old sink × (source ≢ sink) }
    requires made_for { (prices.old.limits ≡ limits_of net.old) × (scratch.old.limits ≡ limits_of net.old) }
    requires sent { SentSoFar net.old (price_of prices.old) sink.id.place }
    ensures counts { HasSearched scratch.old scratch.new 1 (arc_count net.old) }
    ensures limits { prices.new.limits ≡ prices.old.limits }
    ensures same { SameButFlow net.old net.new }
    ensures net { IsNet net.old → IsNet net.new }
    ensures arcs { arc_count net.new ≡ arc_count net.old }
    ensures more { IfSome result (λ more. SendsMore net.old (price_of prices.old) net.new
        (price_of prices.new) source.id.place sink.id.place more) }
    ensures stays { IfNone result (net.new ≡ net.old) }
    ensures none { IfNone result ((inside : ℕ → Bool) × IsCut net.old source.id.place sink.id.place inside) }
{
    let steps = raise(scratch, net, prices, source, sink)?;
    let (Some(high), Some(low)) = (prices.get(net, sink), prices.get(net, source)) else {
        return None;
    };
    push_all(net, steps);
    Some(high - low)
}

/// Sends one unit from each source to the sink at least cost, from prices and a flow of 0, and gives the cost of the
/// flow. `NoWay` only where a set of nodes without the sink holds more sources than the arcs that leave it can carry;
/// every flow and price is then 0. Of the net only low and flow change, and low is 0 on every arc. The sink's price is
/// the highest, and at most 12,285,000,000 for each source. Makes at most one search for each source. Takes no memory.
pub fn solve(
    net: &mut Net,
    prices: &mut Prices,
    scratch: &mut Scratch,
    sources: &[NodeId],
    sink: NodeId,
) -> Result<i64, NoWay>
    requires nodes { AreDistinctNodes net.old sources.now sink }
    requires made_for { (prices.old.limits ≡ limits_of net.old) × (scratch.old.limits ≡ limits_of net.old) }
    ensures same { SameButFlow net.old net.new }
    ensures net_limits { limits_of net.new ≡ limits_of net.old }
    ensures net_nodes { (node : NodeId) → IsNode net.new node ↔ IsNode net.old node }
    ensures net { IsNet net.new }
    ensures limits { prices.new.limits ≡ prices.old.limits }
    ensures scratch { scratch.new.limits ≡ scratch.old.limits }
    ensures counts { (made : ℕ) × (made ≤ length sources.now)
        × HasSearched scratch.old scratch.new made (arc_count net.old) }
    ensures lows { OnOk result (All (λ a. a.low ≡ 0) (arcs_of net.new)) }
    ensures least { OnOk result (IsLeastFlow net.new (places sources.now) sink.id.place) }
    ensures valid { OnOk result (AreValid (arcs_of net.new) (price_of prices.new)) }
    ensures highest { OnOk result (IsHighest net.new (price_of prices.new) sink.id.place) }
    ensures price { OnOk result (price_of prices.new sink.id.place ≤ length sources.now * dearest_path) }
    ensures cost { IfOk result (λ cost. cost ≡ pos (cost_of (arcs_of net.new) carried)) }
    ensures no_way { OnErr result ((inside : ℕ → Bool)
        × IsDeficientCut (arcs_of net.old) (places sources.now) sink.id.place inside) }
    ensures no_flow { OnErr result (net.new ≡ without_flow net.old) }
    ensures no_price { OnErr result ((v : ℕ) → price_of prices.new v ≡ 0) }
{
    searches_add_up();
    net.clear_flow();
    prices.clear();
    let mut cost: u64 = 0;
    for source in sources {
        let Some(more) = send(scratch, net, prices, *source, sink) else {
            net.clear_flow();
            prices.clear();
            return Err(NoWay);
        };
        cost += more;
    }
    Ok(cost as i64)
}
