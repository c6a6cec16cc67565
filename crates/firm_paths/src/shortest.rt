//! Prices raised until a tight path leads from one node to another.
ghost use Rattle.std.specs.Prelude.{◌≡◌, ◌≢◌, ℕ, ◌+◌, ◌-◌, ◌*◌, ◌<◌, ◌≤◌, ◌^◌, ◌++◌, ◌∷◌, Bool, true, false};
ghost use Rattle.std.specs.Prelude.{[], length};
ghost use Rattle.std.specs.Prelude.{Some, None, is_some, IfOk, IfSome, IfNone, slice_index, slice_set, vec_capacity};
ghost use Rattle.std.specs.Borrow.{sem};
ghost use Rattle.firm_arena.specs.Arena.{capacity_of};
ghost use Rattle.firm_net.specs.Net.{IsNode, IsNet, arc_count, row_at, rows_of, arcs_on};
ghost use Rattle.firm_net.specs.declared.links.Side.TheVariants.{Out, In};
ghost use Rattle.firm_paths.specs.Network.{AreValid};
ghost use Rattle.firm_paths.specs.NetArcs.{arcs_of, limits_of};
ghost use Rattle.firm_paths.specs.Paths.{IsTightPath, IsHighest, IsCut};
ghost use Rattle.firm_paths.specs.PriceTable.{price_of};
ghost use Rattle.firm_paths.specs.Visits.{visit};
ghost use Rattle.firm_paths.specs.inner.Search.{known, settled, state, offered, side_of, start_of};
ghost use Rattle.firm_paths.specs.inner.Search.{visit_at, with_settled, IsLowered};
ghost use Rattle.firm_paths.specs.inner.Search.{IsStanding, IsReached, IsEnd, IsRaised, Looks, LooksAll, LooksBoth};
ghost use Rattle.firm_paths.specs.inner.Search.{IsReachedBy, Gives, HasRoom};
ghost use Rattle.firm_paths.specs.inner.Queue.{IsQueued, IsIdle, AreVisited, AreLeft, AreOpen};
ghost use Rattle.firm_paths.specs.Lending.{Rests};

use crate::prices::Prices;
use crate::queue::{ABSENT, Queue};
use crate::scratch::Scratch;
use crate::search::{
    Current, NodeState, Predecessor, Step, Visit, arcs_leaving, entered, is_residual, walk_back,
};
use firm_net::{ArcRow, Net, NodeId, Way};
use std::alloc::{AllocError, Global};

/// Tables of the search by labels: the state of each place, the open nodes by their distances, the nodes in the order
/// of their visits, and the number of looks at arcs.
#[derive(Drop)]
pub struct Labels {
    pub states: Vec<NodeState>,
    pub queue: Queue,
    pub visits: Vec<Visit>,
    pub looks: u64,
}

impl Labels {
    /// Room for a search among this many nodes. `Err` only where memory is refused.
    pub fn new(alloc: Global, nodes: u32) -> Result<Labels, AllocError>
        ensures size { IfOk result (λ labels. length labels.states.items ≡ nodes) }
        ensures idle { IfOk result (λ labels. IsIdle labels.states.items labels.queue) }
        ensures capacity { IfOk result (λ labels. nodes ≤ vec_capacity labels.visits) }
    {
        let places = nodes as usize;
        let visits = Vec::with_capacity(alloc, places)?;
        let states = vec![in alloc; NodeState::UNKNOWN; places]?;
        let queue = Queue::new(alloc, nodes)?;
        Ok(Labels {
            states,
            queue,
            visits,
            looks: 0,
        })
    }

    /// Gives the node at `place` another state and puts it into the queue, if it is open to a lower label.
    fn relax(&mut self, prices: &Prices, place: usize, reached: NodeState)
        requires place { place < length self.old.states.items }
        requires length { length prices.now.prices ≡ length self.old.states.items }
        requires reached { (is_some reached.node ≡ true) × (reached.settled ≡ false)
            × (reached.label < 18446744073709551615) }
        requires queued { IsQueued (slice_index prices.now.prices) self.old.states.items self.old.queue }
        ensures states { self.new.states.items ≡ offered self.old.states.items place reached }
        ensures queued { IsQueued (slice_index prices.now.prices) self.new.states.items self.new.queue }
        ensures others { (self.new.visits ≡ self.old.visits) × (self.new.looks ≡ self.old.looks) }
    {
        let state = self.states[place];
        if !state.settled && (state.node.is_none() || reached.label < state.label) {
            self.states[place] = reached;
            let key = reached.label.saturating_sub(prices.at(place));
            self.queue.set(place, key);
        }
    }

    /// Relaxes one arc: labels the node to which a step along it leads from the node where the search stands.
    fn relax_arc(&mut self, net: &Net, prices: &Prices, current: Current, step: Step, row: ArcRow)
        requires length { (length self.old.states.items ≡ capacity_of net.now.nodes)
            × (length prices.now.prices ≡ capacity_of net.now.nodes) }
        requires place { current.place < length self.old.states.items }
        requires row { row_at net.now step.arc ≡ Some row }
        requires start { (start_of step.way row).id.place ≡ current.place }
        requires net { IsNet net.now }
        requires valid { AreValid (arcs_of net.now) (slice_index prices.now.prices) }
        requires stands { IsStanding net.now (slice_index prices.now.prices) current self.old.visits.items
            self.old.states.items }
        requires queued { IsQueued (slice_index prices.now.prices) self.old.states.items self.old.queue }
        ensures lowers { IsLowered self.old.states.items self.new.states.items }
        ensures looks { Looks net.now (slice_index prices.now.prices) current self.old.visits.items step.way row
            self.old.states.items self.new.states.items }
        ensures queued { IsQueued (slice_index prices.now.prices) self.new.states.items self.new.queue }
        ensures others { (self.new.visits ≡ self.old.visits) × (self.new.looks ≡ self.old.looks) }
    {
        if !is_residual(row, step.way) {
            return;
        }
        let node = entered(row, step.way);
        let Some(place) = net.place(node) else {
            unreachable!()
        };
        let label = label_after(self.states[current.place].label, row.cost(), step.way);
        let after = current.number;
        let reached = NodeState {
            node: Some(node),
            label,
            settled: false,
            predecessor: Some(Predecessor { step, after }),
        };
        self.relax(prices, place as usize, reached);
    }

    /// Relaxes every arc by which a step this way leaves the node where the search stands.
    fn relax_arcs(&mut self, net: &Net, prices: &Prices, current: Current, way: Way)
        requires length { (length self.old.states.items ≡ capacity_of net.now.nodes)
            × (length prices.now.prices ≡ capacity_of net.now.nodes) }
        requires place { current.place < length self.old.states.items }
        requires node { IsNode net.now current.node × (current.node.id.place ≡ current.place) }
        requires valid { AreValid (arcs_of net.now) (slice_index prices.now.prices) }
        requires stands { IsStanding net.now (slice_index prices.now.prices) current self.old.visits.items
            self.old.states.items }
        requires queued { IsQueued (slice_index prices.now.prices) self.old.states.items self.old.queue }
        requires count { self.old.looks ≤ 2 ^ 62 }
        ensures lowers { IsLowered self.old.states.items self.new.states.items }
        ensures looks { LooksAll net.now (slice_index prices.now.prices) current self.old.visits.items way
            self.old.states.items self.new.states.items }
        ensures queued { IsQueued (slice_index prices.now.prices) self.new.states.items self.new.queue }
        ensures counts { self.new.looks
            ≡ self.old.looks + length (rows_of net.now (arcs_on (side_of way) net.now current.node)) }
        ensures visits { self.new.visits ≡ self.old.visits }
        ensures net { IsNet net.now }
    {
        for (arc, row) in arcs_leaving(net, current.node, way) {
            self.relax_arc(net, prices, current, Step { arc, way }, row);
            self.looks += 1;
        }
    }

    /// Relaxes every arc by which a step leaves the node where the search stands.
    fn relax_node(&mut self, net: &Net, prices: &Prices, current: Current)
        requires length { (length self.old.states.items ≡ capacity_of net.now.nodes)
            × (length prices.now.prices ≡ capacity_of net.now.nodes) }
        requires place { current.place < length self.old.states.items }
        requires node { IsNode net.now current.node × (current.node.id.place ≡ current.place) }
        requires valid { AreValid (arcs_of net.now) (slice_index prices.now.prices) }
        requires stands { IsStanding net.now (slice_index prices.now.prices) current self.old.visits.items
            self.old.states.items }
        requires queued { IsQueued (slice_index prices.now.prices) self.old.states.items self.old.queue }
        requires count { self.old.looks ≤ 2 ^ 61 }
        ensures lowers { IsLowered self.old.states.items self.new.states.items }
        ensures looks { LooksBoth net.now (slice_index prices.now.prices) current self.old.visits.items
            self.old.states.items self.new.states.items }
        ensures queued { IsQueued (slice_index prices.now.prices) self.new.states.items self.new.queue }
        ensures counts { self.new.looks
            ≡ self.old.looks + length (rows_of net.now (arcs_on Out net.now current.node))
            + length (rows_of net.now (arcs_on In net.now current.node)) }
        ensures visits { self.new.visits ≡ self.old.visits }
        ensures net { IsNet net.now }
    {
        self.relax_arcs(net, prices, current, Way::Forward);
        self.relax_arcs(net, prices, current, Way::Backward);
    }

    /// Forgets every state, and empties the queue.
    fn forget(&mut self)
        requires length { length self.old.queue ≡ length self.old.states.items }
        requires places { (i : ℕ) → i < length self.old.visits.items
            → (visit self.old.visits.items i).place < length self.old.states.items }
        requires left { AreLeft self.old.states.items self.old.queue self.old.visits.items 0 }
        ensures idle { IsIdle self.new.states.items self.new.queue }
        ensures size { length self.new.states.items ≡ length self.old.states.items }
        ensures others { (self.new.visits ≡ self.old.visits) × (self.new.looks ≡ self.old.looks) }
    {
        forget_visits(&mut self.states, &self.queue, &self.visits);
        forget_queued(&mut self.states, &mut self.queue);
    }

    /// Makes the start the only open node.
    fn open(&mut self, prices: &Prices, start: Visit)
        requires place { start.place < length self.old.states.items }
        requires length { length prices.now.prices ≡ length self.old.states.items }
        requires idle { IsIdle self.old.states.items self.old.queue }
        ensures states { self.new.states.items ≡ slice_set self.old.states.items start.place
            (record {
              node = Some start.node;
              label = slice_index prices.now.prices start.place;
              settled = false;
              predecessor = None;
            }) }
        ensures queue { self.new.queue ≡ slice_set self.old.queue start.place 0 }
        ensures visits { self.new.visits.items ≡ [] }
        ensures capacity { vec_capacity self.new.visits ≡ vec_capacity self.old.visits }
        ensures looks { self.new.looks ≡ 0 }
    {
        self.looks = 0;
        self.visits.clear();
        self.states[start.place] = NodeState {
            node: Some(start.node),
            label: prices.at(start.place),
            settled: false,
            predecessor: None,
        };
        self.queue.set(start.place, 0);
    }

    /// Visits the node at a place; says where the search then stands.
    fn visit(&mut self, place: usize) -> Option<Current>
        requires place { place < length self.old.states.items }
        requires room { length self.old.visits.items < vec_capacity self.old.visits }
        ensures current { IfSome result (λ current. (Some current.node ≡ (state self.old.states.items place).node)
            × (current.place ≡ place) × (current.number ≡ length self.old.visits.items)) }
        ensures visits { IfSome result (λ current. self.new.visits.items
            ≡ self.old.visits.items ++ visit_at self.old.states.items place current.node ∷ []) }
        ensures unknown { IfNone result ((known self.old.states.items place ≡ false) × (self.new ≡ self.old)) }
        ensures capacity { vec_capacity self.new.visits ≡ vec_capacity self.old.visits }
        ensures others { (self.new.states ≡ self.old.states) × (self.new.queue ≡ self.old.queue)
            × (self.new.looks ≡ self.old.looks) }
    {
        let state = self.states[place];
        let node = state.node?;
        let number = self.visits.len();
        self.visits.push_reserved(Visit {
            node,
            place,
            predecessor: state.predecessor,
        });
        Some(Current {
            node,
            place,
            number,
        })
    }

    /// Settles the node at a place, which leaves the queue.
    fn settle(&mut self, place: usize)
        requires place { (place < length self.old.states.items) × (place < length self.old.queue) }
        ensures states { self.new.states.items ≡ with_settled self.old.states.items place }
        ensures queue { self.new.queue ≡ slice_set self.old.queue place 18446744073709551615 }
        ensures others { (self.new.visits ≡ self.old.visits) × (self.new.looks ≡ self.old.looks) }
    {
        self.states[place].settled = true;
        self.queue.set(place, ABSENT);
    }

    /// Settles nodes from the start on, nearest first, until the goal is next; says as which number it was visited. Of
    /// nodes as near the goal goes first.
    fn dijkstra(&mut self, net: &Net, prices: &Prices, start: Visit, goal: usize) -> Option<usize>
        requires length { (length prices.now.prices ≡ capacity_of net.now.nodes)
            × (length self.old.states.items ≡ capacity_of net.now.nodes) }
        requires room { capacity_of net.now.nodes ≤ vec_capacity self.old.visits }
        requires start { IsNode net.now start.node × (start.node.id.place ≡ start.place) }
        requires goal { (goal < capacity_of net.now.nodes) × (start.place ≢ goal) }
        requires valid { AreValid (arcs_of net.now) (slice_index prices.now.prices) }
        requires low { (slice_index prices.now.prices start.place ≤ 2 ^ 60) × (capacity_of net.now.nodes ≤ 4096) }
        requires idle { IsIdle self.old.states.items self.old.queue }
        requires net { IsNet net.now }
        ensures found { IfSome result (IsReached net.now (slice_index prices.now.prices) start.place goal
            self.new.states.items self.new.visits.items) }
        ensures none { IfNone result (IsEnd net.now start.place goal self.new.states.items) }
        ensures size { length self.new.states.items ≡ length self.old.states.items }
        ensures capacity { vec_capacity self.new.visits ≡ vec_capacity self.old.visits }
        ensures visited { AreVisited self.new.states.items self.new.visits.items }
        ensures queued { IsQueued (slice_index prices.now.prices) self.new.states.items self.new.queue }
        ensures counts { self.new.looks ≤ 2 * length (arcs_of net.now) }
    {
        self.open(prices, start);
        while let Some(place) = self.queue.least(goal) {
            let current = self.visit(place)?;
            if place == goal {
                return Some(current.number);
            }
            self.settle(place);
            self.relax_node(net, prices, current);
        }
        None
    }

    /// Searches and raises the prices as `raise` does; says as which number the node at the end was visited.
    fn find_shortest(
        &mut self,
        net: &Net,
        prices: &mut Prices,
        from: NodeId,
        to: NodeId,
    ) -> Option<usize>
        requires nodes { IsNode net.now from × IsNode net.now to × (from ≢ to) }
        requires length { (length prices.old.prices ≡ capacity_of net.now.nodes)
            × (length self.old.states.items ≡ capacity_of net.now.nodes) }
        requires capacity { capacity_of net.now.nodes ≤ vec_capacity self.old.visits }
        requires valid { AreValid (arcs_of net.now) (slice_index prices.old.prices) }
        requires highest { IsHighest net.now (slice_index prices.old.prices) to.id.place }
        requires room { slice_index prices.old.prices to.id.place ≤ 2 ^ 60 }
        requires idle { IsIdle self.old.states.items self.old.queue }
        ensures counts { self.new.looks ≤ 2 * arc_count net.now }
        ensures idle { IsIdle self.new.states.items self.new.queue }
        ensures size { length self.new.states.items ≡ length self.old.states.items }
        ensures limits { prices.new.limits ≡ prices.old.limits }
        ensures found { IfSome result (λ end. IsRaised net.now prices.old.prices prices.new.prices to.id.place
            × IsReachedBy net.now (slice_index prices.new.prices) [] from.id.place to.id.place
            self.new.visits.items end) }
        ensures few { IfSome result (λ _. length self.new.visits.items ≤ capacity_of net.now.nodes) }
        ensures unchanged { IfNone result (prices.new ≡ prices.old) }
        ensures none { IfNone result ((inside : ℕ → Bool) × IsCut net.now from.id.place to.id.place inside) }
        ensures capacity { vec_capacity self.new.visits ≡ vec_capacity self.old.visits }
    {
        let (Some(place), Some(goal)) = (net.place(from), net.place(to)) else {
            unreachable!()
        };
        let (place, goal) = (place as usize, goal as usize);
        let start = Visit {
            node: from,
            place,
            predecessor: None,
        };
        let Some(end) = self.dijkstra(net, prices, start, goal) else {
            self.forget();
            return None;
        };
        let distance = self.states[goal].label - prices.at(goal);
        prices.raise(&self.states, &self.visits, goal, distance);
        self.forget();
        Some(end)
    }
}

/// The label of the node to which a step leads from a node with a label, along an arc of this cost.
fn label_after(label: u64, cost: u32, way: Way) -> u64
    requires { HasRoom way label cost }
    ensures given { Gives way label cost result }
    ensures bound { result ≤ label + cost }
{
    let cost = u64::from(cost);
    match way {
        Way::Forward => label + cost,
        Way::Backward => label - cost,
    }
}

/// Forgets the state of each node that was visited.
fn forget_visits(states: &mut [NodeState], queue: &Queue, visits: &[Visit])
    requires places { (i : ℕ) → i < length visits.now → (visit visits.now i).place < length states.old }
    requires left { AreLeft states.old queue.now visits.now 0 }
    ensures size { length states.new ≡ length states.old }
    ensures left { AreOpen states.new queue.now }
{
    for i in 0..visits.len() {
        states[visits[i].place] = NodeState::UNKNOWN;
    }
}

/// Forgets the state of each node that stands in the queue, and takes it out.
fn forget_queued(states: &mut [NodeState], queue: &mut Queue)
    requires length { length queue.old ≡ length states.old }
    requires left { AreOpen states.old queue.old }
    ensures size { length states.new ≡ length states.old }
    ensures idle { IsIdle states.new queue.new }
{
    while let Some(place) = queue.least(0) {
        states[place] = NodeState::UNKNOWN;
        queue.set(place, ABSENT);
    }
}

/// Raises prices, which stay valid, until a path over residual arcs of reduced cost 0 leads from `from` to `to`, and
/// gives it. No node's price falls. No node has a higher price than `to`, before and after, and that price grows by at
/// most 4,095 times 3,000,000, which is what the longest path may cost. `None` only where a set of nodes holds `from`
/// and not `to`, and no residual arc leaves it; the prices then stay as they were. Counts one search, and at most two
/// looks for each arc. Takes no memory.
pub fn raise<'s>(
    scratch: &'s mut Scratch,
    net: &Net,
    prices: &mut Prices,
    from: NodeId,
    to: NodeId,
) -> Option<&'s [Step]>
    requires nodes { IsNode net.now from × IsNode net.now to × (from ≢ to) }
    requires made_for { (prices.old.limits ≡ limits_of net.now) × (scratch.old.limits ≡ limits_of net.now) }
    requires valid { AreValid (arcs_of net.now) (price_of prices.old) }
    requires highest { IsHighest net.now (price_of prices.old) to.id.place }
    requires room { price_of prices.old to.id.place ≤ 2 ^ 60 }
    ensures* rests { sem 𝓛 (Rests scratch.entry (arc_count net.now)) }
    ensures limits { prices.new.limits ≡ prices.old.limits }
    ensures valid { AreValid (arcs_of net.now) (price_of prices.new) }
    ensures highest { IsHighest net.now (price_of prices.new) to.id.place }
    ensures rises { (node : NodeId) → IsNode net.now node
        → price_of prices.old node.id.place ≤ price_of prices.new node.id.place }
    ensures bound { price_of prices.new to.id.place ≤ price_of prices.old to.id.place + 4095 * 3000000 }
    ensures path { IfSome result (λ steps. IsTightPath net.now
        (price_of prices.new) from.id.place to.id.place steps.now) }
    ensures unchanged { IfNone result (prices.new ≡ prices.old) }
    ensures none { IfNone result ((inside : ℕ → Bool) × IsCut net.now from.id.place to.id.place inside) }
{
    let _places = prices.places();
    let found = scratch.labels.find_shortest(net, prices, from, to);
    scratch.searches = scratch.searches.saturating_add(1);
    scratch.looks = scratch.looks.saturating_add(scratch.labels.looks);
    let Some(end) = found else {
        return None;
    };
    walk_back(&scratch.labels.visits, end, &mut scratch.steps);
    Some(&scratch.steps[..])
}
