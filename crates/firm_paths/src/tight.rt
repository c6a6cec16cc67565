//! Paths over residual arcs of reduced cost 0.
ghost use Rattle.std.specs.Prelude.{◌≡◌, ◌≢◌, ℕ, ◌+◌, ◌*◌, ◌^◌, ◌<◌, ◌≤◌, ◌↔◌, ◌⊎◌, Bool, false, true, [], length};
ghost use Rattle.std.specs.Prelude.{Contains, IfNone, IfOk, IfSome, IsTrue, List, None, Some};
ghost use Rattle.std.specs.Prelude.{slice_index, slice_index_or, vec_capacity};
ghost use Rattle.std.specs.Borrow.{sem};
ghost use Rattle.firm_arena.specs.Arena.{capacity_of};
ghost use Rattle.firm_net.specs.Net.{IsNode, IsNet, arc_count, row_at, rows_of, arcs_on};
ghost use Rattle.firm_net.specs.declared.links.Side.TheVariants.{Out, In};
ghost use Rattle.firm_paths.specs.NetArcs.{arcs_of, limits_of};
ghost use Rattle.firm_paths.specs.Paths.{ArePaths, IsTightPath, Avoids, IsTightCut};
ghost use Rattle.firm_paths.specs.PriceTable.{price_of};
ghost use Rattle.firm_paths.specs.Visits.{number_of, paths_of, visit};
ghost use Rattle.firm_paths.specs.inner.Search.{side_of, start_of};
ghost use Rattle.firm_paths.specs.inner.Queue.{IsVisited};
ghost use Rattle.firm_paths.specs.inner.Spread.{seen_with, visits_with, IsGrown, IsCounted, Spreads, SpreadsAll};
ghost use Rattle.firm_paths.specs.inner.Spread.{SpreadsBoth, Agree, AreApart, AreNumbered, IsFoundBy, IsSpent};
ghost use Rattle.firm_paths.specs.Workspace.{HasSearched};
ghost use Rattle.firm_paths.specs.declared.search.Step.{Step as AStep};
ghost use Rattle.firm_paths.specs.Lending.{Rests};

use crate::prices::Prices;
use crate::scratch::Scratch;
use crate::search::{
    Current, Predecessor, Step, Visit, arcs_leaving, entered, is_residual, opposite, walk_on,
};
use firm_net::{ArcId, ArcRow, Net, NodeId, Way};
use std::alloc::{AllocError, Global};

/// The arcs that a search for tight paths follows: residual ones of a net, of reduced cost 0 by these prices, that are
/// not barred.
#[derive(Clone, Copy)]
pub struct TightArcs<'a> {
    pub net: &'a Net,
    pub prices: &'a Prices,
    pub barred: &'a [ArcId],
}

/// Tables of a search for tight paths, from their end and against the arcs: whether the node of each place was
/// visited, the nodes in the order of their visits, and the number of looks at arcs.
#[derive(Drop)]
pub struct Reach {
    pub seen: Vec<bool>,
    pub visits: Vec<Visit>,
    pub looks: u64,
}

/// Whether the reduced cost of an arc is 0, by the prices of its ends.
pub fn is_tight(tail: u64, head: u64, cost: u32) -> bool
    ensures { IsTrue result ↔ (cost + tail ≡ head) }
{
    tail <= head && head - tail == u64::from(cost)
}

/// Whether the arc is one of the barred ones.
fn is_barred(barred: &[ArcId], arc: ArcId) -> bool
    ensures { IsTrue result ↔ Contains barred.now arc }
{
    barred.contains(&arc)
}

/// Forgets that the nodes of the visits were seen.
pub fn unmark(seen: &mut [bool], visits: &[Visit])
    requires places { (k : ℕ) → k < length visits.now → (visit visits.now k).place < length seen.old }
    requires unseen { (v : ℕ) → (slice_index_or seen.old v false ≡ false) ⊎ IsVisited visits.now 0 v }
    ensures { (v : ℕ) → slice_index_or seen.new v false ≡ false }
{
    for i in 0..visits.len() {
        seen[visits[i].place] = false;
    }
}

/// Writes at each place as which number its node was visited.
pub fn number_visits(numbers: &mut Vec<usize>, visits: &Vec<Visit>)
    requires places { (k : ℕ) → k < length visits.now.items
        → (visit visits.now.items k).place < length numbers.old.items }
    requires apart { AreApart visits.now.items }
    ensures numbered { AreNumbered numbers.new.items visits.now.items }
    ensures size { length numbers.new.items ≡ length numbers.old.items }
{
    for number in 0..visits.len() {
        numbers[visits[number].place] = number;
    }
}

impl Reach {
    /// Room for a search among this many nodes. `Err` only where memory is refused.
    pub fn new(alloc: Global, nodes: u32) -> Result<Reach, AllocError>
        ensures size { IfOk result (λ reach. length reach.seen.items ≡ nodes) }
        ensures agree { IfOk result (λ reach. Agree reach.seen.items reach.visits.items) }
        ensures none { IfOk result (λ reach. reach.visits.items ≡ []) }
        ensures capacity { IfOk result (λ reach. nodes ≤ vec_capacity reach.visits) }
    {
        let nodes = nodes as usize;
        let seen = vec![in alloc; false; nodes]?;
        let visits = Vec::with_capacity(alloc, nodes)?;
        Ok(Reach {
            seen,
            visits,
            looks: 0,
        })
    }

    /// Forgets all visits, and that their nodes were seen.
    fn clear(&mut self)
        requires { Agree self.old.seen.items self.old.visits.items }
        ensures none { (v : ℕ) → slice_index_or self.new.seen.items v false ≡ false }
        ensures size { length self.new.seen.items ≡ length self.old.seen.items }
        ensures visits { self.new.visits.items ≡ [] }
        ensures capacity { vec_capacity self.new.visits ≡ vec_capacity self.old.visits }
        ensures looks { self.new.looks ≡ 0 }
    {
        unmark(&mut self.seen, &self.visits);
        self.visits.clear();
        self.looks = 0;
    }

    /// Visits a node, unless it was seen.
    fn visit_once(&mut self, visit: Visit)
        requires place { visit.place < length self.old.seen.items }
        requires counted { IsCounted self.old.seen.items self.old.visits.items (vec_capacity self.old.visits) }
        ensures seen { self.new.seen.items ≡ seen_with self.old.seen.items visit }
        ensures size { length self.new.seen.items ≡ length self.old.seen.items }
        ensures visits { self.new.visits.items ≡ visits_with self.old.seen.items self.old.visits.items visit }
        ensures capacity { vec_capacity self.new.visits ≡ vec_capacity self.old.visits }
        ensures looks { self.new.looks ≡ self.old.looks }
    {
        if !self.seen[visit.place] {
            self.seen[visit.place] = true;
            self.visits.push_reserved(visit);
        }
    }

    /// Follows one arc: visits the node from which a step along it leads here, if the step is tight and not barred.
    fn follow_arc(&mut self, arcs: &TightArcs<'_>, current: Current, read: Step, row: ArcRow)
        requires length { (length arcs.now.prices.now.prices ≡ capacity_of arcs.now.net.now.nodes)
            × (length self.old.seen.items ≡ capacity_of arcs.now.net.now.nodes) }
        requires place { current.place < capacity_of arcs.now.net.now.nodes }
        requires counted { IsCounted self.old.seen.items self.old.visits.items (vec_capacity self.old.visits) }
        requires net { IsNet arcs.now.net.now }
        requires row { row_at arcs.now.net.now read.arc ≡ Some row }
        requires start { (start_of read.way row).id.place ≡ current.place }
        ensures grown { IsGrown self.old.seen.items self.old.visits.items self.new.seen.items self.new.visits.items }
        ensures counted { IsCounted self.new.seen.items self.new.visits.items (vec_capacity self.new.visits) }
        ensures spreads { Spreads arcs.now.net.now (slice_index arcs.now.prices.now.prices) arcs.now.barred.now
            current read.way read.arc row self.old.seen.items self.old.visits.items self.new.seen.items
            self.new.visits.items }
        ensures capacity { vec_capacity self.new.visits ≡ vec_capacity self.old.visits }
        ensures looks { self.new.looks ≡ self.old.looks }
    {
        let way = opposite(read.way);
        if is_barred(arcs.barred, read.arc) || !is_residual(row, way) {
            return;
        }
        let node = entered(row, read.way);
        let Some(place) = arcs.net.place(node) else {
            unreachable!()
        };
        let place = place as usize;
        let prices = arcs.prices;
        let tight = match read.way {
            Way::Forward => is_tight(prices.at(current.place), prices.at(place), row.cost()),
            Way::Backward => is_tight(prices.at(place), prices.at(current.place), row.cost()),
        };
        if tight {
            let (step, after) = (Step { arc: read.arc, way }, current.number);
            self.visit_once(Visit {
                node,
                place,
                predecessor: Some(Predecessor { step, after }),
            });
        }
    }

    /// Follows every arc that is read this way from the node where the search stands.
    fn follow_arcs(&mut self, arcs: &TightArcs<'_>, current: Current, way: Way)
        requires length { (length arcs.now.prices.now.prices ≡ capacity_of arcs.now.net.now.nodes)
            × (length self.old.seen.items ≡ capacity_of arcs.now.net.now.nodes) }
        requires node { IsNode arcs.now.net.now current.node × (current.node.id.place ≡ current.place) }
        requires counted { IsCounted self.old.seen.items self.old.visits.items (vec_capacity self.old.visits) }
        requires count { self.old.looks ≤ 2 ^ 62 }
        ensures grown { IsGrown self.old.seen.items self.old.visits.items self.new.seen.items self.new.visits.items }
        ensures counted { IsCounted self.new.seen.items self.new.visits.items (vec_capacity self.new.visits) }
        ensures spreads { SpreadsAll arcs.now.net.now (slice_index arcs.now.prices.now.prices) arcs.now.barred.now
            current way self.old.seen.items self.old.visits.items self.new.seen.items self.new.visits.items }
        ensures capacity { vec_capacity self.new.visits ≡ vec_capacity self.old.visits }
        ensures counts { self.new.looks
            ≡ self.old.looks + length (rows_of arcs.now.net.now (arcs_on (side_of way) arcs.now.net.now current.node)) }
        ensures net { IsNet arcs.now.net.now }
    {
        for (arc, row) in arcs_leaving(arcs.net, current.node, way) {
            self.follow_arc(arcs, current, Step { arc, way }, row);
            self.looks += 1;
        }
    }

    /// Follows every arc of the node where the search stands.
    fn follow_node(&mut self, arcs: &TightArcs<'_>, current: Current)
        requires length { (length arcs.now.prices.now.prices ≡ capacity_of arcs.now.net.now.nodes)
            × (length self.old.seen.items ≡ capacity_of arcs.now.net.now.nodes) }
        requires node { IsNode arcs.now.net.now current.node × (current.node.id.place ≡ current.place) }
        requires counted { IsCounted self.old.seen.items self.old.visits.items (vec_capacity self.old.visits) }
        requires count { self.old.looks ≤ 2 ^ 61 }
        ensures grown { IsGrown self.old.seen.items self.old.visits.items self.new.seen.items self.new.visits.items }
        ensures counted { IsCounted self.new.seen.items self.new.visits.items (vec_capacity self.new.visits) }
        ensures spreads { SpreadsBoth arcs.now.net.now (slice_index arcs.now.prices.now.prices) arcs.now.barred.now
            current self.old.seen.items self.old.visits.items self.new.seen.items self.new.visits.items }
        ensures capacity { vec_capacity self.new.visits ≡ vec_capacity self.old.visits }
        ensures counts { self.new.looks
            ≡ self.old.looks + length (rows_of arcs.now.net.now (arcs_on Out arcs.now.net.now current.node))
            + length (rows_of arcs.now.net.now (arcs_on In arcs.now.net.now current.node)) }
        ensures net { IsNet arcs.now.net.now }
    {
        self.follow_arcs(arcs, current, Way::Forward);
        self.follow_arcs(arcs, current, Way::Backward);
    }

    /// Visits nodes from the root, breadth first, up to the goal, if one is given; returns the
    /// number of the goal's visit.
    fn breadth_first(
        &mut self,
        arcs: &TightArcs<'_>,
        root: Visit,
        goal: Option<usize>,
    ) -> Option<usize>
        requires length { (length arcs.now.prices.now.prices ≡ capacity_of arcs.now.net.now.nodes)
            × (length self.old.seen.items ≡ capacity_of arcs.now.net.now.nodes) }
        requires room { capacity_of arcs.now.net.now.nodes ≤ vec_capacity self.old.visits }
        requires root { IsNode arcs.now.net.now root.node × (root.node.id.place ≡ root.place)
            × (root.predecessor ≡ None) }
        requires net { IsNet arcs.now.net.now }
        requires agree { Agree self.old.seen.items self.old.visits.items }
        ensures agree { Agree self.new.seen.items self.new.visits.items }
        ensures goal { IfSome result (λ number. goal ≡ Some (visit self.new.visits.items number).place) }
        ensures found { IfSome result (IsFoundBy arcs.now.net.now (slice_index arcs.now.prices.now.prices)
            arcs.now.barred.now root.place self.new.visits.items) }
        ensures none { IfNone result (IsSpent arcs.now.net.now (slice_index arcs.now.prices.now.prices)
            arcs.now.barred.now root.place self.new.seen.items self.new.visits.items) }
        ensures missed { IfNone result ((v : ℕ) → goal ≡ Some v → slice_index_or self.new.seen.items v false ≡ false) }
        ensures size { length self.new.seen.items ≡ length self.old.seen.items }
        ensures capacity { vec_capacity self.new.visits ≡ vec_capacity self.old.visits }
        ensures apart { AreApart self.new.visits.items }
        ensures counts { self.new.looks ≤ 2 * length (arcs_of arcs.now.net.now) }
    {
        self.clear();
        self.visit_once(root);
        let mut number = 0;
        while number < self.visits.len() {
            let Visit { node, place, .. } = self.visits[number];
            if goal == Some(place) {
                return Some(number);
            }
            let current = Current {
                node,
                place,
                number,
            };
            self.follow_node(arcs, current);
            number += 1;
        }
        None
    }

    /// Searches from `to` against the arcs, until it comes to the node at the place `goal`, if that is given; says as
    /// which number that was visited.
    fn find(&mut self, arcs: &TightArcs<'_>, to: NodeId, goal: Option<usize>) -> Option<usize>
        requires node { IsNode arcs.now.net.now to }
        requires length { (length arcs.now.prices.now.prices ≡ capacity_of arcs.now.net.now.nodes)
            × (length self.old.seen.items ≡ capacity_of arcs.now.net.now.nodes) }
        requires room { capacity_of arcs.now.net.now.nodes ≤ vec_capacity self.old.visits }
        requires agree { Agree self.old.seen.items self.old.visits.items }
        ensures agree { Agree self.new.seen.items self.new.visits.items }
        ensures goal { IfSome result (λ number. goal ≡ Some (visit self.new.visits.items number).place) }
        ensures found { IfSome result (IsFoundBy arcs.now.net.now (slice_index arcs.now.prices.now.prices)
            arcs.now.barred.now to.id.place self.new.visits.items) }
        ensures none { IfNone result (IsSpent arcs.now.net.now (slice_index arcs.now.prices.now.prices)
            arcs.now.barred.now to.id.place self.new.seen.items self.new.visits.items) }
        ensures missed { IfNone result ((v : ℕ) → goal ≡ Some v → slice_index_or self.new.seen.items v false ≡ false) }
        ensures size { length self.new.seen.items ≡ length self.old.seen.items }
        ensures capacity { vec_capacity self.new.visits ≡ vec_capacity self.old.visits }
        ensures apart { AreApart self.new.visits.items }
        ensures counts { self.new.looks ≤ 2 * arc_count arcs.now.net.now }
    {
        let Some(place) = arcs.net.place(to) else {
            unreachable!()
        };
        let root = Visit {
            node: to,
            place: place as usize,
            predecessor: None,
        };
        self.breadth_first(arcs, root, goal)
    }

    /// The number as which the node at a place was visited, which `number_visits` wrote down.
    pub fn number_at(&self, numbers: &[usize], place: usize) -> Option<usize>
        requires place { (place < length self.now.seen.items) × (place < length numbers.now) }
        requires agree { Agree self.now.seen.items self.now.visits.items }
        requires numbered { AreNumbered numbers.now self.now.visits.items }
        ensures { result ≡ number_of self.now.visits.items place }
    {
        if !self.seen[place] {
            return None;
        }
        Some(numbers[place])
    }
}

/// A path from `from` to `to` over residual arcs of reduced cost 0 that are not barred. `None` only where a set of
/// nodes holds `from` and not `to`, and no such arc leaves it. Counts one search, and at most two looks for each arc.
/// Takes no memory.
pub fn tight_path<'s>(
    scratch: &'s mut Scratch,
    net: &Net,
    prices: &Prices,
    from: NodeId,
    to: NodeId,
    barred: &[ArcId],
) -> Option<&'s [Step]>
    requires nodes { IsNode net.now from × IsNode net.now to × (from ≢ to) }
    requires made_for { (prices.now.limits ≡ limits_of net.now) × (scratch.old.limits ≡ limits_of net.now) }
    ensures* rests { sem 𝓛 (Rests scratch.entry (arc_count net.now)) }
    ensures path { IfSome result (λ steps. IsTightPath net.now
        (price_of prices.now) from.id.place to.id.place steps.now) }
    ensures unbarred { IfSome result (λ steps. Avoids barred.now steps.now) }
    ensures none { IfNone result ((inside : ℕ → Bool)
        × IsTightCut net.now (price_of prices.now) barred.now from.id.place to.id.place inside) }
{
    let _places = prices.places();
    let arcs = TightArcs {
        net,
        prices,
        barred,
    };
    let Some(goal) = net.place(from) else {
        unreachable!()
    };
    let found = scratch.reach.find(&arcs, to, Some(goal as usize));
    number_visits(&mut scratch.numbers, &scratch.reach.visits);
    scratch.searches = scratch.searches.saturating_add(1);
    scratch.looks = scratch.looks.saturating_add(scratch.reach.looks);
    let Some(start) = found else {
        return None;
    };
    walk_on(&scratch.reach.visits, start, &mut scratch.steps);
    Some(&scratch.steps[..])
}

/// The place of a node, if given.
fn place_of(net: &Net, node: Option<NodeId>) -> Option<usize>
    requires { IfSome node (λ node. IsNode net.now node) }
    ensures some { IfSome node (λ node. result ≡ Some node.id.place) }
    ensures none { IfNone node (result ≡ None) }
{
    let Some(place) = net.place(node?) else {
        unreachable!()
    };
    Some(place as usize)
}

/// Searches for paths to `to` over residual arcs of reduced cost 0: until one from the goal is found or, where there is
/// none or no goal, from all nodes that have one. `Scratch::path_from` gives them, until the next search. Counts one
/// search, and at most two looks for each arc. Takes no memory.
pub fn tight_paths(
    scratch: &mut Scratch,
    net: &Net,
    prices: &Prices,
    to: NodeId,
    goal: Option<NodeId>,
)
    requires node { IsNode net.now to }
    requires goal { IfSome goal (λ node. IsNode net.now node) }
    requires made_for { (prices.now.limits ≡ limits_of net.now) × (scratch.old.limits ≡ limits_of net.now) }
    ensures searched { HasSearched scratch.old scratch.new 1 (arc_count net.now) }
    ensures path { (v : ℕ) (steps : List AStep) → paths_of scratch.new.visits v ≡ Some steps
        → IsTightPath net.now (price_of prices.now) v to.id.place steps }
    ensures paths { IfSome goal (λ node. paths_of scratch.new.visits node.id.place ≡ None)
        → ArePaths net.now (price_of prices.now) to.id.place (paths_of scratch.new.visits) }
{
    let _places = prices.places();
    let arcs = TightArcs {
        net,
        prices,
        barred: &[],
    };
    let goal = place_of(net, goal);
    scratch.reach.find(&arcs, to, goal);
    number_visits(&mut scratch.numbers, &scratch.reach.visits);
    scratch.searches = scratch.searches.saturating_add(1);
    scratch.looks = scratch.looks.saturating_add(scratch.reach.looks);
}
