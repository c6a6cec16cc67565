//! The first of the least placements.
ghost use Rattle.std.specs.Prelude.{◌≡◌, ◌+◌, ◌*◌, ◌≤◌, [], length, IfOk, OnErr, vec_capacity};
ghost use Rattle.firm_paths.specs.NetArcs.{limits_of};
ghost use Rattle.firm_paths.specs.PriceTable.{price_of};
ghost use Rattle.firm_rules.specs.ArenaUse.{arena_arcs, preference_count};
ghost use Rattle.firm_rules.specs.Round.{case_of, round_placement};
ghost use Rattle.firm_canon.specs.Counts.{HasLookedUpTo, HasMadeUpTo};
ghost use Rattle.firm_graph.specs.Ids.{view_of};
ghost use Rattle.firm_canon.specs.inner.Graphs.{IsSameGraph};
ghost use Rattle.firm_canon.specs.inner.Choosing.{Keeps};

use crate::choosing::Choosing;
use crate::reads::{arcs_are_counted, task_count};
use firm_flow::{balanced_flows, conserved_where_balanced};
use firm_graph::{Graph, Key, Node, networks_are_counted};
use firm_paths::{Prices, Scratch, arcs_are_rows};
use firm_rules::{Choice, loads_are_sums_of_slots, the_round_is_the_first};
use std::alloc::{AllocError, Global};

/// A least flow with nothing held.
fn start(graph: &mut Graph, prices: &mut Prices, scratch: &mut Scratch)
    requires made_for { (prices.old.limits ≡ limits_of graph.old.net) × (scratch.old.limits ≡ limits_of graph.old.net) }
    ensures same { IsSameGraph graph.old graph.new }
    ensures prices { prices.new.limits ≡ prices.old.limits }
    ensures searched { HasMadeUpTo scratch.old scratch.new (length graph.old.rows.tasks)
        (arena_arcs graph.old.rows) }
    ensures keeps { Keeps (view_of graph.new) (price_of prices.new) [] }
{
    arcs_are_rows();
    balanced_flows::<Node, Key>();
    conserved_where_balanced();
    loads_are_sums_of_slots();
    graph.prepare();
    arcs_are_counted(graph);
    graph.least(prices, scratch);
}

/// Writes the placement of the round to an empty list with room for it.
fn write_first(
    graph: &mut Graph,
    prices: &mut Prices,
    scratch: &mut Scratch,
    chosen: &mut Vec<Choice>,
)
    requires made_for { (prices.old.limits ≡ limits_of graph.old.net) × (scratch.old.limits ≡ limits_of graph.old.net) }
    requires empty { chosen.old.items ≡ [] }
    requires room { length graph.old.rows.tasks ≤ vec_capacity chosen.old }
    ensures round { chosen.new.items ≡ round_placement (case_of graph.old.rows) }
    ensures same { graph.new ≡ record graph.old { net = graph.new.net } }
    ensures limits { limits_of graph.new.net ≡ limits_of graph.old.net }
    ensures prices { prices.new.limits ≡ prices.old.limits }
    ensures searched { HasMadeUpTo scratch.old scratch.new
        (length graph.old.rows.tasks * (length graph.old.rows.machines + 4)) (arena_arcs graph.old.rows) }
    ensures searched_few { HasMadeUpTo scratch.old scratch.new
        (3 * length graph.old.rows.tasks + 2 * length graph.old.rows.machines + 1
        + preference_count graph.old.rows.tasks) (arena_arcs graph.old.rows) }
    ensures looked_few { HasLookedUpTo scratch.old scratch.new (3 * length graph.old.rows.tasks)
        (arena_arcs graph.old.rows) }
{
    the_round_is_the_first();
    networks_are_counted();
    let tasks = task_count(graph);
    start(graph, prices, scratch);
    let mut choosing = Choosing {
        graph,
        prices,
        scratch,
        chosen,
        searched: true,
        spent: 0,
    };
    choosing.choose_all(tasks);
}

/// The placement of the round: legal, no legal one costs less, and no legal one of equal cost comes before it. Only the
/// graph's flow and lower bounds change. An error means that memory for the list was refused, before any search; all is
/// as it was.
pub fn first_best(
    alloc: Global,
    graph: &mut Graph,
    prices: &mut Prices,
    scratch: &mut Scratch,
) -> Result<Vec<Choice>, AllocError>
    requires made_for { (prices.old.limits ≡ limits_of graph.old.net) × (scratch.old.limits ≡ limits_of graph.old.net) }
    ensures round { IfOk result (λ placement. placement.items ≡ round_placement (case_of graph.old.rows)) }
    ensures same { graph.new ≡ record graph.old { net = graph.new.net } }
    ensures limits { limits_of graph.new.net ≡ limits_of graph.old.net }
    ensures prices { prices.new.limits ≡ prices.old.limits }
    ensures searched { HasMadeUpTo scratch.old scratch.new
        (length graph.old.rows.tasks * (length graph.old.rows.machines + 4)) (arena_arcs graph.old.rows) }
    ensures searched_few { HasMadeUpTo scratch.old scratch.new
        (3 * length graph.old.rows.tasks + 2 * length graph.old.rows.machines + 1
        + preference_count graph.old.rows.tasks) (arena_arcs graph.old.rows) }
    ensures looked_few { HasLookedUpTo scratch.old scratch.new (3 * length graph.old.rows.tasks)
        (arena_arcs graph.old.rows) }
    ensures refused { OnErr result ((graph.new ≡ graph.old) × (prices.new ≡ prices.old) × (scratch.new ≡ scratch.old)) }
{
    let tasks = task_count(graph);
    let mut chosen = Vec::with_capacity(alloc, tasks)?;
    write_first(graph, prices, scratch, &mut chosen);
    Ok(chosen)
}
