ghost use Rattle.std.specs.Prelude.{◌≡◌, IfOk};
ghost use Rattle.firm_rules.specs.Round.{case_of, round_placement};

use firm_canon::first_best;
use firm_graph::Graph;
use firm_paths::{Prices, Scratch};
use firm_rules::Choice;
use std::alloc::{AllocError, Global};

/// The placement of the round, with new prices and scratch.
pub fn placement_of(alloc: Global, graph: &mut Graph) -> Result<Vec<Choice>, AllocError>
    ensures { IfOk result (λ placement. placement.items ≡ round_placement (case_of graph.old.rows)) }
{
    let mut prices = Prices::new(alloc, graph.net())?;
    let mut scratch = Scratch::new(alloc, graph.net())?;
    first_best(alloc, graph, &mut prices, &mut scratch)
}
