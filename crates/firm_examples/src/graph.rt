use firm_graph::{Graph, GraphRefusal};
use firm_rules::{Limits, Name, Slots};
use std::alloc::{AllocError, Global};

/// A tenant with one machine; the inner refusal says why it was not added.
pub fn one_machine(
    alloc: Global,
    limits: Limits,
    name: Name,
    slots: Slots,
) -> Result<(Graph, Result<(), GraphRefusal>), AllocError> {
    let mut graph = Graph::open(alloc, limits)?;
    let added = graph.add_machine(alloc, name, slots);
    Ok((graph, added))
}
