//! Laws of graphs and networks, each the contract of a function that does nothing.
ghost use Rattle.firm_graph.specs.Ids.{EveryGraphShows};
ghost use Rattle.firm_graph.specs.Network.{NetworksAreCounted};

/// The net of each graph shows the network of the case of its rows.
pub fn every_graph_shows()
    ensures { EveryGraphShows }
{}

/// The network of the case of some rows has as many nodes and arcs as the rows take of the arena.
pub fn networks_are_counted()
    ensures { NetworksAreCounted }
{}
