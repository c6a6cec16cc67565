//! Lower bounds that hold the choices made.
ghost use Rattle.std.specs.Prelude.{◌≡◌, ◌≢◌, ◌<◌, ◌∷◌, ◌++◌, [], length, false};
ghost use Rattle.firm_net.specs.Net.{row_at};
ghost use Rattle.firm_net.specs.declared.row.ArcId.{ArcId as ArcName};
ghost use Rattle.firm_paths.specs.PriceTable.{price_of};
ghost use Rattle.firm_graph.specs.View.{Shows, CanHold, low_of_row, flow_of_row};
ghost use Rattle.firm_graph.specs.Ids.{view_of};
ghost use Rattle.firm_graph.specs.Network.{demand};
ghost use Rattle.firm_rules.specs.Placement.{runs_at, prefers};
ghost use Rattle.firm_canon.specs.inner.Graphs.{IsSameGraph};
ghost use Rattle.firm_canon.specs.inner.Choosing.{Keeps, IsChosen, best};
ghost use Rattle.firm_rules.specs.declared.rounds.Choice.TheVariants.{On};

use crate::reads::{TaskArc, Wishes, is_home, low_on, preference_for, task_arc, through_arc};
use firm_graph::Graph;
use firm_net::ArcId;
use firm_paths::Prices;
use firm_rules::Choice;

/// Sets the lower bound of an arc, to no more than it carries.
fn hold_at(graph: &mut Graph, arc: ArcId, low: u32)
    requires shows { Shows (view_of graph.old) }
    requires allowed { CanHold low (row_at graph.old.net arc) }
    ensures shows { Shows (view_of graph.new) }
    ensures same { IsSameGraph graph.old graph.new }
    ensures here { low_of_row (row_at graph.new.net arc) ≡ low }
    ensures flows { (b : ArcName) → flow_of_row (row_at graph.new.net b) ≡ flow_of_row (row_at graph.old.net b) }
    ensures others { (b : ArcName) → b ≢ arc → row_at graph.new.net b ≡ row_at graph.old.net b }
{
    if !graph.hold(arc, low) {
        unreachable!()
    }
}

/// Holds the next task to a machine that it reaches by the hub.
fn hold_by_hub(graph: &mut Graph, prices: &Prices, chosen: &[Choice], machine: u32)
    requires keeps { Keeps (view_of graph.old) (price_of prices.now) chosen.now }
    requires next { length chosen.now < length (view_of graph.old).case.tasks }
    requires chosen { IsChosen (view_of graph.old) chosen.now (On machine) }
    requires other { runs_at (demand (view_of graph.old).case (length chosen.now)).home machine ≡ false }
    requires far { prefers (demand (view_of graph.old).case (length chosen.now)) machine ≡ false }
    ensures same { IsSameGraph graph.old graph.new }
    ensures keeps { Keeps (view_of graph.new) (price_of prices.now) (chosen.now ++ On machine ∷ []) }
    ensures best { best (view_of graph.new) (chosen.now ++ On machine ∷ []) ≡ best (view_of graph.old) chosen.now }
{
    let arc = through_arc(graph, machine);
    let low = low_on(graph.net(), arc);
    hold_at(graph, task_arc(graph, chosen.len(), TaskArc::Wide), 1);
    hold_at(graph, arc, low + 1);
}

/// Holds the next task to a machine.
fn hold_machine(
    graph: &mut Graph,
    prices: &Prices,
    chosen: &[Choice],
    wishes: &Wishes,
    machine: u32,
)
    requires keeps { Keeps (view_of graph.old) (price_of prices.now) chosen.now }
    requires next { length chosen.now < length (view_of graph.old).case.tasks }
    requires home { wishes.now.home ≡ (demand (view_of graph.old).case (length chosen.now)).home }
    requires places { wishes.now.places.items ≡ (demand (view_of graph.old).case (length chosen.now)).preferred }
    requires chosen { IsChosen (view_of graph.old) chosen.now (On machine) }
    ensures same { IsSameGraph graph.old graph.new }
    ensures keeps { Keeps (view_of graph.new) (price_of prices.now) (chosen.now ++ On machine ∷ []) }
    ensures best { best (view_of graph.new) (chosen.now ++ On machine ∷ []) ≡ best (view_of graph.old) chosen.now }
{
    let task = chosen.len();
    if is_home(wishes.home, machine) {
        hold_at(graph, task_arc(graph, task, TaskArc::Stay), 1);
        return;
    }
    if let Some(number) = preference_for(&wishes.places, machine) {
        hold_at(graph, task_arc(graph, task, TaskArc::Prefer(number)), 1);
        return;
    }
    hold_by_hub(graph, prices, chosen, machine);
}

/// Holds the next task to its choice.
pub(crate) fn hold_choice(
    graph: &mut Graph,
    prices: &Prices,
    chosen: &[Choice],
    wishes: &Wishes,
    choice: Choice,
)
    requires keeps { Keeps (view_of graph.old) (price_of prices.now) chosen.now }
    requires next { length chosen.now < length (view_of graph.old).case.tasks }
    requires home { wishes.now.home ≡ (demand (view_of graph.old).case (length chosen.now)).home }
    requires places { wishes.now.places.items ≡ (demand (view_of graph.old).case (length chosen.now)).preferred }
    requires chosen { IsChosen (view_of graph.old) chosen.now choice }
    ensures same { IsSameGraph graph.old graph.new }
    ensures keeps { Keeps (view_of graph.new) (price_of prices.now) (chosen.now ++ choice ∷ []) }
    ensures best { best (view_of graph.new) (chosen.now ++ choice ∷ []) ≡ best (view_of graph.old) chosen.now }
{
    match choice {
        Choice::Wait => hold_at(graph, task_arc(graph, chosen.len(), TaskArc::Wait), 1),
        Choice::On(machine) => hold_machine(graph, prices, chosen, wishes, machine),
    }
}
