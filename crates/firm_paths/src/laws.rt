//! Laws of the list of a net's arcs, each the contract of a function that does nothing.
ghost use Rattle.firm_paths.specs.Laws.{AsManyAsCounted, ChangedRowIsFound, EachArcHasItsRow, EachRowIsListed};
ghost use Rattle.firm_paths.specs.Laws.{NoneCountsNothing, SearchesAddUp};

/// The arcs that are listed of a net are the arcs of its rows, each once.
pub fn arcs_are_rows()
    ensures arcs { EachArcHasItsRow }
    ensures rows { EachRowIsListed }
    ensures changed { ChangedRowIsFound }
    ensures count { AsManyAsCounted }
{}

/// Counts of searches and looks add up.
pub fn searches_add_up()
    ensures none { NoneCountsNothing }
    ensures more { SearchesAddUp }
{}
