//! Laws of states that are cut and joined, the contract of a function that does nothing.
ghost use Rattle.firm_parts.specs.Laws.{CutsKeepBooks, JoinsAreApart, JoinsKeepBooks};

/// The meaning of cutting and joining states to their tenants: each that stays, or comes, has the book that it had, and
/// there are no others. States that can be joined have no tenant in common.
pub fn books_are_kept()
    ensures cuts { CutsKeepBooks }
    ensures joins { JoinsKeepBooks }
    ensures apart { JoinsAreApart }
{}
