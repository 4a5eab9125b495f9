//! Laws of the definitions that the contract of build stands on.
ghost use Rattle.build.specs.Laws.{OneOutcome, StripsAreTiled, LeavesTablesOfRoots};

/// The contract of `build` allows one answer and one table.
pub fn one_outcome()
    ensures { OneOutcome }
{}

/// The roots of a strip are the strip: nothing is left out, nothing is covered twice.
pub fn strips_are_tiled()
    ensures { StripsAreTiled }
{}

/// An accepted call leaves a well-formed table of roots without children.
pub fn leaves_tables_of_roots()
    ensures { LeavesTablesOfRoots }
{}
