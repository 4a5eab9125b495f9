//! The laws of the passes, and of the cuts that they make: each function ensures one of them, for every table, and does
//! nothing.
ghost use Rattle.coarsest.specs.Laws.{CoarsestIsReached, CoarsestIsOne, PassesEnd, StaysFormed, KeepsRoots};
ghost use Rattle.coarsest.specs.Laws.{SplittingTellsLeaves, MoreSplitsEndFiner, PartsEndTheSame, NeedsTheCellsReached};
ghost use Rattle.coarsest.specs.Laws.{EveningAddsThree, PassSettles, OneName, ListIsSplit, LaterSplitsEndTheSame};
ghost use Rattle.coarsest.specs.Laws.{NoCutRounds, ChildrenAreHalves};

/// What the passes end in is the coarsest splitting that they may end in.
pub fn coarsest_is_reached()
    ensures { CoarsestIsReached }
{}

/// There is no other coarsest splitting, so balance and conform have one answer whatever the order of their steps.
pub fn coarsest_is_one()
    ensures { CoarsestIsOne }
{}

/// A further pass splits nothing.
pub fn passes_end()
    ensures { PassesEnd }
{}

/// A well-formed table stays one.
pub fn stays_formed()
    ensures { StaysFormed }
{}

/// No root is moved, made or lost.
pub fn keeps_roots()
    ensures { KeepsRoots }
{}

/// A splitting and the roots are all that the leaves depend on, whatever the cells' ids are.
pub fn splitting_tells_leaves()
    ensures { SplittingTellsLeaves }
{}

/// Who marks more cells gets a mesh that is nowhere coarser.
pub fn more_splits_end_finer()
    ensures { MoreSplitsEndFiner }
{}

/// A table may be evened out before it is split further: the end is the same.
pub fn parts_end_the_same()
    ensures { PartsEndTheSame }
{}

/// A cell's name, its root and the quadrants from it, is its own, and tells its box and its level.
pub fn one_name()
    ensures { OneName }
{}

/// What a list of cells split in turn makes of a table: the listed cells are split, and those that were, and no other.
pub fn list_is_split()
    ensures { ListIsSplit }
{}

/// Marks that come later end in the same leaves as marks that were there at first.
pub fn later_splits_end_the_same()
    ensures { LaterSplitsEndTheSame }
{}

/// How many cells the coarsest splitting has: as many as the passes end in, and no other number.
pub fn needs_the_cells_reached()
    ensures { NeedsTheCellsReached }
{}

/// Each split of the passes is three leaves more, and four cells.
pub fn evening_adds_three()
    ensures { EveningAddsThree }
{}

/// What one pass leaves to the next: no two cells that stood at its start.
pub fn pass_settles()
    ensures { PassSettles }
{}

/// Every cell's middles are whole ticks, so a child is half as wide and half as high as its parent, to the tick.
pub fn no_cut_rounds()
    ensures middles { NoCutRounds }
    ensures children { ChildrenAreHalves }
{}
