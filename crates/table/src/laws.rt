//! What the calls on a lent table come to.
ghost use Rattle.std.specs.Prelude.{◌≡◌, pos};
ghost use Rattle.cell.specs.Cells.{no_cell};
ghost use Rattle.table.specs.Laws.{TestIsDefinition, EachLeafOnce, OrderHasTheLeaves, OrderIsAsLong, OneList};
ghost use Rattle.table.specs.Laws.{LeavesAreListed, LeavesByRoots, OneRefined};

use crate::slots::NO_CELL;

/// What stands in a row for no cell is the rules' number.
pub fn row_marks_no_cell()
    ensures { NO_CELL ≡ pos no_cell }
{}

/// The one walk over a row says yes exactly if the rules' definition holds, clause by clause.
pub fn test_is_definition()
    ensures { TestIsDefinition }
{}

/// A list of leaves holds every leaf once and nothing else.
pub fn each_leaf_once()
    ensures { EachLeafOnce }
{}

/// The order by polygon holds the same leaves as the list by id.
pub fn order_has_the_leaves()
    ensures { OrderHasTheLeaves }
{}

/// So it is as long.
pub fn order_is_as_long()
    ensures { OrderIsAsLong }
{}

/// The stored number of leaves is how many are listed.
pub fn leaves_are_listed()
    ensures { LeavesAreListed }
{}

/// Four times the leaves are three times the cells and the roots.
pub fn leaves_by_roots()
    ensures { LeavesByRoots }
{}

/// The contracts of `leaves` and `leaf_order` permit one answer each.
pub fn one_list()
    ensures { OneList }
{}

/// So does that of `refine`.
pub fn one_refined()
    ensures { OneRefined }
{}
