//! What contact comes to, and whose numbers a cell's constants are.
ghost use Rattle.std.specs.Prelude.{◌≡◌};
ghost use Rattle.refusals.specs.Limits.{widest_level};
ghost use Rattle.cell.specs.Cells.{no_cell};
ghost use Rattle.cell.specs.Ticks.{tick};
ghost use Rattle.cell.specs.Laws.{SomeBorder, OneSide, BorderOnAnySide, BorderHasLength, BorderTurned, AnswerTurned};
ghost use Rattle.cell.specs.Laws.{ContactIsMutual, CornersDoNotTouch, SomeQuadrantTouches, OneContact};

use crate::Cell;

/// The constants of a cell are the rules' numbers.
pub fn constants_of_the_rules()
    ensures no_cell { Cell.NO_CELL ≡ no_cell }
    ensures widest_level { Cell.WIDEST_LEVEL ≡ widest_level }
    ensures tick { Cell.TICK ≡ tick }
{}

/// Two cells have a border exactly if they share an edge by the rules.
pub fn some_border()
    ensures { SomeBorder }
{}

/// Two rectangles with positive sides have a border of positive length on one side at most; it is the one answered,
/// whatever the order in which the sides are asked.
pub fn one_side()
    ensures at_most { OneSide }
    ensures any_order { BorderOnAnySide }
{}

/// A border is longer than a point.
pub fn border_has_length()
    ensures { BorderHasLength }
{}

/// Of the two exchanged the opposite side, and the same length; or the same refusal.
pub fn border_turned()
    ensures boxes { BorderTurned }
    ensures answers { AnswerTurned }
{}

/// Contact is the same seen from either side.
pub fn contact_is_mutual()
    ensures { ContactIsMutual }
{}

/// A corner in common is no contact.
pub fn corners_do_not_touch()
    ensures { CornersDoNotTouch }
{}

/// A box that touches another has a quadrant that does, so contact survives a split.
pub fn some_quadrant_touches()
    ensures { SomeQuadrantTouches }
{}

/// The contract of `rectangles::between` permits one answer.
pub fn one_contact()
    ensures { OneContact }
{}
