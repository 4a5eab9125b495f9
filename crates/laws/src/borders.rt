//! Borders along the sides of leaves. No function here does anything: each promises a law, which its specs state and
//! its proof file proves.

ghost use Rattle.laws.specs.Borders.{BordersFillSides, BordersAreAnswered, CellsHaveOneSide, CellsTurned};
ghost use Rattle.laws.specs.Borders.{BuiltIsFullGrid, BuiltBordersFill};

/// Of a polygon whose roots are a whole grid, the borders of a leaf with the polygon's leaves on one of its sides add
/// up to the side, whatever the table; on the grid's outline there are none.
pub fn borders_fill_sides()
    ensures { BordersFillSides }
{}

/// What is added up is what contact answers of two boxes with an area: the border's length on its side, and 0 on the
/// others.
pub fn borders_are_answered()
    ensures { BordersAreAnswered }
{}

/// Two cells of a well-formed table have a border on one side at most, so contact's answer is that side; and of the two
/// exchanged it is the opposite side, and the same length.
pub fn cells_have_one_side()
    ensures one { CellsHaveOneSide }
    ensures turned { CellsTurned }
{}

/// Build leaves such roots of a polygon of one strip, and so its leaves' sides are filled, refined in any way and
/// balanced.
pub fn strips_are_filled()
    ensures grid { BuiltIsFullGrid }
    ensures filled { BuiltBordersFill }
{}
