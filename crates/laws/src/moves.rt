//! What the move of coordinates by 2^36 keeps, so that contact of the moved rectangles is that of the caller's own. No
//! function here does anything: each promises a law, which its specs state and its proof file proves.

ghost use Rattle.laws.specs.Moves.{MoveKeepsLess, MoveKeepsEqual};

/// Of coordinates in range the lesser stays the lesser, and no two become equal.
pub fn moves_keep_order()
    ensures less { MoveKeepsLess }
    ensures equal { MoveKeepsEqual }
{}
