//! The border that two cells share.
#![tactic(auto)]

ghost use Rattle.std.specs.Prelude.{◌≡◌};
ghost use Rattle.cell.specs.Boxes.{side_number};

/// The sides of a cell, anticlockwise from the south.
#[derive(Clone, Copy, Debug, PartialEq, Eq)]
pub enum Side {
    South,
    East,
    North,
    West,
}

impl Side {
    /// 0 to 3, anticlockwise from the south.
    pub fn number(self) -> usize
        ensures { result ≡ side_number self }
    {
        self as usize
    }
}

/// A piece of border that two cells have in common, longer than a point.
#[derive(Clone, Copy, Debug, PartialEq, Eq)]
pub struct Border {
    /// The side of the first cell that it is on.
    pub side: Side,
    /// In ticks.
    pub length: u64,
}
