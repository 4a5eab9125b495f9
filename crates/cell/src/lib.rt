//! A cell of the quadtree, by value: QuadCell of the Rust, in whole ticks.
//!
//! A cell's coordinates are offset by 2^36, so that the range is 0 to 2^37 and no coordinate is negative.
#![tactic(auto)]

ghost use Rattle.std.specs.Prelude.{◌≡◌, ◌==◌, ◌<◌};
ghost use Rattle.refusals.specs.Limits.{widest_level};
ghost use Rattle.cell.specs.Boxes.{num, common, border};
ghost use Rattle.cell.specs.Cells.{box_of, no_cell, root_of, cut_to, centre, child_of};

pub mod border;
pub mod laws;
pub mod rectangles;
pub mod ticks;

use border::{Border, Side};

/// The four quadrants, in the order of the children's ids.
#[derive(Clone, Copy, Debug, PartialEq, Eq)]
pub enum Quadrant {
    SouthWest,
    SouthEast,
    NorthWest,
    NorthEast,
}

impl Quadrant {
    /// How many children come before the one in this quadrant.
    pub fn number(self) -> usize
        ensures { result ≡ num self }
    {
        self as usize
    }
}

/// A cell, by value.
#[derive(Clone, Copy, Debug, PartialEq, Eq)]
pub struct Cell {
    pub x0: u64,
    pub y0: u64,
    pub x1: u64,
    pub y1: u64,
    pub level: u64,
    /// The parent's id, `NO_CELL` at a root.
    pub parent: u64,
    /// The first of four children with consecutive ids, `NO_CELL` at a leaf.
    pub first: u64,
    pub poly: u64,
}

impl Cell {
    /// One tick in metres, 2^-38.
    pub const TICK: f64 = 3.637978807091713e-12;
    /// Marks no parent and no child.
    pub const NO_CELL: u64 = 4294967295;
    /// The deepest level that a table may ask for.
    pub const WIDEST_LEVEL: u64 = refusals::limits::MAX_LEVEL;

    pub fn root(x0: u64, y0: u64, x1: u64, y1: u64, poly: u64) -> Cell
        ensures { result ≡ root_of x0 y0 x1 y1 poly }
    {
        Cell {
            x0,
            y0,
            x1,
            y1,
            level: 0,
            parent: Cell::NO_CELL,
            first: Cell::NO_CELL,
            poly,
        }
    }

    /// Whether it has no children.
    pub fn is_leaf(self) -> bool
        ensures { result ≡ (self.first == no_cell) }
    {
        self.first == Cell::NO_CELL
    }

    /// The point at which the cell is cut, as a cell of no width and no height.
    pub fn midpoint(self) -> Cell
        ensures { result ≡ centre self }
    {
        let x = self.x0.midpoint(self.x1);
        let y = self.y0.midpoint(self.y1);
        Cell {
            x0: x,
            y0: y,
            x1: x,
            y1: y,
            ..self
        }
    }

    /// The cell cut down to a quadrant.
    pub fn quadrant(self, q: Quadrant) -> Cell
        ensures { result ≡ cut_to q self }
    {
        let m = self.midpoint();
        match q {
            Quadrant::SouthWest => Cell {
                x1: m.x0,
                y1: m.y0,
                ..self
            },
            Quadrant::SouthEast => Cell {
                x0: m.x0,
                y1: m.y0,
                ..self
            },
            Quadrant::NorthWest => Cell {
                y0: m.y0,
                x1: m.x0,
                ..self
            },
            Quadrant::NorthEast => Cell {
                x0: m.x0,
                y0: m.y0,
                ..self
            },
        }
    }

    /// The child in a quadrant of the cell with this id. Only a cell above the widest level is split.
    pub fn child(self, id: u64, q: Quadrant) -> Cell
        requires { self.level < widest_level }
        ensures { result ≡ child_of id q self }
    {
        Cell {
            level: self.level + 1,
            parent: id,
            first: Cell::NO_CELL,
            ..self.quadrant(q)
        }
    }

    /// The border that the cell shares with another: on which of its own sides, and how long. A corner in common is
    /// none. No more than one side comes in question unless a cell has no width or no height; then they are asked in
    /// this order.
    #[tactic(auto, unfolding(crate::specs::Boxes::border))]
    pub fn border(self, other: Cell) -> Option<Border>
        ensures { result ≡ border (box_of self) (box_of other) }
    {
        let height = common(self.y0, self.y1, other.y0, other.y1);
        let width = common(self.x0, self.x1, other.x0, other.x1);
        let (side, length) = if (self.x1 == other.x0) & (0 < height) {
            (Side::East, height)
        } else if (other.x1 == self.x0) & (0 < height) {
            (Side::West, height)
        } else if (self.y1 == other.y0) & (0 < width) {
            (Side::North, width)
        } else if (other.y1 == self.y0) & (0 < width) {
            (Side::South, width)
        } else {
            return None;
        };
        Some(Border { side, length })
    }
}

// How long is what the ranges a to b and c to d have in common.
fn common(a: u64, b: u64, c: u64, d: u64) -> u64
    ensures { result ≡ common a b c d }
{
    b.min(d).saturating_sub(a.max(c))
}
