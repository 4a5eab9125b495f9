// What is looked for: places, sides of leaves, and which nodes stand for a place.
ghost use Rattle.std.specs.Prelude.{◌≡◌};

use cell::Cell;
use net_rows::{Axis, Polygons};

/// A place, its coordinates moved up as a cell's are.
#[derive(Clone, Copy, Debug, PartialEq, Eq)]
pub struct Place {
    pub x: u64,
    pub y: u64,
}

/// An edge of a leaf: the axis of its line, its ends and its middle.
#[derive(Clone, Copy, Debug, PartialEq, Eq)]
pub struct Side {
    pub axis: Axis,
    pub start: Place,
    pub middle: Place,
    pub end: Place,
}

/// A node inside a leaf edge, and the two ends of the edge, walked anticlockwise. It lacks an edge to a point beside
/// it: by place it is the middle, and lacks a half; by layer it is the first such node on the way.
#[derive(Clone, Copy, Debug, PartialEq, Eq)]
pub struct Hanging {
    pub node: usize,
    pub start: usize,
    pub end: usize,
}

/// Which nodes stand for a place: every one, or those of a layer and component.
#[derive(Clone, Copy, Debug, PartialEq, Eq)]
pub enum Class {
    Any,
    Of { layer: u16, component: u32 },
}

/// Which nodes a leaf is held against: all of them, or those of its polygon's layer and component.
#[derive(Clone, Copy)]
pub enum Scope<'a> {
    Everywhere,
    ByLayer(Polygons<'a>),
}

impl Place {
    ghost use Rattle.checks.specs.Entries.{facing};

    /// The place as it stands on the lines of an axis, and back: x is the line, y how far along it.
    #[inline(always)]
    pub fn facing(self, axis: Axis) -> Place
        ensures { result ≡ facing axis self }
    {
        match axis {
            Axis::Column => self,
            Axis::Row => Place {
                x: self.y,
                y: self.x,
            },
        }
    }
}

// The four sides of a leaf, each walked anticlockwise.
impl Side {
    ghost use Rattle.checks.specs.Sides.{between, south, east, north, west};

    fn between(axis: Axis, start: Place, end: Place) -> Side
        ensures { result ≡ between axis start end }
    {
        let middle = Place {
            x: start.x.midpoint(end.x),
            y: start.y.midpoint(end.y),
        };
        Side {
            axis,
            start,
            middle,
            end,
        }
    }

    pub fn south(c: Cell) -> Side
        ensures { result ≡ south c }
    {
        Side::between(
            Axis::Row,
            Place { x: c.x0, y: c.y0 },
            Place { x: c.x1, y: c.y0 },
        )
    }

    pub fn east(c: Cell) -> Side
        ensures { result ≡ east c }
    {
        Side::between(
            Axis::Column,
            Place { x: c.x1, y: c.y0 },
            Place { x: c.x1, y: c.y1 },
        )
    }

    pub fn north(c: Cell) -> Side
        ensures { result ≡ north c }
    {
        Side::between(
            Axis::Row,
            Place { x: c.x1, y: c.y1 },
            Place { x: c.x0, y: c.y1 },
        )
    }

    pub fn west(c: Cell) -> Side
        ensures { result ≡ west c }
    {
        Side::between(
            Axis::Column,
            Place { x: c.x0, y: c.y1 },
            Place { x: c.x0, y: c.y0 },
        )
    }
}

impl Scope<'_> {
    ghost use Rattle.checks.specs.Scopes.{class_of, Holds};

    /// The nodes that a leaf of polygon p is held against. Internal: the polygon stands in the rows.
    pub fn class_of(self, p: usize) -> Class
        requires { Holds self p }
        ensures { result ≡ class_of self.entry p }
    {
        match self {
            Scope::Everywhere => Class::Any,
            Scope::ByLayer(polygons) => Class::Of {
                layer: polygons.layers[p],
                component: polygons.components[p],
            },
        }
    }
}
