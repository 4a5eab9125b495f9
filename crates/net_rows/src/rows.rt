//! The rows of a net: nodes, edges and cells.

ghost use Rattle.std.specs.Prelude.{◌≡◌};

/// A node as a caller holds it: its coordinates are in ticks.
#[repr(C)]
#[derive(Clone, Copy, Debug, PartialEq, Eq)]
pub struct Node {
    pub layer: u16,
    pub component: u32,
    pub x: i64,
    pub y: i64,
}

/// A node in the coordinates of a table's cells, which are never negative.
#[derive(Clone, Copy, Debug, PartialEq, Eq)]
pub struct MeshNode {
    pub layer: u16,
    pub component: u32,
    pub x: u64,
    pub y: u64,
}

/// Two nodes by number, and the conductance between them.
#[repr(C)]
#[derive(Clone, Copy, Debug, PartialEq)]
pub struct Edge {
    pub from: usize,
    pub to: usize,
    pub conductance: f64,
}

/// The nodes at a cell's corners, by number.
#[repr(C)]
#[derive(Clone, Copy, Debug, PartialEq, Eq)]
pub struct Corners {
    pub southwest: usize,
    pub southeast: usize,
    pub northeast: usize,
    pub northwest: usize,
}

/// A cell: its corners, and its polygon's sheet resistance.
#[repr(C)]
#[derive(Clone, Copy, Debug, PartialEq)]
pub struct NetCell {
    pub corners: Corners,
    pub sheet: f64,
}

/// The rows of a net as a caller lends them. Nothing is known of them but their types.
#[derive(Clone, Copy)]
pub struct NetRows<'a> {
    pub nodes: &'a [Node],
    pub edges: &'a [Edge],
    pub cells: &'a [NetCell],
}

/// Layer and component of each polygon.
#[derive(Clone, Copy)]
pub struct Polygons<'a> {
    pub layers: &'a [u16],
    pub components: &'a [u32],
}

impl Node {
    ghost use Rattle.net_rows.specs.Nodes.{in_mesh};

    /// The node in a table's coordinates. One out of range is taken for the nearest in range.
    #[inline(always)]
    pub fn in_mesh(self) -> MeshNode
        ensures { result ≡ in_mesh self }
    {
        MeshNode {
            layer: self.layer,
            component: self.component,
            x: cell::ticks::offset(self.x),
            y: cell::ticks::offset(self.y),
        }
    }
}

impl MeshNode {
    ghost use Rattle.net_rows.specs.Nodes.{in_ticks};

    /// The node as a caller holds it.
    #[inline(always)]
    pub fn in_ticks(self) -> Node
        ensures { result ≡ in_ticks self }
    {
        Node {
            layer: self.layer,
            component: self.component,
            x: cell::ticks::ticks(self.x),
            y: cell::ticks::ticks(self.y),
        }
    }
}
