//! A net before its weights.
ghost use Rattle.std.specs.Prelude.{◌≡◌, ◌*◌, ◌^◌, ◌<◌, ◌≤◌, length, All};
ghost use Rattle.refusals.specs.Limits.{max_slots};
ghost use Rattle.net_rows.specs.Facts.{AreKnown};

use crate::axes::facing;
use net_rows::{Axis, MeshNode, NetCell, Node};

/// The nodes and the cells of a net.
#[derive(Clone, Copy)]
pub struct BareNet<'a> {
    pub nodes: &'a [Node],
    pub cells: &'a [NetCell],
    ghost few_cells: { length cells.now ≤ max_slots },
    ghost few_nodes: { length nodes.now ≤ 4 * length cells.now },
    ghost corners_known: { All (λ c. AreKnown (length nodes.now) c.corners) cells.now },
}

impl BareNet<'_> {
    ghost use Rattle.net.specs.Net.{nth};
    ghost use Rattle.weights.specs.Bare.{faced};
    ghost use Rattle.net_rows.specs.Nets.{nth_cell};
    ghost use Rattle.weights.specs.Sides.{round};

    /// A node as it stands on the lines of an axis.
    pub fn node(&self, axis: Axis, node: usize) -> MeshNode
        requires { node < length self.now.nodes.now }
        ensures value { result ≡ nth (faced self.now axis) node }
        ensures line_narrow { result.x < 2 ^ 38 }
    {
        facing(axis, self.nodes[node].in_mesh())
    }

    /// The corners of a cell, from the south-western one round.
    pub fn corners(&self, cell: usize) -> [usize; 4]
        requires { cell < length self.now.cells.now }
        ensures { result ≡ round (nth_cell self.now.cells.now cell).corners }
    {
        let corners = self.cells[cell].corners;
        [
            corners.southwest,
            corners.southeast,
            corners.northeast,
            corners.northwest,
        ]
    }
}
