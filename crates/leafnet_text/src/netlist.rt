//! The net of a mesh, to be printed.
ghost use Rattle.std.specs.Prelude.{◌≡◌, ◌≤◌, All, length, take};
ghost use Rattle.std.specs.Float.{NotNan};
ghost use Rattle.leafnet_text.specs.declared.rooms.TheConstants.{EDGES, NODES};

use crate::input::Board;
use crate::mesh::Mesh;
use crate::rooms::{EDGES, LEAVES, NODES};
use links::Links;
use net_rows::{Corners, Edge, NetCell, Node, Polygons};
use network::NetSize;
use network::judge::WORK_A_LEAF;
use refusals::Refusal;

/// The numbers of the work room.
const WORK: usize = WORK_A_LEAF * LEAVES;

// What stands in a row until a net is written to it. Tried `Default`: the proof of `of_mesh` didn't close.
const NO_NODE: Node = Node {
    layer: 0,
    component: 0,
    x: 0,
    y: 0,
};

const NO_EDGE: Edge = Edge {
    from: 0,
    to: 0,
    conductance: 0.0,
};

const NO_CELL: NetCell = NetCell {
    corners: Corners {
        southwest: 0,
        southeast: 0,
        northeast: 0,
        northwest: 0,
    },
    sheet: 0.0,
};

/// The nodes and the edges of a net, at the front of rows with room for the largest. No conductance is a NaN.
#[derive(Clone, Copy)]
pub struct Net {
    nodes: [Node; NODES],
    edges: [Edge; EDGES],
    size: NetSize,
    ghost few_nodes: { size.nodes ≤ NODES },
    ghost few_edges: { size.edges ≤ EDGES },
    ghost numbers: { All (λ e. NotNan e.conductance) (take size.edges edges) },
}

impl Net {
    ghost use Rattle.leafnet_text.specs.Held.{given_of};
    ghost use Rattle.leafnet_text.specs.Output.{Prints, lines_text, net_says};
    ghost use Rattle.refusals.specs.Said.{accepted};
    ghost use Rattle.table.specs.Rows.{order_in};

    /// The net of a mesh, or its refusal.
    pub fn of_mesh(mesh: &Mesh, board: &Board) -> Result<Net, Refusal>
        ensures { Prints result
            (λ n. accepted (lines_text mesh.now.row mesh.now.head mesh.now.splits (order_in mesh.now.row mesh.now.head)
            (take n.size.nodes n.nodes) (take n.size.edges n.edges)))
            (net_says (given_of board.now) mesh.now.row mesh.now.head mesh.now.splits) }
    {
        let polygons = Polygons {
            layers: board.layers(),
            components: board.components(),
        };
        let mut nodes = [NO_NODE; NODES];
        let mut edges = [NO_EDGE; EDGES];
        let mut cells = [NO_CELL; LEAVES];
        let mut work = [0u64; WORK];
        let size = network::network(
            &mesh.row,
            mesh.head,
            &polygons,
            board.sheets(),
            &Links::none(),
            &mut nodes,
            &mut edges,
            &mut cells,
            &mut work,
        )?;
        Ok(Net { nodes, edges, size })
    }

    pub fn nodes(&self) -> &[Node]
        ensures nodes { result.now ≡ take self.now.size.nodes self.now.nodes }
        ensures few { length result.now ≤ NODES }
    {
        &self.nodes[..self.size.nodes]
    }

    pub fn edges(&self) -> &[Edge]
        ensures edges { result.now ≡ take self.now.size.edges self.now.edges }
        ensures few { length result.now ≤ EDGES }
        ensures numbers { All (λ e. NotNan e.conductance) result.now }
    {
        &self.edges[..self.size.edges]
    }
}
