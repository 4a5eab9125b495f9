//! The text of a mesh and its net, line after line.
ghost use Rattle.std.specs.Prelude.{◌≡◌, ◌+◌, ◌*◌, ◌≤◌, [], ◌++◌, length, All, OnErr, take};
ghost use Rattle.arrayvec.specs.ArrayString.{array_string_len};
ghost use Rattle.leafnet_text.specs.Output.{leaf_lines, node_lines, edge_lines};

use crate::input::Board;
use crate::lines::{Leaf, Text, Totals, put_edge, put_node};
use crate::mesh::Mesh;
use crate::netlist::Net;
use crate::rooms::{EDGE_LINE, LEAF_LINE, LEAVES, NODE_LINE, TEXT};
use cell::rectangles::Rect;
use cell::ticks::ticks;
use net_rows::{Edge, Node};
use refusals::Refusal;
use table::leaves::leaf_order;
use table::slots::cell_at;

impl Leaf {
    ghost use Rattle.leafnet_text.specs.Output.{leaf_at};

    // The leaf in slot `id` of a table.
    fn at(row: &[i64], id: usize) -> Leaf
        requires { id * 8 + 8 ≤ length row.now }
        ensures { result ≡ leaf_at row.now id }
    {
        let cell = cell_at(row, id);
        Leaf {
            id,
            polygon: cell.poly,
            level: cell.level,
            rect: Rect {
                x0: ticks(cell.x0),
                y0: ticks(cell.y0),
                x1: ticks(cell.x1),
                y1: ticks(cell.y1),
            },
        }
    }
}

fn put_leaves(text: &mut Text, row: &[i64], order: &[u64])
    requires room { array_string_len text.old + LEAF_LINE * length order.now ≤ TEXT }
    requires slots { All (λ id. id * 8 + 8 ≤ length row.now) order.now }
    ensures bytes { text.new.bytes ≡ text.old.bytes ++ leaf_lines row.now order.now }
    ensures short { array_string_len text.new ≤ array_string_len text.old + LEAF_LINE * length order.now }
{
    for id in order {
        Leaf::at(row, *id as usize).put(text);
    }
}

#[tactic(auto, using(crate::proofs::Numbered::numbered_all))]
fn put_nodes(text: &mut Text, nodes: &[Node])
    requires { array_string_len text.old + NODE_LINE * length nodes.now ≤ TEXT }
    ensures bytes { text.new.bytes ≡ text.old.bytes ++ node_lines nodes.now }
    ensures short { array_string_len text.new ≤ array_string_len text.old + NODE_LINE * length nodes.now }
{
    for (number, node) in nodes.iter().enumerate() {
        put_node(text, number, node);
    }
}

fn put_edges(text: &mut Text, edges: &[Edge])
    requires { array_string_len text.old + EDGE_LINE * length edges.now ≤ TEXT }
    ensures { text.new.bytes ≡ text.old.bytes ++ edge_lines edges.now }
{
    for edge in edges {
        put_edge(text, edge);
    }
}

impl Mesh {
    ghost use Rattle.leafnet_text.specs.Held.{given_of};
    ghost use Rattle.leafnet_text.specs.Output.{Prints, lines_text, table_says};
    ghost use Rattle.refusals.specs.Said.{accepted};

    // The lines of a mesh with this leaf order, and of its net.
    #[tactic(auto, unfolding(crate::specs::Output::lines_text))]
    fn put_lines(&self, order: &[u64], net: &Net, text: &mut Text)
        requires empty { text.old.bytes ≡ [] }
        requires few { length order.now ≤ LEAVES }
        requires slots { All (λ id. id * 8 + 8 ≤ length self.now.row) order.now }
        ensures { text.new.bytes ≡ lines_text self.now.row self.now.head self.now.splits order.now
            (take net.now.size.nodes net.now.nodes) (take net.now.size.edges net.now.edges) }
    {
        let nodes = net.nodes();
        let edges = net.edges();
        let totals = Totals {
            cells: self.head.count,
            leaves: order.len(),
            nodes: nodes.len(),
            edges: edges.len(),
            splits: self.splits,
        };
        totals.put(text);
        put_leaves(text, &self.row, order);
        put_nodes(text, nodes);
        put_edges(text, edges);
    }

    /// The text of a mesh of this board, or the refusal of its leaf order or its net, and no text.
    pub fn put(&self, board: &Board, text: &mut Text) -> Result<(), Refusal>
        requires { text.old.bytes ≡ [] }
        ensures says { Prints result (λ _. accepted text.new.bytes)
            (table_says (given_of board.now) self.now.row self.now.head self.now.splits) }
        ensures none { OnErr result (text.new.bytes ≡ []) }
    {
        let mut order = [0u64; LEAVES];
        let leaves = leaf_order(&self.row, self.head, &mut order)?;
        let net = Net::of_mesh(self, board)?;
        self.put_lines(&order[..leaves], &net, text);
        Ok(())
    }
}
