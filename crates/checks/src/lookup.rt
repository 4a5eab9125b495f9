// How nodes are found by their place and edges by their ends: the net as it stands.
ghost use Rattle.std.specs.Prelude.{◌≡◌, ◌&&◌, List, ℤ, ℕ};
ghost use Rattle.std.specs.List.{All};
ghost use Rattle.std.specs.Ordering.{int_eq};
ghost use Rattle.cell.specs.Ticks.{on};
ghost use Rattle.net_rows.specs.declared.rows.Node.{Node};
ghost use Rattle.net_rows.specs.declared.rows.Edge.{Edge};
ghost use Rattle.net_rows.specs.Facts.{IsSoundNode};
ghost use Rattle.checks.specs.declared.asked.Class.{Class};
ghost use Rattle.net_rows.specs.declared.axis.Axis.{Axis};
ghost use Rattle.checks.specs.Nodes.{node_at, next_place, last_at, joined, here, joins, line_of, is_of};
ghost use Rattle.checks.specs.Sides.{Near, OnLine};
ghost use Rattle.checks.specs.Entries.{facing, is_between, place_of};

use crate::asked::{Class, Place};
use cell::ticks::ticks;
use net_rows::{Axis, Edge, MeshNode, Node, SoundNet};

/// Nodes by their place and edges by their ends.
pub trait Lookup {
    ghost nodes: { Self → List Node };

    ghost edges: { Self → List Edge };

    // it was made for such nodes
    ghost serves: { Self → Class → Type 0 };

    // and can go along such lines
    ghost goes: { Self → Axis → Type 0 };

    /// The last of the nodes at a place.
    fn node_at(&self, class: Class, place: Place) -> Option<usize>
        requires served { serves self.now class }
        requires near { Near place }
        ensures { result ≡ node_at (nodes self.now) class place };

    /// The first place strictly between two of one line, on the way from the one to the other, that has a node.
    fn next_place(&self, class: Class, axis: Axis, from: Place, to: Place) -> Option<Place>
        requires served { serves self.now class }
        requires goes { goes self.now axis }
        requires on_line { OnLine axis from to }
        requires near_from { Near from }
        requires near_to { Near to }
        ensures { result ≡ next_place (nodes self.now) class from to };

    /// Whether an edge joins two nodes, one way or the other.
    fn are_joined(&self, a: usize, b: usize) -> bool
        ensures { result ≡ joined (edges self.now) a b };
}

impl Class {
    ghost use Rattle.checks.specs.Nodes.{is_of};

    // Whether a node is one of them.
    fn has(self, node: Node) -> bool
        ensures { result ≡ is_of self node }
    {
        match self {
            Class::Any => true,
            Class::Of { layer, component } => {
                (node.layer == layer) & (node.component == component)
            }
        }
    }
}

#[tactic(auto, unfolding(crate::specs::Nodes::here))]
fn is_here(node: Node, class: Class, x: i64, y: i64) -> bool
    ensures { result ≡ here class x y node }
{
    node.lies_at(x, y) & class.has(node)
}

// The last node at a place, in ticks. Tried with `rposition`; the proof didn't close.
#[tactic(auto, using(crate::proofs::Lasts::last_more))]
fn last_at(nodes: &[Node], class: Class, x: i64, y: i64) -> Option<usize>
    ensures { result ≡ last_at nodes.now class x y }
{
    for n in (0..nodes.len()).rev() {
        if is_here(nodes[n], class, x, y) {
            return Some(n);
        }
    }
    None
}

// Whether a place is strictly between two of one line.
fn is_between(place: Place, axis: Axis, from: Place, to: Place) -> bool
    ensures { result ≡ is_between axis place from to }
{
    let (place, from, to) = (place.facing(axis), from.facing(axis), to.facing(axis));
    (place.x == from.x) & (place.y > from.y.min(to.y)) & (place.y < from.y.max(to.y))
}

fn place_of(node: Node) -> Place
    ensures { result ≡ place_of node }
{
    let MeshNode { x, y, .. } = node.in_mesh();
    Place { x, y }
}

// Whether a node is one of those looked for, and stands on a line, in ticks.
#[inline(always)]
fn is_on_line(node: Node, class: Class, axis: Axis, line: i64) -> bool
    ensures { result ≡ (int_eq (line_of axis node) line && is_of class node) }
{
    let own = match axis {
        Axis::Column => node.x,
        Axis::Row => node.y,
    };
    (own == line) & class.has(node)
}

// Whether a node is one of those looked for, and stands strictly between two places of one line. Most nodes are on
// other lines, and `line`, its coordinate in ticks, tells these without a place made for them.
#[inline(always)]
#[tactic(auto, using(crate::proofs::Nearest::same_line_of))]
fn stands_between(node: Node, class: Class, axis: Axis, line: i64, from: Place, to: Place) -> bool
    requires sound { IsSoundNode node }
    requires line { line ≡ on (facing axis from).x }
    requires near { Near from }
    ensures { result ≡ (is_of class node && is_between axis (place_of node) from to) }
{
    is_on_line(node, class, axis, line) && is_between(place_of(node), axis, from, to)
}

// The first place strictly between two of one line that has a node: each node found there is the end from then on.
fn next_place(nodes: &[Node], class: Class, axis: Axis, from: Place, to: Place) -> Option<Place>
    requires sound { All IsSoundNode nodes.now }
    requires on_line { OnLine axis from to }
    requires near_from { Near from }
    requires near_to { Near to }
    ensures { result ≡ next_place nodes.now class from to }
{
    let line = ticks(from.facing(axis).x);
    let mut end = to;
    for node in nodes {
        if stands_between(*node, class, axis, line, from, end) {
            end = place_of(*node);
        }
    }
    (end != to).then_some(end)
}

#[tactic(auto, unfolding(crate::specs::Nodes::joins))]
fn edge_joins(edge: &Edge, a: usize, b: usize) -> bool
    ensures { result ≡ joins a b edge.now }
{
    ((edge.from == a) & (edge.to == b)) | ((edge.from == b) & (edge.to == a))
}

// Whether an edge joins two nodes.
fn are_joined(edges: &[Edge], a: usize, b: usize) -> bool
    ensures { result ≡ joined edges.now a b }
{
    edges.iter().any(|edge| edge_joins(edge, a, b))
}

/// The net as it stands: each place is looked for among all nodes, and each edge among all edges.
impl Lookup for SoundNet<'_> {
    ghost nodes = { λ net. net.rows.nodes.now };

    ghost edges = { λ net. net.rows.edges.now };

    ghost serves = { λ net class. Unit {0} };

    ghost goes = { λ net axis. Unit {0} };

    fn node_at(&self, class: Class, place: Place) -> Option<usize> {
        last_at(self.rows.nodes, class, ticks(place.x), ticks(place.y))
    }

    fn next_place(&self, class: Class, axis: Axis, from: Place, to: Place) -> Option<Place> {
        next_place(self.rows.nodes, class, axis, from, to)
    }

    fn are_joined(&self, a: usize, b: usize) -> bool {
        are_joined(self.rows.edges, a, b)
    }
}
