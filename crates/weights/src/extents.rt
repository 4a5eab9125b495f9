//! How far each node reaches along an axis: half the gap to its neighbour, or as far as a cell that it hangs on asks.
ghost use Rattle.std.specs.Prelude.{◌≡◌, ℕ, ◌<◌, ◌≤◌, List, length, slice_index, All};
ghost use Rattle.std.specs.Option.{ForSome};
ghost use Rattle.net_rows.specs.Facts.{AreKnown};
ghost use Rattle.net.specs.Net.{MeshNode, box_of, size_of, hangs_at};
ghost use Rattle.weights.specs.Lines.{Lined, Gapped, Stepped, LastIs, Reaches, rise_of, shares_place, raised, place_of};
ghost use Rattle.weights.specs.Ways.{way_of, axis_of, axis_across, side_at, GapsAlong};
ghost use Rattle.weights.specs.Bare.{nodes_of, faced};

use crate::axes::{Entry, Step, last_at};
use crate::lent::BareNet;
use net_rows::{Axis, Corners, NetCell};

// From the k-th entry to the next one of its line; 0 at the line's end.
fn rise_at(row: &[Entry], k: usize) -> u64
    requires { k < length row.now }
    ensures { result ≡ rise_of row.now k }
{
    let [layer, line, along, _] = row[k];
    match row.get(k + 1) {
        Some(&[l, m, next, _]) if (l, m) == (layer, line) => next.saturating_sub(along),
        _ => 0,
    }
}

/// The gaps from each node to the next one of its line and to the one before, as whole half ticks.
pub fn write_gaps(row: &[Entry], forth: &mut [u64], back: &mut [u64])
    requires numbers { All (λ e. slice_index e 3 < length row.now) row.now }
    requires forth_room { length row.now ≤ length forth.old }
    requires back_room { length row.now ≤ length back.old }
    ensures { (ns : List MeshNode) → Lined ns row.now → Gapped ns forth.new back.new }
{
    let mut before = 0;
    for (k, entry) in row.iter().enumerate() {
        let [.., number] = *entry;
        let i = number as usize;
        let rise = rise_at(row, k);
        forth[i] = rise;
        back[i] = before;
        before = rise;
    }
}

// Whether the entry after the k-th is of the same place.
fn shares_place(row: &[Entry], k: usize) -> bool
    requires { k < length row.now }
    ensures { result ≡ shares_place row.now k }
{
    let [layer, line, along, _] = row[k];
    row.get(k + 1)
        .is_some_and(|&[l, m, n, _]| (l, m, n) == (layer, line, along))
}

/// The steps from each node. By index: tried over the items from the back, and the invariant has no index then.
pub fn write_steps(row: &[Entry], steps: &mut [Step])
    requires numbers { All (λ e. slice_index e 3 < length row.now) row.now }
    requires room { length row.now ≤ length steps.old }
    ensures { (ns : List MeshNode) → Lined ns row.now → Stepped ns steps.new }
{
    let mut step = [0, 0];
    let mut last = 0;
    for k in (0..row.len()).rev() {
        let [.., number] = row[k];
        if !shares_place(row, k) {
            step = [rise_at(row, k), last];
            last = number;
        }
        steps[number as usize] = step;
    }
}

// The extent of a node that hangs on a cell becomes at least the cell's size.
fn raise(extents: &mut [u64], node: Option<usize>, size: u64)
    requires { ForSome node (λ k. k < length extents.old) }
    ensures { extents.new ≡ raised extents.old node size }
{
    if let Some(k) = node {
        extents[k] = extents[k].max(size);
    }
}

/// A way from a node: up and down its column, right and left on its row.
#[derive(Clone, Copy)]
pub enum Way {
    Up,
    Down,
    Right,
    Left,
}

impl Way {
    // The axis along which it goes.
    fn axis(self) -> Axis
        ensures { result ≡ axis_of self }
    {
        match self {
            Way::Up | Way::Down => Axis::Column,
            Way::Right | Way::Left => Axis::Row,
        }
    }

    // The corner at which the side begins from which a cell lies that way.
    fn start(self, corners: Corners) -> usize
        ensures { (count : ℕ) → AreKnown count corners → result < count }
    {
        match self {
            Way::Up | Way::Right => corners.southwest,
            Way::Left => corners.southeast,
            Way::Down => corners.northwest,
        }
    }

    // How far along its axis that side is, of a cell that reaches from near to far.
    fn side(self, near: u64, far: u64) -> u64
        ensures { result ≡ side_at self near far }
    {
        match self {
            Way::Up | Way::Right => near,
            Way::Down | Way::Left => far,
        }
    }
}

// How large a cell is that way. Nothing says that its corners stand in order: where they do not, its size is 0.
fn size(net: &BareNet, way: Way, cell: &NetCell) -> u64
    requires { AreKnown (length net.now.nodes.now) cell.now.corners }
    ensures { result ≡ size_of (way_of way) (box_of (nodes_of net.now) cell.now) }
{
    let axis = way.axis();
    let near = net.node(axis, cell.corners.southwest).y;
    let far = net.node(axis, cell.corners.northeast).y;
    far.saturating_sub(near)
}

// The node that hangs on a cell at the middle of its side from which it lies that way. The steps are those across the
// way: mostly the step from the side's first end tells what stands at the middle.
fn hanging(net: &BareNet, way: Way, row: &[Entry], steps: &[Step], cell: &NetCell) -> Option<usize>
    requires corners_known { AreKnown (length net.now.nodes.now) cell.now.corners }
    requires lined { Lined (nodes_of net.now) row.now }
    requires steps_there { length net.now.nodes.now ≤ length steps.now }
    requires stepped { Stepped (faced net.now (axis_across way)) steps.now }
    ensures { LastIs (nodes_of net.now) (place_of (hangs_at (way_of way) (nodes_of net.now) cell.now)) result }
{
    let axis = way.axis();
    let near = net.node(axis, cell.corners.southwest);
    let far = net.node(axis, cell.corners.northeast);
    let side = way.side(near.y, far.y);
    let middle = (near.x + far.x) / 2;
    let start = way.start(cell.corners);
    let first = net.node(axis, start);
    let [step, node] = steps[start];
    if first.layer == near.layer && first.y == side && first.x < middle && 0 < step {
        let ahead = middle - first.x;
        if ahead < step {
            return None;
        }
        if ahead == step {
            return Some(node as usize);
        }
    }
    match axis {
        Axis::Column => last_at(row, near.layer, middle, side),
        Axis::Row => last_at(row, near.layer, side, middle),
    }
}

/// What the cells ask for the nodes at the middles of their sides. The nodes stand in order along columns.
pub fn raise_hanging(net: &BareNet, way: Way, row: &[Entry], steps: &[Step], extents: &mut [u64])
    requires lined { Lined (nodes_of net.now) row.now }
    requires steps_there { length net.now.nodes.now ≤ length steps.now }
    requires stepped { Stepped (faced net.now (axis_across way)) steps.now }
    requires room { length net.now.nodes.now ≤ length extents.old }
    requires own_gaps { GapsAlong (nodes_of net.now) way extents.old }
    ensures { Reaches (way_of way) (nodes_of net.now) net.now.cells.now extents.new }
{
    for cell in net.cells {
        let node = hanging(net, way, row, steps, cell);
        raise(extents, node, size(net, way, cell));
    }
}
