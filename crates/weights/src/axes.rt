//! Nodes along the lines of an axis: a sorted row in place of a map.
ghost use Rattle.std.specs.Prelude.{◌≡◌, ◌<◌, ◌≤◌, List, [], ◌∷◌, length, slice_index, All, IsSorted};
ghost use Rattle.std.specs.Ordering.{nat_cmp};
ghost use Rattle.std.specs.Cmp.Lexicographic.{slice_cmp};
ghost use Rattle.net.specs.Net.{MeshNode};
ghost use Rattle.weights.specs.Lines.{facing, Lined, LastIs};
ghost use Rattle.weights.specs.Bare.{faced};

use crate::lent::BareNet;
use net_rows::{Axis, MeshNode};
use sorted::{Entries, sort_entries};

/// A node as it stands on the lines of an axis: x is the line, y how far along it.
pub fn facing(axis: Axis, node: MeshNode) -> MeshNode
    ensures { result ≡ facing axis node }
{
    match axis {
        Axis::Column => node,
        Axis::Row => MeshNode {
            x: node.y,
            y: node.x,
            ..node
        },
    }
}

/// A node's layer, its line, how far along it, and its number. Or the two nodes of a cell's side, the lesser first, the
/// cell, and which side of it.
pub type Entry = [u64; 4];

/// How far it is from a node to the next place of its line where nodes stand, and the last of these. Where it is 0
/// nothing is known.
pub type Step = [u64; 2];

// The entries of a net's nodes.
#[derive(Clone, Copy)]
struct NodeEntries<'a> {
    net: &'a BareNet<'a>,
    axis: Axis,
}

impl Entries<4> for NodeEntries<'_> {
    ghost use Rattle.weights.specs.Lines.{entry_of};

    ghost count = { λ s. length s.net.now.nodes.now };

    ghost entry = { λ s i. entry_of (faced s.net.now s.axis) i };

    fn entry(&self, i: usize) -> Entry {
        let node = self.net.node(self.axis, i);
        [node.layer as u64, node.x, node.y, i as u64]
    }
}

/// The nodes' entries in order, at the front of the row.
pub fn sort_nodes<'a>(
    net: &BareNet,
    axis: Axis,
    keys: &mut [u64],
    row: &'a mut [Entry],
) -> &'a [Entry]
    requires a_key_each { length net.now.nodes.now ≤ length keys.old }
    requires room { length net.now.nodes.now ≤ length row.old }
    ensures lined { Lined (faced net.now axis) result.now }
    ensures an_entry_each { length result.now ≡ length net.now.nodes.now }
    ensures numbers { All (λ e. slice_index e 3 < length result.now) result.now }
{
    let count = net.nodes.len();
    let row = &mut row[..count];
    sort_entries(&NodeEntries { net, axis }, &mut keys[..count], row);
    row
}

/// The last of the nodes at a place, as a map from places to nodes would hold it.
pub fn last_at(row: &[Entry], layer: u16, line: u64, along: u64) -> Option<usize>
    requires { IsSorted (slice_cmp nat_cmp) row.now }
    ensures { (ns : List MeshNode) → Lined ns row.now → LastIs ns (layer ∷ line ∷ along ∷ []) result }
{
    let [.., number] = *sorted::runs::last(row, &[layer as u64, line, along])?;
    Some(number as usize)
}
