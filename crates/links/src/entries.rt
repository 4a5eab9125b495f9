//! The nodes of each layer and component, as runs of one sorted row.
ghost use Rattle.std.specs.Prelude.{◌≡◌, ◌*◌, ◌<◌, ◌≤◌, List, length, IsSorted};
ghost use Rattle.std.specs.Ordering.{nat_cmp};
ghost use Rattle.std.specs.Cmp.Lexicographic.{slice_cmp};
ghost use Rattle.net_rows.specs.declared.rows.Node.{Node};
ghost use Rattle.links.specs.Made.{nodes_of};
ghost use Rattle.links.specs.Lists.{AreInOrder, AreRuns, IsLayer, numbers_of};
ghost use Rattle.links.specs.Ends.{layer_at};

use crate::nearest::NodeList;
use crate::rows::Via;
use net_rows::Node;
use sorted::runs::run;
use sorted::{Entries, sort_entries};

/// A node's layer, component and number.
pub type NodeEntry = [u64; 3];

// The entries of a net's nodes.
#[derive(Clone, Copy)]
struct NodeEntries<'a> {
    nodes: &'a [Node],
}

impl Entries<3> for NodeEntries<'_> {
    ghost use Rattle.links.specs.Lists.{entry_of};

    ghost count = { λ s. length s.nodes.now };

    ghost entry = { λ s i. entry_of s.nodes.now i };

    fn entry(&self, i: usize) -> NodeEntry {
        let node = self.nodes[i];
        [node.layer as u64, node.component as u64, i as u64]
    }
}

/// The nodes' entries in order, at the front of the row. The keys are scratch.
pub fn sort_nodes<'a>(nodes: &[Node], keys: &mut [u64], row: &'a mut [NodeEntry]) -> &'a [NodeEntry]
    requires a_key_each { length nodes.now ≤ length keys.old }
    requires room { length nodes.now ≤ length row.old }
    ensures { AreInOrder nodes.now result.now }
{
    let count = nodes.len();
    let row = &mut row[..count];
    sort_entries(&NodeEntries { nodes }, &mut keys[..count], row);
    row
}

/// A layer's list: the run of its entries.
pub fn layer_list(row: &[NodeEntry], layer: u16) -> &[NodeEntry]
    requires { IsSorted (slice_cmp nat_cmp) row.now }
    ensures { (nodes : List Node) → AreRuns nodes row.now → IsLayer nodes layer result.now }
{
    run(row, &[layer as u64])
}

/// An end of a via.
#[derive(Clone, Copy, Debug, PartialEq, Eq)]
pub enum End {
    Bottom,
    Top,
}

/// The nodes at which a via may end: those of its component in the list of the end's layer.
pub fn candidates<'a>(
    bottom: &'a [NodeEntry],
    top: &'a [NodeEntry],
    via: &Via,
    end: End,
) -> &'a [NodeEntry]
    requires bottom_sorted { IsSorted (slice_cmp nat_cmp) bottom.now }
    requires top_sorted { IsSorted (slice_cmp nat_cmp) top.now }
    ensures { (nodes : List Node) → IsLayer nodes via.now.bottom bottom.now → IsLayer nodes via.now.top top.now
        → numbers_of result.now ≡ nodes_of nodes (layer_at via.now end) via.now.component }
{
    let (list, layer) = match end {
        End::Bottom => (bottom, via.bottom as u64),
        End::Top => (top, via.top as u64),
    };
    run(list, &[layer, via.component as u64])
}

/// Entries as a list of nodes.
#[derive(Clone, Copy)]
pub struct EntryList<'a> {
    pub entries: &'a [NodeEntry],
}

impl NodeList for EntryList<'_> {
    ghost numbers = { λ s. numbers_of s.entries.now };

    fn count(&self) -> usize {
        self.entries.len()
    }

    fn number(&self, k: usize) -> usize {
        self.entries[k][2] as usize
    }
}
