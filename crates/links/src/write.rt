//! The links of a net, into a row of edges: contacts, vias, channels.
ghost use Rattle.std.specs.Prelude.{◌≡◌, ◌*◌, ◌≤◌, length, IsTrue};
ghost use Rattle.refusals.specs.Said.{written};
ghost use Rattle.table.specs.Tables.{leaves};
ghost use Rattle.links.specs.Judged.{links_in_range};
ghost use Rattle.links.specs.Made.{links_of};
ghost use Rattle.links.specs.Nets.{are_none, lists_of, table_lists, layer_links};

use crate::by_layer::NodesByLayer;
use crate::by_polygon::{MeshNet, NetByPolygon};
use crate::entries::sort_nodes;
use crate::rows::Links;
use net_rows::Edge;
use refusals::limits;
use table::Table;
use table::leaves::write_starts;

// The links of vias and channels. Returns how many there are. The work room is scratch.
fn write_layer_links(
    net: &NetByPolygon,
    links: &Links,
    edges: &mut [Edge],
    work: &mut [u64],
) -> usize
    requires in_range { IsTrue (links_in_range links.now) }
    requires work_room { 6 * length net.now.nodes.now ≤ length work.old }
    requires room { length (layer_links net.now.nodes.now links.now) ≤ length edges.old }
    ensures count { result ≡ length (layer_links net.now.nodes.now links.now) }
    ensures row { edges.new ≡ written (layer_links net.now.nodes.now links.now) edges.old }
{
    let n = net.nodes.len();
    let (entry_room, rest) = work.split_at_mut(3 * n);
    let (entries, _) = entry_room.as_chunks_mut::<3>();
    let (keys, sides) = rest.split_at_mut(n);
    let nodes = NodesByLayer {
        nodes: net.nodes,
        entries: sort_nodes(net.nodes, keys, entries),
    };
    let vias = nodes.write_vias(links.vias, sides, edges);
    vias + nodes.write_channels(links.channel_layer, links.channels, &mut edges[vias..])
}

/// The links of a net, into the front of a row of edges. Returns how many there are. The work room, six numbers a node,
/// is scratch; where there is no via and no channel it is left as it is.
pub fn write_links(net: &NetByPolygon, links: &Links, edges: &mut [Edge], work: &mut [u64]) -> usize
    requires in_range { IsTrue (links_in_range links.now) }
    requires work_room { 6 * length net.now.nodes.now ≤ length work.old }
    requires room { length (links_of net.now.nodes.now (lists_of net.now) links.now) ≤ length edges.old }
    ensures count { result ≡ length (links_of net.now.nodes.now (lists_of net.now) links.now) }
    ensures row { edges.new ≡ written (links_of net.now.nodes.now (lists_of net.now) links.now) edges.old }
{
    let contacts = net.write_contacts(links.contacts, edges);
    if links.vias.is_empty() && links.channels.is_empty() {
        return contacts;
    }
    contacts + write_layer_links(net, links, &mut edges[contacts..], work)
}

impl Links<'_> {
    // Whether there is none.
    fn are_none(&self) -> bool
        ensures { result ≡ are_none self.now }
    {
        self.contacts.is_empty() && self.vias.is_empty() && self.channels.is_empty()
    }

    /// The links of the net of a table's leaves, a cell a leaf, into the front of a row of edges. Returns how many there
    /// are. The work room, six numbers a node, is scratch. A call of its own, so that its starts take stack only here.
    #[inline(never)]
    pub fn write(&self, table: &Table, net: &MeshNet, edges: &mut [Edge], work: &mut [u64]) -> usize
        requires in_range { IsTrue (links_in_range self.now) }
        requires a_cell_each { length net.now.cells.now ≡ length (leaves table.now) }
        requires work_room { 6 * length net.now.nodes.now ≤ length work.old }
        requires room { length (links_of net.now.nodes.now (table_lists table.now net.now.cells.now) self.now)
            ≤ length edges.old }
        ensures count { result ≡ length (links_of net.now.nodes.now (table_lists table.now net.now.cells.now) self.now) }
        ensures row { edges.new
            ≡ written (links_of net.now.nodes.now (table_lists table.now net.now.cells.now) self.now) edges.old }
    {
        if self.are_none() {
            return 0;
        }
        let mut starts = [0; limits::POLYGONS];
        write_starts(table, &mut starts);
        let by_polygon = NetByPolygon {
            nodes: net.nodes,
            cells: net.cells,
            starts: &starts,
        };
        write_links(&by_polygon, self, edges, work)
    }
}
