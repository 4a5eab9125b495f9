//! The net of a table's leaves before the weights.
#![tactic(auto)]

ghost use Rattle.std.specs.Prelude.{◌≡◌, ◌*◌, ◌≤◌, map, length};
ghost use Rattle.refusals.specs.Limits.{max_polygons};
ghost use Rattle.table.specs.Tables.{cells as table_cells, leaves};
ghost use Rattle.net_rows.specs.Nodes.{in_ticks};
ghost use Rattle.refusals.specs.Said.{written};
ghost use Rattle.places.specs.Leaves.{AreKnown};
ghost use Rattle.bare_net.specs.Nets.{bare_net, counted};

mod edges;
mod parts;
mod sides;

use net_rows::{Edge, NetCell, Node, Polygons};
use places::{Leaves, list_leaves};
use sides::Sides;
use table::view::Table;

/// How many rows of each kind a net takes.
#[derive(Clone, Copy)]
pub struct Counts {
    pub nodes: usize,
    pub edges: usize,
    pub cells: usize,
}

/// The net of a table's leaves before the weights, into the fronts of the rows. What the work room holds afterwards is
/// left open.
pub fn write_net<'a>(
    table: &Table,
    polygons: &Polygons<'a>,
    sheets: &'a [f64],
    nodes: &mut [Node],
    edges: &mut [Edge],
    cells: &mut [NetCell],
    work: &mut [u64],
) -> Counts
    requires known { AreKnown polygons.now (table_cells table.now) }
    requires few_polygons { length polygons.now.layers.now ≤ max_polygons }
    requires a_component_each { length polygons.now.components.now ≡ length polygons.now.layers.now }
    requires a_sheet_each { length sheets.now ≡ length polygons.now.layers.now }
    requires node_room { 4 * length (leaves table.now) ≤ length nodes.old }
    requires edge_room { 8 * length (leaves table.now) ≤ length edges.old }
    requires cell_room { length (leaves table.now) ≤ length cells.old }
    requires work_room { 64 * length (leaves table.now) ≤ length work.old }
    ensures counts { result ≡ counted (bare_net table.now polygons.now sheets.now) }
    ensures nodes { nodes.new ≡ written (map in_ticks (bare_net table.now polygons.now sheets.now).nodes) nodes.old }
    ensures edges { edges.new ≡ written (bare_net table.now polygons.now sheets.now).edges edges.old }
    ensures cells { cells.new ≡ written (bare_net table.now polygons.now sheets.now).cells cells.old }
{
    let l = table.leaf_count();
    let (leaf_room, rest) = work.split_at_mut(5 * l);
    let (entries, _) = leaf_room.as_chunks_mut::<5>();
    let (numbers, rest) = rest.split_at_mut(4 * l);
    let (middles, rest) = rest.split_at_mut(4 * l);
    let (keys, rest) = rest.split_at_mut(8 * l);
    list_leaves(table, keys, entries);
    let leaves = Leaves::of(table, entries, *polygons, sheets);
    let (place_entries, _) = rest.as_chunks_mut::<5>();
    let places = &mut place_entries[..leaves.place_count()];
    let node_count = leaves.number_places(numbers, middles, keys, places);
    leaves.write_nodes(numbers, nodes);
    let sides = Sides {
        leaves,
        numbers,
        middles,
    };
    let (slots, rest) = rest.split_at_mut(8 * l);
    let (entries, _) = rest.as_chunks_mut::<4>();
    let edge_count = sides.write_edges(slots, keys, entries, edges);
    sides.write_cells(cells);
    Counts {
        nodes: node_count,
        edges: edge_count,
        cells: l,
    }
}
