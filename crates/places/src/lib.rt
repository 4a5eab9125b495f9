//! The leaves of a net's polygons, and the places on them, corners and middles of sides, numbered as nodes: one sort in
//! place of every map.
#![tactic(auto)]

ghost use Rattle.std.specs.Prelude.{◌≡◌, ◌<◌, ◌≤◌, length};
ghost use Rattle.refusals.specs.Limits.{max_slots, max_polygons};
ghost use Rattle.table.specs.Mesh.{at};
ghost use Rattle.table.specs.Tables.{cells, leaves};
ghost use Rattle.net.specs.Net.{pieces};
ghost use Rattle.net.specs.Flat.{leaves_from};
ghost use Rattle.places.specs.Leaves.{AreSound, AreKnown, entries_in, leaf_entry, polys_of};

use net_rows::Polygons;
use table::slots::cell_at;
use table::view::Table;

pub mod nodes;

/// Polygon, x0, y0, x1, y1 of a leaf.
pub type LeafEntry = [u64; 5];

/// A leaf's polygon and its rectangle, in the coordinates of a table's cells.
#[derive(Clone, Copy, Debug, PartialEq, Eq)]
pub struct Leaf {
    pub polygon: usize,
    pub x0: u64,
    pub y0: u64,
    pub x1: u64,
    pub y1: u64,
}

/// The leaves of all polygons, by polygon, then id.
#[derive(Clone, Copy)]
pub struct Leaves<'a> {
    pub entries: &'a [LeafEntry],
    pub polygons: Polygons<'a>,
    /// Each polygon's sheet resistance.
    pub sheets: &'a [f64],
    ghost few: { length entries.now ≤ max_slots },
    ghost a_component_each: { length polygons.components.now ≡ length polygons.layers.now },
    ghost a_sheet_each: { length sheets.now ≡ length polygons.layers.now },
    ghost sound: { AreSound (length polygons.layers.now) entries.now },
}

fn leaf_entry(table: &Table, id: usize) -> LeafEntry
    requires { id < table.now.head.count }
    ensures { result ≡ leaf_entry (at (cells table.now) id) }
{
    let cell = cell_at(table.row, id);
    [cell.poly, cell.x0, cell.y0, cell.x1, cell.y1]
}

/// The leaves of a table, by polygon, then id, into a row that has room for just them. The row of ids is scratch.
/// Internal: the rows have room.
pub fn list_leaves(table: &Table, ids: &mut [u64], entries: &mut [LeafEntry])
    requires an_entry_each { length entries.old ≡ length (leaves table.now) }
    requires an_id_each { length (leaves table.now) ≤ length ids.old }
    ensures { entries.new ≡ entries_in table.now.row.now table.now.head }
{
    table.list_order(ids);
    for (v, entry) in entries.iter_mut().enumerate() {
        *entry = leaf_entry(table, ids[v] as usize);
    }
}

impl<'a> Leaves<'a> {
    ghost use Rattle.places.specs.Places.{leaves_in};

    /// The leaves of a table, as `list_leaves` has listed them, with their polygons.
    pub fn of(
        table: &Table,
        entries: &'a [LeafEntry],
        polygons: Polygons<'a>,
        sheets: &'a [f64],
    ) -> Leaves<'a>
        requires listed { entries.now ≡ entries_in table.now.row.now table.now.head }
        requires known { AreKnown polygons (cells table.now) }
        requires few_polygons { length polygons.layers.now ≤ max_polygons }
        requires a_component_each { length polygons.components.now ≡ length polygons.layers.now }
        requires a_sheet_each { length sheets.now ≡ length polygons.layers.now }
        ensures leaves { leaves_in result
            ≡ leaves_from (pieces (cells table.now) (polys_of polygons.entry sheets.now) 0) 0 }
        ensures same_count { length result.entries.now ≡ length entries.now }
    {
        Leaves {
            entries,
            polygons,
            sheets,
        }
    }
}
