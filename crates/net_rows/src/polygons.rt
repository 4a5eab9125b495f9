//! Whether polygons and the cells of a table belong together.
ghost use Rattle.std.specs.Prelude.{◌≡◌};
ghost use Rattle.table.specs.Tables.{cells};
ghost use Rattle.net_rows.specs.Polygons.{polygons_below, polygons_fit};

use crate::Polygons;
use table::Table;

/// Whether each cell is of one of the first polygons.
pub fn polygons_below(table: &Table, count: usize) -> bool
    ensures { result ≡ polygons_below count (cells table.now) }
{
    (0..table.head.count).all(|id| table.polygon(id) < count as u64)
}

impl Polygons<'_> {
    /// Whether each polygon has a layer and a component, and no cell names a polygon past the last.
    pub fn fit(&self, table: &Table) -> bool
        ensures { result ≡ polygons_fit (cells table.now) self.now.layers.now self.now.components.now }
    {
        self.layers.len() == self.components.len() && polygons_below(table, self.layers.len())
    }
}
