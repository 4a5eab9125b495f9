//! What is judged before the first number of a net is written.
ghost use Rattle.std.specs.Prelude.{◌≡◌, ◌≤◌, [], length, IfOk, IsTrue};
ghost use Rattle.refusals.specs.Limits.{max_polygons};
ghost use Rattle.refusals.specs.Said.{accepted, said};
ghost use Rattle.table.specs.Tables.{cells};
ghost use Rattle.places.specs.Leaves.{AreKnown};
ghost use Rattle.links.specs.Judged.{links_in_range};
ghost use Rattle.network.specs.Says.{first_bad, judged};

use links::Links;
pub use links::count::EDGES_A_LEAF;
use net_rows::Polygons;
use refusals::{Refusal, limits};
use table::{Head, Table};

/// Room that is asked for each leaf. A cell takes one row; a link takes an edge row besides.
pub const NODES_A_LEAF: usize = 4;

pub const WORK_A_LEAF: usize = 64;

/// The first polygon whose sheet resistance is out of range.
pub fn first_bad(sheets: &[f64]) -> Option<usize>
    ensures { result ≡ first_bad sheets.now }
{
    sheets
        .iter()
        .position(|sheet| !floats::sheet_in_range(*sheet))
}

/// The table, where it and its polygons go together and every value is in range.
#[tactic(auto, unfolding(crate::specs::Says::judged))]
pub fn judge<'a>(
    row: &'a [i64],
    head: Head,
    polygons: &Polygons,
    sheets: &[f64],
    links: &Links,
) -> Result<Table<'a>, Refusal>
    ensures answer { said (λ t. []) result ≡ judged row.now head polygons.now sheets.now links.now (accepted []) }
    ensures row { IfOk result (λ t. t.row.now ≡ row.now) }
    ensures head { IfOk result (λ t. t.head ≡ head) }
    ensures known { IfOk result (λ t. AreKnown polygons.now (cells t)) }
    ensures few_polygons { IfOk result (λ t. length polygons.now.layers.now ≤ max_polygons) }
    ensures a_component_each { IfOk result (λ t. length polygons.now.components.now ≡ length polygons.now.layers.now) }
    ensures a_sheet_each { IfOk result (λ t. length sheets.now ≡ length polygons.now.layers.now) }
    ensures links_in_range { IfOk result (λ t. IsTrue (links_in_range links.now)) }
{
    let table = Table::new(row, head).ok_or(Refusal::BadTable)?;
    if !polygons.fit(&table) || sheets.len() != polygons.layers.len() {
        return Err(Refusal::BadTable);
    }
    if limits::POLYGONS < polygons.layers.len() {
        return Err(Refusal::OutOfRange(0));
    }
    if let Some(p) = first_bad(sheets) {
        return Err(Refusal::OutOfRange(p));
    }
    if !links.in_range() {
        return Err(Refusal::OutOfRange(0));
    }
    Ok(table)
}

/// How long the rows are that are lent for a net.
#[derive(Clone, Copy, Debug, PartialEq, Eq)]
pub struct Room {
    pub nodes: usize,
    pub edges: usize,
    pub cells: usize,
    pub work: usize,
}

impl Room {
    ghost use Rattle.network.specs.Says.{holds};

    /// Whether there is room for the net of so many leaves, before its links.
    pub fn holds(self, leaves: usize) -> bool
        ensures { result ≡ holds self leaves }
    {
        (leaves <= self.nodes / NODES_A_LEAF)
            & (leaves <= self.cells)
            & (leaves <= self.work / WORK_A_LEAF)
    }
}
