//! Splitting one leaf into its four quadrants.
ghost use Rattle.std.specs.Prelude.{◌≡◌, ◌+◌, ◌*◌, ◌<◌, ◌≤◌, length, IfOk};
ghost use Rattle.refusals.specs.Limits.{widest_level};
ghost use Rattle.cell.specs.Boxes.{num};
ghost use Rattle.table.specs.Slots.{cell_at};
ghost use Rattle.table.specs.Mesh.{split};
ghost use Rattle.table.specs.Rows.{IsTable, cells_in};
ghost use Rattle.table.specs.Refine.{put_kid, split_row, refined_said, refine_says, refined_row};

use crate::Head;
use crate::slots::{cell_at, put_cell, put_first};
use crate::view::Table;
use cell::{Cell, Quadrant};
use refusals::Refusal;

// A child of cell i goes to its slot from n on.
#[tactic(auto, using(crate::proofs::Wellformed::quadrants), unfolding(crate::specs::Refine::put_kid))]
fn put_kid(t: &mut [i64], n: usize, i: usize, c: Cell, q: Quadrant)
    requires room { (n + 4) * 8 ≤ length t.old }
    requires finer { c.level < widest_level }
    ensures { t.new ≡ put_kid t.old n i c (num q) }
{
    put_cell(t, n + q.number(), c.child(i as u64, q));
}

/// Cell i gets four children in the slots from n on.
#[tactic(auto, unfolding(crate::specs::Refine::split_row))]
pub fn split_cell(t: &mut [i64], n: usize, i: usize)
    requires inside { i < n }
    requires room { (n + 4) * 8 ≤ length t.old }
    requires finer { (cell_at t.old i).level < widest_level }
    ensures { t.new ≡ split_row t.old n i }
{
    let c = cell_at(t, i);
    put_kid(t, n, i, c, Quadrant::SouthWest);
    put_kid(t, n, i, c, Quadrant::SouthEast);
    put_kid(t, n, i, c, Quadrant::NorthWest);
    put_kid(t, n, i, c, Quadrant::NorthEast);
    put_first(t, i, n as u64);
}

/// Splits the leaf with this id; the head answered has the new count.
pub fn refine(row: &mut [i64], head: Head, id: usize) -> Result<Head, Refusal>
    ensures answer { refined_said result ≡ refine_says row.old head id }
    ensures row_after { row.new ≡ refined_row row.old head id }
    ensures table_after { IfOk result (λ h. IsTable row.new h) }
    ensures cells_after { IfOk result (λ h. cells_in row.new h ≡ split (cells_in row.old head) id) }
{
    let Some(cells) = Table::new(row, head) else {
        return Err(Refusal::BadTable);
    };
    if head.count <= id {
        return Err(Refusal::NoSuchCell(id));
    }
    if !cells.is_leaf(id) {
        return Err(Refusal::AlreadySplit(id));
    }
    if head.max_level <= cells.level(id) {
        return Err(Refusal::FinestLevel(id));
    }
    if row.len() / 8 < head.count + 4 {
        return Err(Refusal::NoRoom);
    }
    split_cell(row, head.count, id);
    Ok(head.after_split())
}
