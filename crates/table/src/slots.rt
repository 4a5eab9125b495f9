//! Cells in the slots of a lent row: loads and stores that ask nothing of the numbers there.
ghost use Rattle.std.specs.Prelude.{◌≡◌, ◌+◌, ◌*◌, ◌<◌, ◌≤◌, length, pos, slice_index_or};
ghost use Rattle.std.specs.Int.Signed.{non_neg};
ghost use Rattle.cell.specs.Ticks.{in_range, off, on};
ghost use Rattle.table.specs.Slots.{counted, kept, same_z, stored, cell_at, put_cell, put_first, in_slot};

use cell::Cell;

/// What stands in a row for no parent and for no child.
pub const NO_CELL: i64 = Cell::NO_CELL as i64;

// The number at index j, as a cell holds a coordinate, and as it holds anything else: 0 for a negative number.
fn coordinate_at(t: &[i64], j: usize) -> u64
    requires { j < length t.now }
    ensures { result ≡ off (slice_index_or t.now j (pos 0)) }
{
    cell::ticks::offset(t[j])
}

#[tactic(auto, using(crate::proofs::Numbers::counted_max))]
fn number_at(t: &[i64], j: usize) -> u64
    requires { j < length t.now }
    ensures { result ≡ counted (slice_index_or t.now j (pos 0)) }
{
    t[j].max(0) as u64
}

// The way back, for each of the two.
#[tactic(auto, unfolding(crate::specs::Slots::stored))]
fn put_coordinate(t: &mut [i64], j: usize, n: u64)
    requires { j < length t.old }
    ensures { t.new ≡ stored t.old j (on n) }
{
    t[j] = cell::ticks::ticks(n);
}

#[tactic(auto, unfolding(crate::specs::Slots::stored, crate::specs::Slots::kept))]
fn put_number(t: &mut [i64], j: usize, n: u64)
    requires { j < length t.old }
    ensures { t.new ≡ stored t.old j (kept n) }
{
    t[j] = n.min(i64::MAX as u64) as i64;
}

/// The cell in slot i.
#[tactic(auto, unfolding(crate::specs::Slots::cell_at))]
pub fn cell_at(t: &[i64], i: usize) -> Cell
    requires { i * 8 + 8 ≤ length t.now }
    ensures { result ≡ cell_at t.now i }
{
    let b = i * 8;
    Cell {
        x0: coordinate_at(t, b),
        y0: coordinate_at(t, b + 1),
        x1: coordinate_at(t, b + 2),
        y1: coordinate_at(t, b + 3),
        level: number_at(t, b + 4),
        parent: number_at(t, b + 5),
        first: number_at(t, b + 6),
        poly: number_at(t, b + 7),
    }
}

/// One number of the cell in slot i, where the rest is not wanted.
#[tactic(auto, unfolding(crate::specs::Slots::cell_at))]
pub fn level_at(t: &[i64], i: usize) -> u64
    requires { i * 8 + 8 ≤ length t.now }
    ensures { result ≡ (cell_at t.now i).level }
{
    number_at(t, i * 8 + 4)
}

#[tactic(auto, unfolding(crate::specs::Slots::cell_at))]
pub fn parent_at(t: &[i64], i: usize) -> u64
    requires { i * 8 + 8 ≤ length t.now }
    ensures { result ≡ (cell_at t.now i).parent }
{
    number_at(t, i * 8 + 5)
}

#[tactic(auto, unfolding(crate::specs::Slots::cell_at))]
pub fn first_at(t: &[i64], i: usize) -> u64
    requires { i * 8 + 8 ≤ length t.now }
    ensures { result ≡ (cell_at t.now i).first }
{
    number_at(t, i * 8 + 6)
}

#[tactic(auto, unfolding(crate::specs::Slots::cell_at))]
pub fn poly_at(t: &[i64], i: usize) -> u64
    requires { i * 8 + 8 ≤ length t.now }
    ensures { result ≡ (cell_at t.now i).poly }
{
    number_at(t, i * 8 + 7)
}

/// Whether number j of the row is z, whatever the two are.
#[tactic(auto, unfolding(crate::specs::Slots::same_z))]
pub fn is_at(t: &[i64], j: usize, z: i64) -> bool
    requires { j < length t.now }
    ensures { result ≡ same_z (slice_index_or t.now j (pos 0)) z }
{
    t[j] == z
}

/// Writes the cell to slot i.
#[tactic(auto, unfolding(crate::specs::Slots::put_cell))]
pub fn put_cell(t: &mut [i64], i: usize, c: Cell)
    requires { i * 8 + 8 ≤ length t.old }
    ensures { t.new ≡ put_cell t.old i c }
{
    let b = i * 8;
    put_coordinate(t, b, c.x0);
    put_coordinate(t, b + 1, c.y0);
    put_coordinate(t, b + 2, c.x1);
    put_coordinate(t, b + 3, c.y1);
    put_number(t, b + 4, c.level);
    put_number(t, b + 5, c.parent);
    put_number(t, b + 6, c.first);
    put_number(t, b + 7, c.poly);
}

/// Names the first child of the cell in slot i.
#[tactic(auto, unfolding(crate::specs::Slots::put_first))]
pub fn put_first(t: &mut [i64], i: usize, first: u64)
    requires { i * 8 + 8 ≤ length t.old }
    ensures { t.new ≡ put_first t.old i first }
{
    put_number(t, i * 8 + 6, first);
}

// Whether number j is in a coordinate's range, and whether it is not negative.
fn in_range_at(t: &[i64], j: usize) -> bool
    requires { j < length t.now }
    ensures { result ≡ in_range (slice_index_or t.now j (pos 0)) }
{
    cell::ticks::in_range(t[j])
}

fn natural_at(t: &[i64], j: usize) -> bool
    requires { j < length t.now }
    ensures { result ≡ non_neg (slice_index_or t.now j (pos 0)) }
{
    0 <= t[j]
}

/// Whether slot i holds the numbers of a cell.
#[tactic(auto, unfolding(crate::specs::Slots::in_slot))]
pub fn in_slot(t: &[i64], i: usize) -> bool
    requires { i * 8 + 8 ≤ length t.now }
    ensures { result ≡ in_slot t.now i }
{
    let b = i * 8;
    in_range_at(t, b)
        & in_range_at(t, b + 1)
        & in_range_at(t, b + 2)
        & in_range_at(t, b + 3)
        & natural_at(t, b + 4)
        & natural_at(t, b + 5)
        & natural_at(t, b + 6)
        & natural_at(t, b + 7)
}
