//! A cell whose neighbours are looked for, from the roots down.
ghost use Rattle.std.specs.Prelude.{◌≡◌, IsTrue, IsFalse, ℕ, ◌+◌, ◌*◌, ◌<◌, ◌≤◌, pos, length, slice_index_or};
ghost use Rattle.std.specs.Int.Signed.{lt_z};
ghost use Rattle.cell.specs.Cells.{box_of};
ghost use Rattle.table.specs.Slots.{cell_at, in_slot};
ghost use Rattle.table.specs.Mesh.{at};
ghost use Rattle.table.specs.Rows.{cells_in};
ghost use Rattle.coarsest.specs.Passes.{due};
ghost use Rattle.search.specs.Search.{meet, near_cells, Under, Least, Found, Passed};
ghost use Rattle.search.specs.Roots.{Indexes, bounds_box};

use crate::marks::{Levels, Marks};
use crate::roots::{Bounds, Roots};
use table::Table;
use table::slots::cell_at;

// Whether one number of the row is below another.
fn below(row: &[i64], i: usize, j: usize) -> bool
    requires left { i < length row.now }
    requires right { j < length row.now }
    ensures { result ≡ lt_z (slice_index_or row.now i (pos 0)) (slice_index_or row.now j (pos 0)) }
{
    row[i] < row[j]
}

// False only if the closed boxes of two cells have no point in common: the numbers are compared as they stand.
#[tactic(auto, using(crate::proofs::Numbers::lying))]
fn slots_meet(row: &[i64], a: usize, c: usize) -> bool
    requires a_inside { a * 8 + 8 ≤ length row.now }
    requires c_inside { c * 8 + 8 ≤ length row.now }
    requires a_exact { IsTrue (in_slot row.now a) }
    requires c_exact { IsTrue (in_slot row.now c) }
    ensures { IsFalse result → IsFalse (meet (box_of (cell_at row.now a)) (box_of (cell_at row.now c))) }
{
    let apart = below(row, c * 8 + 2, a * 8)
        || below(row, a * 8 + 2, c * 8)
        || below(row, c * 8 + 3, a * 8 + 1)
        || below(row, a * 8 + 3, c * 8 + 1);
    !apart
}

/// A cell of a table, with the index of the table's roots.
#[derive(Clone, Copy)]
pub struct Around<'a> {
    pub table: Table<'a>,
    pub roots: &'a Roots,
    pub cell: usize,
    pub bounds: Bounds,
    pub level: u64,
    ghost inside: { cell < table.head.count },
    ghost indexed: { Indexes roots.now (cells_in table.row.now table.head) },
    ghost bounded: { bounds_box bounds ≡ (at (cells_in table.row.now table.head) cell).box },
    ghost levelled: { level ≡ (at (cells_in table.row.now table.head) cell).level },
}

impl<'a> Around<'a> {
    ghost use Rattle.table.specs.Tables.{cells};
    ghost use Rattle.search.specs.Around.{owes, asks};
    ghost use Rattle.search.specs.Marks.{Marked, Wanted};

    pub fn new(table: Table<'a>, roots: &'a Roots, cell: usize) -> Around<'a>
        requires inside { cell < table.head.count }
        requires indexed { Indexes roots.now (cells table) }
        ensures cells { cells result.table ≡ cells table.entry }
        ensures count { result.table.head.count ≡ table.entry.head.count }
        ensures cell { result.cell ≡ cell }
    {
        let bounds = Bounds::of(&table, cell);
        let level = table.level(cell);
        Around {
            table,
            roots,
            cell,
            bounds,
            level,
        }
    }

    // False only if the closed boxes of the two cells have no point in common.
    fn meets(&self, c: usize) -> bool
        requires { c < self.now.table.head.count }
        ensures { IsFalse result
            → IsFalse (meet (at (cells self.now.table) self.now.cell).box (at (cells self.now.table) c).box) }
    {
        slots_meet(self.table.row, self.cell, c)
    }

    // The same of a root's box: false for any other cell.
    fn meets_root(&self, c: usize) -> bool
        requires { c < self.now.table.head.count }
        ensures { IsFalse result → (at (cells self.now.table) c).level ≡ 0
            → IsFalse (meet (at (cells self.now.table) self.now.cell).box (at (cells self.now.table) c).box) }
    {
        self.table.level(c) == 0 && self.meets(c)
    }

    // False only if c is not, and does not hold, a leaf to be split for the cell: it does not meet it, or is not
    // coarser by more than the difference.
    #[tactic(auto, using(crate::proofs::Meeting::nearing))]
    fn is_near(&self, difference: u64, c: usize) -> bool
        requires { c < self.now.table.head.count }
        ensures { IsFalse result
            → IsFalse (near_cells difference (at (cells self.now.table) self.now.cell) (at (cells self.now.table) c)) }
    {
        self.meets(c)
            && difference
                < self
                    .table
                    .level(self.cell)
                    .saturating_sub(self.table.level(c))
    }

    // The first root from `from` on that meets the cell; an id from the roots' end on, where there is none. Its tests
    // promise one way only, so it says what is passed over, and no list that an iterator could yield.
    fn next_root(&self, from: usize) -> usize
        ensures past { from ≤ result }
        ensures passed { Passed (cells self.now.table) self.now.cell from result }
    {
        let mut id = from;
        while id < self.roots.end {
            if self.roots.skips(id, &self.bounds) {
                id += 64;
            } else if self.meets_root(id) {
                return id;
            } else {
                id += 1;
            }
        }
        id
    }

    // Whether the leaf c is to be split for the leaf f. A descent comes to few leaves: their rectangles stay out of its
    // way.
    #[inline(never)]
    fn is_due(&self, difference: u64, f: usize, c: usize) -> bool
        requires fine { f < self.now.table.head.count }
        requires coarse { c < self.now.table.head.count }
        ensures { result ≡ due difference (cells self.now.table) f c }
    {
        let row = self.table.row;
        coarsest::due(cell_at(row, f), cell_at(row, c), difference)
    }

    // c itself, if it is to be split for the cell and lies from `from` below `best`.
    #[tactic(auto, using(crate::proofs::Least::own_least))]
    fn least_own(&self, difference: u64, c: usize, from: usize, best: usize) -> usize
        requires { c < self.now.table.head.count }
        ensures { Least (owes self.now difference) (λ b. c ≡ b) from best result }
    {
        if from <= c && c < best && self.is_due(difference, self.cell, c) {
            c
        } else {
            best
        }
    }

    // The least id from `from` below `best` of a leaf in the subtree of c that is to be split for the cell; best,
    // where there is none.
    fn least_under(&self, difference: u64, c: usize, from: usize, best: usize) -> usize
        requires { c < self.now.table.head.count }
        ensures { Least (owes self.now difference) (Under (cells self.now.table) c) from best result }
    {
        if !self.is_near(difference, c) {
            return best;
        }
        let Some(first) = self.table.kids(c) else {
            return self.least_own(difference, c, from, best);
        };
        let mut least = best;
        for child in first..first + 4 {
            least = self.least_under(difference, child, from, least);
        }
        least
    }

    /// The least id from `from` below `stop` of a leaf that is to be split for the cell, since that is finer by more
    /// than the difference; `stop`, where there is none.
    pub fn least_due(&self, difference: u64, from: usize, stop: usize) -> usize
        ensures { Least (owes self.now difference) (λ b. b < self.now.table.head.count) from stop result }
    {
        let mut best = stop;
        let mut root = self.next_root(0);
        while root < self.roots.end {
            best = self.least_under(difference, root, from, best);
            root = self.next_root(root + 1);
        }
        best
    }

    // Whether c itself, if its id is below `stop`, asks for the cell to be split.
    fn asked_by(&self, difference: u64, c: usize, stop: usize) -> bool
        requires { c < self.now.table.head.count }
        ensures { Found (asks self.now difference) (λ b. c ≡ b) stop result }
    {
        c < stop && self.is_due(difference, c, self.cell)
    }

    // Whether a leaf in the subtree of c, of an id below `stop`, asks for the cell to be split.
    fn asked_under(&self, difference: u64, c: usize, stop: usize) -> bool
        requires { c < self.now.table.head.count }
        ensures { Found (asks self.now difference) (Under (cells self.now.table) c) stop result }
    {
        if !self.meets(c) {
            return false;
        }
        let Some(first) = self.table.kids(c) else {
            return self.asked_by(difference, c, stop);
        };
        for child in first..first + 4 {
            if self.asked_under(difference, child, stop) {
                return true;
            }
        }
        false
    }

    /// Whether a leaf of an id below `stop` asks for the cell to be split, since it is finer by more than the
    /// difference.
    pub fn is_asked(&self, difference: u64, stop: usize) -> bool
        ensures { Found (asks self.now difference) (λ b. b < self.now.table.head.count) stop result }
    {
        let mut root = self.next_root(0);
        while root < self.roots.end {
            if self.asked_under(difference, root, stop) {
                return true;
            }
            root = self.next_root(root + 1);
        }
        false
    }

    // Marks each leaf in the subtree of c that meets the cell and has one of the levels.
    fn mark_under(&self, levels: Levels, c: usize, marks: &mut Marks)
        requires { c < self.now.table.head.count }
        ensures { Marked (Under (cells self.now.table) c) (Wanted (cells self.now.table) self.now.cell levels)
            marks.old marks.new }
    {
        if !self.meets(c) {
            return;
        }
        let level = self.table.level(c);
        if levels.high < level {
            return;
        }
        let Some(first) = self.table.kids(c) else {
            if levels.low <= level {
                marks.mark(c);
            }
            return;
        };
        for child in first..first + 4 {
            self.mark_under(levels, child, marks);
        }
    }

    /// Marks each leaf that meets the cell and has one of the levels.
    pub fn mark(&self, levels: Levels, marks: &mut Marks)
        ensures { Marked (λ a. a < self.now.table.head.count) (Wanted (cells self.now.table) self.now.cell levels)
            marks.old marks.new }
    {
        let mut root = self.next_root(0);
        while root < self.roots.end {
            self.mark_under(levels, root, marks);
            root = self.next_root(root + 1);
        }
    }
}
