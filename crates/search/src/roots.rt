//! An index of a table's roots: a box for each 64 ids that holds the roots among them, so that a search passes over
//! most of them at once.
ghost use Rattle.std.specs.Prelude.{◌≡◌, ℕ, ◌+◌, ◌*◌, ◌/◌, ◌%◌, ◌<◌, ◌≤◌, IsTrue};
ghost use Rattle.refusals.specs.Limits.{max_slots};
ghost use Rattle.table.specs.Mesh.{at};
ghost use Rattle.table.specs.Tables.{cells};
ghost use Rattle.search.specs.Search.{RootsBelow, Within, Clears};
ghost use Rattle.search.specs.Roots.{HoldsRoots, Indexes, bounds_box, block_box};

use cell::ticks::TOP;
use refusals::limits::SLOTS;
use table::Table;
use table::slots::cell_at;

/// One box for each 64 ids of the most slots that a table can have.
pub const BLOCKS: usize = SLOTS / 64;

/// A closed box.
#[derive(Clone, Copy)]
pub struct Bounds {
    pub x0: u64,
    pub y0: u64,
    pub x1: u64,
    pub y1: u64,
}

impl Bounds {
    /// The box of a cell.
    pub fn of(table: &Table<'_>, id: usize) -> Bounds
        requires { id < table.now.head.count }
        ensures { bounds_box result ≡ (at (cells table.now) id).box }
    {
        let c = cell_at(table.row, id);
        Bounds {
            x0: c.x0,
            y0: c.y0,
            x1: c.x1,
            y1: c.y1,
        }
    }

    // The least box that holds both.
    fn widen(self, other: Bounds) -> Bounds
        ensures own { Within (bounds_box self) (bounds_box result) }
        ensures other { Within (bounds_box other) (bounds_box result) }
    {
        Bounds {
            x0: self.x0.min(other.x0),
            y0: self.y0.min(other.y0),
            x1: self.x1.max(other.x1),
            y1: self.y1.max(other.y1),
        }
    }

    // The box widened by a cell, if that is a root.
    fn with_root(self, table: &Table<'_>, id: usize) -> Bounds
        requires { id < table.now.head.count }
        ensures own { Within (bounds_box self) (bounds_box result) }
        ensures root { (at (cells table.now) id).level ≡ 0
            → Within (at (cells table.now) id).box (bounds_box result) }
    {
        if table.level(id) == 0 {
            self.widen(Bounds::of(table, id))
        } else {
            self
        }
    }

    // A box that holds the roots from `from` below `to`.
    fn of_roots(table: &Table<'_>, from: usize, to: usize) -> Bounds
        requires { to ≤ table.now.head.count }
        ensures { HoldsRoots (cells table.now) from to (bounds_box result) }
    {
        let mut bounds = Bounds {
            x0: TOP,
            y0: TOP,
            x1: 0,
            y1: 0,
        };
        for id in from..to {
            bounds = bounds.with_root(table, id);
        }
        bounds
    }

    // Whether the boxes lie apart, and with it all that the other one holds.
    #[tactic(auto, using(crate::proofs::Meeting::apart))]
    fn clears(&self, other: &Bounds) -> bool
        ensures { IsTrue result → Clears (bounds_box self.now) (bounds_box other.now) }
    {
        other.x1 < self.x0 || self.x1 < other.x0 || other.y1 < self.y0 || self.y1 < other.y0
    }
}

/// Where the roots of a table are to be found.
#[derive(Drop)]
pub struct Roots {
    /// Every root's id is below it. Roots stand first in a table that was built, so this is how many there are.
    pub end: usize,
    /// A box that holds the roots of 64 ids.
    pub blocks: [Bounds; BLOCKS],
}

impl Roots {
    /// An index that is to be made.
    pub fn unknown() -> Roots {
        Roots {
            end: 0,
            blocks: [Bounds {
                x0: 0,
                y0: 0,
                x1: 0,
                y1: 0,
            }; BLOCKS],
        }
    }

    /// Makes the index of a table's roots.
    pub fn index(&mut self, table: &Table<'_>)
        ensures { Indexes self.new (cells table.now) }
    {
        let end = roots_end(table);
        self.end = end;
        for block in 0..end.div_ceil(64) {
            self.blocks[block] = Bounds::of_roots(table, block * 64, block_end(block, end));
        }
    }

    /// Whether the ids from `id` on are a block that lies apart from a box.
    pub fn skips(&self, id: usize, bounds: &Bounds) -> bool
        requires { id < max_slots }
        ensures block { IsTrue result → id % 64 ≡ 0 }
        ensures apart { IsTrue result → Clears (bounds_box bounds.now) (block_box self.now id) }
    {
        id % 64 == 0 && bounds.clears(&self.blocks[id / 64])
    }
}

// An id that every root's is below: one past the last cell of level 0. Tried by `rposition`; the proof didn't close.
fn roots_end(table: &Table<'_>) -> usize
    ensures inside { result ≤ table.now.head.count }
    ensures below { RootsBelow (cells table.now) result }
{
    for id in (0..table.head.count).rev() {
        if table.level(id) == 0 {
            return id + 1;
        }
    }
    0
}

// Where a block of ids ends, of those below `end`.
fn block_end(block: usize, end: usize) -> usize
    requires begins { block * 64 < end }
    requires few { end ≤ max_slots }
    ensures within { result ≤ end }
    ensures short { result ≤ block * 64 + 64 }
    ensures all { (i : ℕ) → i < end → i < block * 64 + 64 → i < result }
{
    end.min(block * 64 + 64)
}
