//! The rules' "Well-formed table", tested in one walk over the row. Cells are roots, or children in fours: a four is
//! compared with its parent, whose numbers say what the children's are, and a cell's first child must name it back.
ghost use Rattle.std.specs.Prelude.{◌≡◌, ◌+◌, ◌*◌, ◌/◌, ◌%◌, ◌^◌, ◌<◌, ◌≤◌, length};
ghost use Rattle.std.specs.Bool.{then_some};
ghost use Rattle.std.specs.List.{list_all, range_with_len};
ghost use Rattle.refusals.specs.Limits.{widest_level, max_slots};
ghost use Rattle.table.specs.Formed.{zero_at, rest_zero, side_ok, root_ok, holds_whole_slots, shape_ok};
ghost use Rattle.table.specs.Formed.{cells_ok, well_formed};
ghost use Rattle.table.specs.Mesh.{table, leaf_count};
ghost use Rattle.table.specs.Walk.{Power, kid_at, kids_at, slot_or, led_at, root_at, four_at};

use crate::Head;
use crate::slots::{cell_at, first_at, in_slot, is_at, parent_at};
use cell::ticks::ticks;
use cell::{Cell, Quadrant};
use refusals::limits;

/// What every side of a root is a multiple of.
#[tactic(auto, using(std::proofs::lemmas::Nat::pow_below))]
pub fn root_unit(max_level: u64) -> u64
    requires { max_level ≤ widest_level }
    ensures { result ≡ 2 ^ (max_level + 1) }
{
    2 << max_level
}

// The step is a power of two, so a side's remainder is its low bits, and no division is needed.
#[tactic(auto, using(std::proofs::lemmas::Nat::and_mask), unfolding(crate::specs::Formed::side_ok))]
fn side_ok(step: u64, a: u64, b: u64) -> bool
    requires { Power step }
    ensures { result ≡ side_ok step a b }
{
    a < b && (b - a) & (step - 1) == 0
}

#[tactic(auto, unfolding(crate::specs::Formed::root_ok))]
fn root_ok(step: u64, c: Cell) -> bool
    requires { Power step }
    ensures { result ≡ root_ok step c }
{
    (c.level == 0) & side_ok(step, c.x0, c.x1) & side_ok(step, c.y0, c.y1)
}

// Whether slot j holds the child in a quadrant of the cell c in slot p. Its numbers are compared as they stand in the
// row, so they need no test of their own.
#[tactic(auto, unfolding(crate::specs::Walk::kid_at))]
fn kid_ok(t: &[i64], p: usize, c: Cell, j: usize, q: Quadrant) -> bool
    requires parent { p * 8 + 8 ≤ length t.now }
    requires child { j * 8 + 8 ≤ length t.now }
    requires finer { c.level < widest_level }
    ensures { result ≡ kid_at t.now p c j q }
{
    let kid = c.child(p as u64, q);
    let b = j * 8;
    let poly = t[p * 8 + 7];
    is_at(t, b, ticks(kid.x0))
        & is_at(t, b + 1, ticks(kid.y0))
        & is_at(t, b + 2, ticks(kid.x1))
        & is_at(t, b + 3, ticks(kid.y1))
        & is_at(t, b + 4, kid.level as i64)
        & is_at(t, b + 5, p as i64)
        & is_at(t, b + 7, poly)
}

// Whether the four slots from f on hold the children of cell p.
#[tactic(auto, unfolding(crate::specs::Walk::kids_at))]
fn kids_ok(t: &[i64], m: u64, p: usize, f: usize) -> bool
    requires behind { p < f }
    requires slots { (f + 4) * 8 ≤ length t.now }
    requires range { m ≤ widest_level }
    ensures { result ≡ kids_at t.now m p f }
{
    let c = cell_at(t, p);
    if m <= c.level {
        return false;
    }
    kid_ok(t, p, c, f, Quadrant::SouthWest)
        & kid_ok(t, p, c, f + 1, Quadrant::SouthEast)
        & kid_ok(t, p, c, f + 2, Quadrant::NorthWest)
        & kid_ok(t, p, c, f + 3, Quadrant::NorthEast)
}

fn slot_or(f: u64, n: usize, i: usize) -> usize
    ensures { result ≡ slot_or f n i }
{
    if f < n as u64 { f as usize } else { i }
}

// The walk over a row's first `count` slots.
#[derive(Clone, Copy)]
struct Walk<'a> {
    row: &'a [i64],
    count: usize,
    max_level: u64,
    // What every side of a root is a multiple of.
    unit: u64,
    ghost slots: { count * 8 ≤ length row.now },
    ghost range: { max_level ≤ widest_level },
    ghost power: { unit ≡ 2 ^ (max_level + 1) },
}

impl Walk<'_> {
    // Whether cell i names no child, or one past it that names it as its parent. No branch: which cells are split can't
    // be foretold.
    #[tactic(auto, unfolding(crate::specs::Walk::led_at))]
    fn led(&self, i: usize) -> bool
        requires { i < self.now.count }
        ensures { result ≡ led_at self.now.row.now self.now.count i }
    {
        let f = first_at(self.row, i);
        let g = slot_or(f, self.count, i);
        (f == Cell::NO_CELL) | ((i < g) & is_at(self.row, g * 8 + 5, i as i64))
    }

    // Whether a root stands in slot i.
    #[tactic(auto, unfolding(crate::specs::Walk::root_at, crate::specs::Walk::led_at))]
    fn root_here(&self, i: usize) -> bool
        requires { i < self.now.count }
        ensures { result ≡ root_at self.now.row.now self.now.count self.now.unit i }
    {
        if !in_slot(self.row, i) {
            return false;
        }
        let c = cell_at(self.row, i);
        (c.poly < limits::POLYGONS as u64) & root_ok(self.unit, c) && (c.is_leaf() || self.led(i))
    }

    // Whether the four children of cell p stand in the slots from i on.
    #[tactic(auto, unfolding(crate::specs::Walk::four_at))]
    fn four_here(&self, i: usize, p: u64) -> bool
        requires { i < self.now.count }
        ensures { result ≡ four_at self.now.row.now self.now.count self.now.max_level i p }
    {
        if self.count - i < 4 || i as u64 <= p {
            return false;
        }
        let q = p as usize;
        is_at(self.row, q * 8 + 6, i as i64) & kids_ok(self.row, self.max_level, q, i)
            && self.led(i) & self.led(i + 1) & self.led(i + 2) & self.led(i + 3)
    }
}

// How many leaves the first n cells have, where every cell passes its test. Only roots are counted: each split cell has
// four of the others (`laws::leaves_by_roots`).
fn leaves_of(t: &[i64], n: usize, m: u64) -> Option<usize>
    requires slots { n * 8 ≤ length t.now }
    requires few { n ≤ max_slots }
    requires range { m ≤ widest_level }
    ensures { result ≡ then_some (cells_ok t.now n m) (leaf_count (table t.now n)) }
{
    let walk = Walk {
        row: t,
        count: n,
        max_level: m,
        unit: root_unit(m),
    };
    let mut i = 0;
    let mut roots = 0;
    while i < n {
        let p = parent_at(t, i);
        if p == Cell::NO_CELL {
            if !walk.root_here(i) {
                return None;
            }
            roots += 1;
            i += 1;
        } else {
            if !walk.four_here(i, p) {
                return None;
            }
            i += 4;
        }
    }
    Some(n - (n - roots) / 4)
}

// Whether the eight numbers of slot j are zero.
fn slot_zero(t: &[i64], j: usize) -> bool
    requires { j * 8 + 8 ≤ length t.now }
    ensures { result ≡ list_all (λ k. zero_at t.now (j * 8 + k)) (range_with_len 0 8) }
{
    let b = j * 8;
    is_at(t, b, 0)
        & is_at(t, b + 1, 0)
        & is_at(t, b + 2, 0)
        & is_at(t, b + 3, 0)
        & is_at(t, b + 4, 0)
        & is_at(t, b + 5, 0)
        & is_at(t, b + 6, 0)
        & is_at(t, b + 7, 0)
}

// All slots at or past the count are zero.
#[tactic(auto, unfolding(crate::specs::Formed::rest_zero))]
fn rest_zero(t: &[i64], n: usize) -> bool
    requires slots { n * 8 ≤ length t.now }
    requires whole { length t.now % 8 ≡ 0 }
    ensures { result ≡ rest_zero t.now n }
{
    (n..t.len() / 8).all(|j| slot_zero(t, j))
}

/// Whether a row of this length is whole slots, and no more than a table may have.
pub fn holds_whole_slots(size: usize) -> bool
    ensures { result ≡ holds_whole_slots size }
{
    (size % 8 == 0) & (size / 8 <= limits::SLOTS)
}

#[tactic(auto, unfolding(crate::specs::Formed::shape_ok))]
fn shape_ok(size: usize, n: usize, m: u64) -> bool
    ensures { result ≡ shape_ok size n m }
{
    (m <= Cell::WIDEST_LEVEL) & holds_whole_slots(size) & (n <= size / 8)
}

/// Whether the row holds a well-formed table: `laws::test_is_definition`. `Table::new` asks it once for all.
#[tactic(auto, using(crate::proofs::Shape::shape_bounds), unfolding(crate::specs::Formed::well_formed))]
pub fn well_formed(t: &[i64], head: Head) -> bool
    ensures { result ≡ well_formed t.now head }
{
    let n = head.count;
    let m = head.max_level;
    shape_ok(t.len(), n, m) && rest_zero(t, n) && leaves_of(t, n, m) == Some(head.leaves)
}
