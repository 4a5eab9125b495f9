//! Roots into the lent table, slot by slot. There is room.
ghost use Rattle.std.specs.Prelude.{◌≡◌, ◌+◌, ◌*◌, ◌-◌, ◌≤◌, ◌<◌, ◌∷◌, [], ◌++◌, pos, length, take, replicate};
ghost use Rattle.refusals.specs.Limits.{coordinate, max_polygons};
ghost use Rattle.strips.specs.Strips.{strips_of};
ghost use Rattle.strips.specs.Walk.{Sound};
ghost use Rattle.build.specs.Grid.{boxed, row_of, row_to, grid_to, roots_in};
ghost use Rattle.build.specs.Board.{board_of, roots_of};
ghost use Rattle.build.specs.Steps.{Cuts, placed, Slotted};

use crate::grid::{Cut, Cutter};
use crate::judged::Judged;
use cell::Cell;
use strips::walk::{Ready, Strip, WorkRoom};
use table::slots::put_cell;

// One root: level 0, no parent, no child.
fn put_root(t: &mut [i64], k: usize, s: Strip, poly: u64)
    requires room { Slotted t.old k 1 }
    requires polygon_in_range { poly < max_polygons }
    ensures { t.new ≡ placed t.old k (boxed poly s ∷ []) }
{
    put_cell(t, k, Cell::root(s.x0, s.y0, s.x1, s.y1, poly));
}

// Row j of a strip, as a strip.
fn row_of(s: Strip, g: Cut, j: u64) -> Strip
    requires sound { Sound s }
    requires within_cap { Cuts g }
    requires inside { j < g.ny }
    ensures { result ≡ row_of s g j }
{
    let dy = (s.y1 - s.y0) / g.ny;
    Strip {
        x0: s.x0,
        y0: s.y0 + dy * j,
        x1: s.x1,
        y1: s.y0 + dy * (j + 1),
    }
}

// A row cut into n cells, from left to right.
fn put_row(t: &mut [i64], k: usize, r: Strip, n: u64, poly: u64)
    requires width { r.x0 ≤ r.x1 }
    requires in_range { r.x1 ≤ coordinate + coordinate }
    requires some_cells { 0 < n }
    requires room { Slotted t.old k n }
    requires polygon_in_range { poly < max_polygons }
    ensures { t.new ≡ placed t.old k (row_to poly r n n) }
{
    let dx = (r.x1 - r.x0) / n;
    for i in 0..n {
        let b = Strip {
            x0: r.x0 + dx * i,
            y0: r.y0,
            x1: r.x0 + dx * (i + 1),
            y1: r.y1,
        };
        put_root(t, k + i as usize, b, poly);
    }
}

// A strip's cells, row by row from the bottom. Answers the next slot.
fn put_grid(t: &mut [i64], k: usize, s: Strip, g: Cut, poly: u64) -> usize
    requires sound { Sound s }
    requires within_cap { Cuts g }
    requires room { Slotted t.old k (length (grid_to poly s g g.ny)) }
    requires polygon_in_range { poly < max_polygons }
    ensures next { result ≡ k + length (grid_to poly s g g.ny) }
    ensures slots { t.new ≡ placed t.old k (grid_to poly s g g.ny) }
{
    let mut at = k;
    for j in 0..g.ny {
        put_row(t, at, row_of(s, g, j), g.nx, poly);
        at += g.nx as usize;
    }
    at
}

/// A ring's roots, strip by strip from slot k on. Answers the next slot.
pub fn put_strips(ring: &Ready<'_>, cutter: Cutter, poly: u64, t: &mut [i64], k: usize) -> usize
    requires room { Slotted t.old k (length (roots_in poly cutter.cap cutter.cell (strips_of ring.now.points.now))) }
    requires polygon_in_range { poly < max_polygons }
    ensures next { result ≡ k + length (roots_in poly cutter.cap cutter.cell (strips_of ring.now.points.now)) }
    ensures slots { t.new ≡ placed t.old k (roots_in poly cutter.cap cutter.cell (strips_of ring.now.points.now)) }
{
    let mut at = k;
    for strip in ring.strips() {
        let cut = cutter.cut_of(strip);
        at = put_grid(t, at, strip, cut, poly);
    }
    at
}

/// The roots of all polygons, one after another from the table's start. Answers how many there are.
pub fn put_all(board: &Judged<'_>, room: &mut WorkRoom, t: &mut [i64]) -> usize
    requires { Slotted t.old 0 (length (roots_of (board_of board.now.settings board.now.list.now board.now.outlines))) }
    ensures count { result ≡ length (roots_of (board_of board.now.settings board.now.list.now board.now.outlines)) }
    ensures slots { t.new
        ≡ placed t.old 0 (roots_of (board_of board.now.settings board.now.list.now board.now.outlines)) }
{
    let outlines = board.outlines;
    let mut k = 0;
    let mut at = 0;
    for (p, layer) in outlines.layers.iter().enumerate() {
        let points = outlines.ring(p, at);
        let ring = room.ready(points);
        let cutter = board.cutter(*layer);
        k = put_strips(&ring, cutter, p as u64, t, k);
        at += points.len();
    }
    k
}

/// Zeros from a position to the end.
pub fn clear(t: &mut [i64], from: usize)
    requires { from ≤ length t.old }
    ensures { t.new ≡ take from t.old ++ replicate (length t.old - from) (pos 0) }
{
    t[from..].fill(0);
}
