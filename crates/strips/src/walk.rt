//! The strips of a ring one after another. The y values and the vertical edges are put in order once; a band then meets
//! the edges that span it from left to right, so that no band sorts anything.
ghost use Rattle.std.specs.Prelude.{◌≡◌, ℕ, ◌+◌, ◌/◌, ◌%◌, ◌<◌, ◌≤◌, length, drop, position};
ghost use Rattle.refusals.specs.Limits.{max_points};
ghost use Rattle.strips.specs.Strips.{levels};
ghost use Rattle.strips.specs.Walk.{unsorted_edges, edges_of, Gathered, Prepared, Roomy};
ghost use Rattle.strips.specs.Walk.{IsBand, crosses_at, FindsPair, left, ahead};

use crate::{heights, ring};
use cell::ticks;
use refusals::limits::RING_POINTS;

/// A part of a ring's inside, between two heights: a rectangle in offset ticks.
#[derive(Clone, Copy)]
pub struct Strip {
    pub x0: u64,
    pub y0: u64,
    pub x1: u64,
    pub y1: u64,
}

impl Strip {
    ghost use Rattle.strips.specs.Said.{strip_row};

    /// The corners in the caller's ticks: x0, y0, x1, y1.
    pub fn row(self) -> [i64; 4]
        ensures { result ≡ strip_row self }
    {
        [
            ticks::ticks(self.x0),
            ticks::ticks(self.y0),
            ticks::ticks(self.x1),
            ticks::ticks(self.y1),
        ]
    }
}

/// A ring made ready for the walk: the heights that it has points at, each once, and its vertical edges, in order.
#[derive(Clone, Copy)]
pub struct Ready<'a> {
    pub points: &'a [[i64; 2]],
    pub heights: &'a [u64],
    pub edges: &'a [u64],
    ghost few: { length points.now ≤ max_points },
    ghost heights_in_order: { heights.now ≡ levels points.now },
    ghost edges_in_order: { edges.now ≡ edges_of points.now },
}

/// Room to make a ring ready in, whatever its length: rows for its heights and its edges.
#[derive(Drop)]
pub struct WorkRoom {
    pub heights: [u64; RING_POINTS],
    pub edges: [u64; RING_POINTS],
}

/// The strips of a ring that are still to come: by band from the bottom, then left to right.
#[derive(Clone, Copy)]
pub struct Strips<'a> {
    pub ring: Ready<'a>,
    /// The band that the walk has come to, and the first of the ring's edges that it has not passed there.
    pub band: usize,
    pub edge: usize,
}

// A strip, and the band and the edge to go on from.
#[derive(Clone, Copy)]
struct Step {
    strip: Strip,
    band: usize,
    edge: usize,
}

/// The y values in rising order, each once. Answers how many there are. Internal: the row is as long as the ring. Never
/// inlined, nor is the sort of the edges: their frames are gone before the walk begins.
#[inline(never)]
pub fn sort_heights(points: &[[i64; 2]], row: &mut [u64]) -> usize
    requires { length row.old ≡ length points.now }
    ensures { Gathered (levels points.now) row.new result }
{
    let mut k = 0;
    for i in (0..points.len()).rev() {
        k = heights::add(row, k, ring::y_at(points, i));
    }
    k
}

// The vertical edges, each as one number: its x, and then its first point. Answers how many. Internal: the row is as
// long as the ring. Tried: pairs take twice the room on the stack, and a sort of them or of points by x twice the time.
fn gather_edges(points: &[[i64; 2]], row: &mut [u64]) -> usize
    requires { length row.old ≡ length points.now }
    ensures { Gathered (unsorted_edges points.now (length points.now)) row.new result }
{
    let mut n = 0;
    for i in 0..points.len() {
        let e = ring::edge_at(points, i);
        if e.vertical() {
            row[n] = e.x0 * RING_POINTS as u64 + i as u64;
            n += 1;
        }
    }
    n
}

/// The vertical edges by x. Answers how many there are. Internal.
#[inline(never)]
pub fn sort_edges(points: &[[i64; 2]], row: &mut [u64]) -> usize
    requires { length row.old ≡ length points.now }
    ensures { Gathered (edges_of points.now) row.new result }
{
    let n = gather_edges(points, row);
    row[..n].sort_unstable();
    n
}

// The heights and the vertical edges of a ring, each at the front of its row, in order. Answers how many heights there
// are, and how many edges.
fn prepare(points: &[[i64; 2]], heights: &mut [u64], edges: &mut [u64]) -> (usize, usize)
    requires { Roomy points.now heights.old edges.old }
    ensures { Prepared points.now heights.new edges.new result.0 result.1 }
{
    let n = points.len();
    let m = sort_edges(points, &mut edges[..n]);
    let k = sort_heights(points, &mut heights[..n]);
    (k, m)
}

// The x of a vertical edge, and the point that it begins at.
fn x_of(edge: u64) -> u64
    ensures { result ≡ edge / max_points }
{
    edge / RING_POINTS as u64
}

fn first_of(edge: u64) -> usize
    ensures { result ≡ edge % max_points }
{
    (edge % RING_POINTS as u64) as usize
}

impl WorkRoom {
    /// Makes a ring ready. What the room held before is lost.
    pub fn ready<'r>(&'r mut self, points: &'r [[i64; 2]]) -> Ready<'r>
        requires { length points.now ≤ max_points }
        ensures { result.points.now ≡ points.now }
    {
        let (k, m) = prepare(points, &mut self.heights, &mut self.edges);
        Ready {
            points,
            heights: &self.heights[..k],
            edges: &self.edges[..m],
        }
    }
}

impl<'a> Ready<'a> {
    ghost use Rattle.strips.specs.Strips.{strips_of};
    ghost use Rattle.strips.specs.Coming.{coming};

    // The first of some edges that goes from low, or below, to above it, or the other way, as lent.
    #[inline(always)]
    fn find(&self, edges: &[u64], low: i64) -> Option<usize>
        ensures { result ≡ position (crosses_at self.now.points.now low) edges.now }
    {
        edges
            .iter()
            .position(|&e| ring::spans(self.points, first_of(e), low))
    }

    // The next two edges from j on that span the band from lo on.
    #[inline(always)]
    fn find_pair(&self, j: usize, lo: u64) -> Option<(usize, usize)>
        ensures { (hi : ℕ) → IsBand self.now.points.now lo hi
            → FindsPair self.now.points.now lo hi self.now.edges.now j result }
    {
        let low = ticks::ticks(lo);
        let rest = self.edges.get(j..)?;
        let a = j + self.find(rest, low)?;
        let b = a + 1 + self.find(&self.edges[a + 1..], low)?;
        Some((a, b))
    }

    // The next strip of positive width, from an edge of a band on.
    #[inline(always)]
    fn next_strip(&self, band: usize, edge: usize) -> Option<Step>
        ensures { ahead self.now.points.now self.now.heights.now self.now.edges.now result
            ≡ left self.now.points.now self.now.edges.now edge (drop band self.now.heights.now) }
    {
        let last = self.heights.len().saturating_sub(1);
        let mut k = band;
        let mut j = edge;
        while k < last {
            let lo = self.heights[k];
            let hi = self.heights[k + 1];
            if let Some((a, b)) = self.find_pair(j, lo) {
                let x0 = x_of(self.edges[a]);
                let x1 = x_of(self.edges[b]);
                j = b + 1;
                if x0 < x1 {
                    return Some(Step {
                        strip: Strip {
                            x0,
                            y0: lo,
                            x1,
                            y1: hi,
                        },
                        band: k,
                        edge: j,
                    });
                }
            } else {
                k += 1;
                j = 0;
            }
        }
        None
    }

    /// The strips of the ring.
    pub fn strips(&self) -> Strips<'a>
        ensures { coming result ≡ strips_of self.now.points.now }
    {
        // A ring of fewer than 3 points has none: the walk starts at its end.
        let band = if self.points.len() < 3 {
            self.heights.len()
        } else {
            0
        };
        Strips {
            ring: *self,
            band,
            edge: 0,
        }
    }
}

impl<'a> Iterator for Strips<'a> {
    ghost use Rattle.std.specs.Iterator.{YieldsFirst, item_count};
    ghost use Rattle.strips.specs.Coming.{coming};

    type Item = Strip;

    ghost next_gives = { YieldsFirst coming };

    ghost remaining = { item_count coming };

    #[inline(always)]
    fn next(&mut self) -> Option<Strip> {
        match self.ring.next_strip(self.band, self.edge) {
            Some(step) => {
                self.band = step.band;
                self.edge = step.edge;
                Some(step.strip)
            }
            None => {
                self.band = self.ring.heights.len();
                None
            }
        }
    }
}
