//! A ring of points, every point joined to the next and the last to the first.
ghost use Rattle.std.specs.Prelude.{◌≡◌, ◌<◌, ◌^◌, ◌&&◌, IsTrue, length};
ghost use Rattle.std.specs.List.{list_all};
ghost use Rattle.strips.specs.Rings.{x_at, y_at, after, edge_at, vertical, slants_at, both_in_range, ring_in_range};
ghost use Rattle.strips.specs.Rings.{ring_slants};
ghost use Rattle.refusals.specs.Said.{Said};
ghost use Rattle.strips.specs.Levels.{level_at, crosses};
ghost use Rattle.strips.specs.Said.{fault, judged};

use cell::ticks;
use refusals::Refusal;
use refusals::limits::RING_POINTS;

/// From one point of a ring to the next.
#[derive(Clone, Copy)]
pub struct Edge {
    pub x0: u64,
    pub y0: u64,
    pub x1: u64,
    pub y1: u64,
}

/// Coordinates of point i, offset. A point past the end is read as the middle, so that nothing is asked of a caller.
pub fn x_at(points: &[[i64; 2]], i: usize) -> u64
    ensures { result ≡ x_at points.now i }
{
    ticks::offset(points.get(i).map_or(0, |p| p[0]))
}

pub fn y_at(points: &[[i64; 2]], i: usize) -> u64
    ensures { result ≡ y_at points.now i }
{
    ticks::offset(level_at(points, i))
}

// The y of point i as it is lent.
fn level_at(points: &[[i64; 2]], i: usize) -> i64
    ensures { result ≡ level_at points.now i }
{
    points.get(i).map_or(0, |p| p[1])
}

// Whether one of two y values is at lo or below, and the other above it.
fn crosses(y0: i64, y1: i64, lo: i64) -> bool
    ensures { result ≡ crosses lo y0 y1 }
{
    (y0 <= lo) ^ (y1 <= lo)
}

// The point after point i: the first follows the last. Internal, as the next two: i is the number of an edge.
fn next_point(points: &[[i64; 2]], i: usize) -> usize
    requires { i < 2 ^ 63 }
    ensures { result ≡ after points.now i }
{
    if i + 1 < points.len() { i + 1 } else { 0 }
}

/// Whether the edge from point i goes from lo, or below, to above it, or the other way, all as lent. Where no point
/// lies inside a band that begins at lo, the edge spans it.
pub fn spans(points: &[[i64; 2]], i: usize, lo: i64) -> bool
    requires { i < 2 ^ 63 }
    ensures { result ≡ crosses lo (level_at points.now i) (level_at points.now (after points.now i)) }
{
    let j = next_point(points, i);
    if i < points.len() {
        // The same without a test of either index, since a band asks it of every vertical edge.
        return crosses(points[i][1], points[j][1], lo);
    }
    crosses(level_at(points, i), level_at(points, j), lo)
}

/// The edge from point i.
pub fn edge_at(points: &[[i64; 2]], i: usize) -> Edge
    requires { i < 2 ^ 63 }
    ensures { result ≡ edge_at points.now i }
{
    let j = next_point(points, i);
    Edge {
        x0: x_at(points, i),
        y0: y_at(points, i),
        x1: x_at(points, j),
        y1: y_at(points, j),
    }
}

impl Edge {
    pub fn vertical(self) -> bool
        ensures { result ≡ vertical self }
    {
        self.x0 == self.x1
    }
}

// Whether both coordinates of every point are in range.
fn each_in_range(points: &[[i64; 2]]) -> bool
    ensures { result ≡ list_all both_in_range points.now }
{
    points
        .iter()
        .all(|p| ticks::in_range(p[0]) & ticks::in_range(p[1]))
}

/// The rules' ranges for a ring: the number of its points, and each coordinate.
pub fn in_range(points: &[[i64; 2]]) -> bool
    ensures { result ≡ ring_in_range points.now }
{
    points.len() <= RING_POINTS && each_in_range(points)
}

// Whether the edge from point i differs in both x and y. Internal, as the next: coordinates are in range, so that they
// differ as offset ones do.
fn slants_at(points: &[[i64; 2]], i: usize) -> bool
    requires inside { i < length points.now }
    requires in_range { IsTrue (ring_in_range points.now) }
    ensures { result ≡ slants_at points.now i }
{
    let j = next_point(points, i);
    (points[i][0] != points[j][0]) & (points[i][1] != points[j][1])
}

/// Whether some edge differs in both x and y from end to end. Over the index, since an edge is two points of the ring.
pub fn slanted(points: &[[i64; 2]]) -> bool
    requires { IsTrue (ring_in_range points.now) }
    ensures { result ≡ ring_slants points.now }
{
    let mut found = false;
    for i in 0..points.len() {
        found |= slants_at(points, i);
    }
    found
}

/// Refuses a ring that is out of range, and one that has a slanted edge, at the place given.
pub fn judge(points: &[[i64; 2]], place: usize) -> Result<(), Refusal>
    ensures { (otherwise : Said) → fault result otherwise ≡ judged place points.now otherwise }
{
    if !in_range(points) {
        return Err(Refusal::OutOfRange(place));
    }
    if slanted(points) {
        return Err(Refusal::Slanted(place));
    }
    Ok(())
}
