//! Strips of one ring: polygon_minus_polygon of the Rust with an empty second ring, in whole ticks.
#![tactic(auto)]

ghost use Rattle.std.specs.Prelude.{◌≡◌, ◌≤◌, length};
ghost use Rattle.refusals.specs.Limits.{max_points};
ghost use Rattle.refusals.specs.Said.{if_accepted};
ghost use Rattle.strips.specs.Said.{stripped_said, strips_says, strips_leave, laid, counted};
ghost use Rattle.strips.specs.Strips.{strips_of};
ghost use Rattle.strips.specs.Walk.{edges_of, few_points};

use refusals::Refusal;
use refusals::limits::RING_POINTS;
use walk::Ready;

pub mod heights;
pub mod laws;
pub mod ring;
pub mod walk;

// A ring of at most so many points has short work rows.
const FEW: usize = 16;

// The strips into the row if there is room for them.
fn lay(ring: &Ready<'_>, out: &mut [[i64; 4]]) -> Result<usize, Refusal>
    ensures answer { stripped_said result ≡ counted (length (strips_of ring.now.points.now)) (length out.old) }
    ensures row { out.new ≡ if_accepted (stripped_said result) (laid (strips_of ring.now.points.now) out.old) out.old }
{
    let room = out.len();
    let count = ring.strips().take(room + 1).count();
    if room < count {
        return Err(Refusal::NoRoom);
    }
    for (n, strip) in ring.strips().enumerate() {
        out[n] = strip.row();
    }
    Ok(count)
}

// The heights into a work row, and the strips. The ring has been judged, here and in the next three.
fn cut(
    points: &[[i64; 2]],
    heights: &mut [u64],
    edges: &[u64],
    out: &mut [[i64; 4]],
) -> Result<usize, Refusal>
    requires within_limit { length points.now ≤ max_points }
    requires row_long_enough { length points.now ≤ length heights.old }
    requires edges_in_order { edges.now ≡ edges_of points.now }
    ensures answer { stripped_said result ≡ counted (length (strips_of points.now)) (length out.old) }
    ensures row { out.new ≡ if_accepted (stripped_said result) (laid (strips_of points.now) out.old) out.old }
{
    let n = points.len();
    let k = walk::sort_heights(points, &mut heights[..n]);
    let ring = Ready {
        points,
        heights: &heights[..k],
        edges,
    };
    lay(&ring, out)
}

// Short work rows. Long ones stand in frames of their own, below, so that a ring of few points takes no stack for them.
fn cut_few(points: &[[i64; 2]], out: &mut [[i64; 4]]) -> Result<usize, Refusal>
    requires { length points.now ≤ few_points }
    ensures answer { stripped_said result ≡ counted (length (strips_of points.now)) (length out.old) }
    ensures row { out.new ≡ if_accepted (stripped_said result) (laid (strips_of points.now) out.old) out.old }
{
    let mut heights = [0u64; FEW];
    let mut edges = [0u64; FEW];
    let m = walk::sort_edges(points, &mut edges[..points.len()]);
    cut(points, &mut heights, &edges[..m], out)
}

#[inline(never)]
fn cut_bands(points: &[[i64; 2]], edges: &[u64], out: &mut [[i64; 4]]) -> Result<usize, Refusal>
    requires within_limit { length points.now ≤ max_points }
    requires edges_in_order { edges.now ≡ edges_of points.now }
    ensures answer { stripped_said result ≡ counted (length (strips_of points.now)) (length out.old) }
    ensures row { out.new ≡ if_accepted (stripped_said result) (laid (strips_of points.now) out.old) out.old }
{
    let mut heights = [0u64; RING_POINTS];
    cut(points, &mut heights, edges, out)
}

// Long work rows. The edges are sorted before there is a row of heights, so that the sort's stack isn't added to it.
#[inline(never)]
fn cut_many(points: &[[i64; 2]], out: &mut [[i64; 4]]) -> Result<usize, Refusal>
    requires { length points.now ≤ max_points }
    ensures answer { stripped_said result ≡ counted (length (strips_of points.now)) (length out.old) }
    ensures row { out.new ≡ if_accepted (stripped_said result) (laid (strips_of points.now) out.old) out.old }
{
    let mut edges = [0u64; RING_POINTS];
    let m = walk::sort_edges(points, &mut edges[..points.len()]);
    cut_bands(points, &edges[..m], out)
}

/// The strips of a ring, by band from the bottom, then left to right: x0, y0, x1, y1 in each row.
pub fn strips(points: &[[i64; 2]], out: &mut [[i64; 4]]) -> Result<usize, Refusal>
    ensures answer { stripped_said result ≡ strips_says points.now (length out.old) }
    ensures row { out.new ≡ strips_leave points.now out.old }
{
    ring::judge(points, 0)?;
    if points.len() <= FEW {
        return cut_few(points, out);
    }
    cut_many(points, out)
}
