//! Polygons as one value of lent rows, and what is judged of them before anything is cut.
ghost use Rattle.std.specs.Prelude.{◌≡◌, ◌==◌, ◌+◌, ◌<◌, ◌^◌, length, sum, take};
ghost use Rattle.refusals.specs.Said.{Said};
ghost use Rattle.strips.specs.Said.{fault};
ghost use Rattle.build.specs.Board.{ring_at};
ghost use Rattle.build.specs.Says.{judge_one, judge_from, rows_shaped};

use refusals::Refusal;
use strips::ring;
use table::formed;

/// Polygons in lent rows: of each its layer, its component, its sheet resistance and how many points it has, and the
/// points of all of them in order.
#[derive(Clone, Copy)]
pub struct Outlines<'a> {
    pub layers: &'a [u16],
    pub components: &'a [u32],
    pub sheets: &'a [f64],
    pub counts: &'a [u64],
    pub points: &'a [[i64; 2]],
}

// Whether the point counts add up to a number. A record's stand in its polygons' entries (`add_up` of record): one
// function for both would ask how an item gives its count, and be longer than the two.
#[tactic(auto, using(crate::proofs::Judging::sum_more))]
fn adds_up(counts: &[u64], total: usize) -> bool
    ensures { result ≡ (sum counts.now == total) }
{
    let mut left = total;
    for count in counts {
        let n = *count as usize;
        if left < n {
            return false;
        }
        left -= n;
    }
    left == 0
}

// Sheet resistance and ring of one polygon.
fn judge_one(polygon: usize, sheet: f64, ring: &[[i64; 2]]) -> Result<(), Refusal>
    ensures { (o : Said) → fault result o ≡ judge_one polygon sheet ring.now o }
{
    if !floats::sheet_in_range(sheet) {
        return Err(Refusal::OutOfRange(polygon));
    }
    ring::judge(ring, polygon)
}

impl<'a> Outlines<'a> {
    /// Whether a row of this length is a table's, each row here has an entry for each polygon, and the counts add up to
    /// the points.
    #[tactic(auto, unfolding(crate::specs::Says::rows_shaped))]
    pub fn fit(&self, size: usize) -> bool
        ensures { result
            ≡ rows_shaped self.now.layers.now self.now.components.now self.now.sheets.now self.now.counts.now
            self.now.points.now size }
    {
        let n = self.counts.len();
        formed::holds_whole_slots(size)
            & ((self.layers.len() == n) & ((self.components.len() == n) & (self.sheets.len() == n)))
            & adds_up(self.counts, self.points.len())
    }

    /// The points of a polygon, of which the first stands here in the row. The walks over polygons add up where each
    /// begins: an iterator of rings would be a type with what is left of two rows, their facts and a `next`, for that
    /// one line of each of three loops.
    #[tactic(auto, using(crate::proofs::Judging::ring_ends))]
    pub fn ring(&self, polygon: usize, first: usize) -> &'a [[i64; 2]]
        requires inside { polygon < length self.now.counts.now }
        requires points_fit { sum self.now.counts.now ≡ length self.now.points.now }
        requires starts_here { first ≡ sum (take polygon self.now.counts.now) }
        ensures points { result.now ≡ ring_at self.now.counts.now self.now.points.now polygon }
        ensures next { first + length result.now ≡ sum (take (polygon + 1) self.now.counts.now) }
        ensures next_fits { first + length result.now < 2 ^ 63 }
    {
        let points = self.points;
        let end = first + self.counts[polygon] as usize;
        &points[first..end]
    }

    /// Sheet resistance and ring of each polygon: the refusal of the lowest polygon that has one.
    pub fn judge(&self) -> Result<(), Refusal>
        requires sheets_fit { length self.now.sheets.now ≡ length self.now.counts.now }
        requires points_fit { sum self.now.counts.now ≡ length self.now.points.now }
        ensures { (o : Said) → fault result o
            ≡ judge_from self.now.sheets.now self.now.counts.now self.now.points.now 0 (length self.now.counts.now) o }
    {
        let mut at = 0;
        for (p, sheet) in self.sheets.iter().enumerate() {
            let ring = self.ring(p, at);
            judge_one(p, *sheet, ring)?;
            at += ring.len();
        }
        Ok(())
    }
}
