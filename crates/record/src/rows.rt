//! The rows that hold a board. They travel together.

ghost use Rattle.std.specs.Prelude.{◌≡◌};
ghost use Rattle.record.specs.Writing.{add_up};

use refusals::limits::{LAYERS, POLYGONS, RING_POINTS};

/// A board in lent rows.
#[derive(Clone, Copy)]
pub struct BoardRows<'a> {
    pub layers: &'a [[u64; 2]],
    pub polygons: &'a [[u64; 3]],
    pub sheets: &'a [f64],
    pub points: &'a [[i64; 2]],
    pub splits: &'a [u64],
}

/// Rows that a board is read to.
#[derive(Drop)]
pub struct BoardRowsMut<'a> {
    pub layers: &'a mut [[u64; 2]],
    pub polygons: &'a mut [[u64; 3]],
    pub sheets: &'a mut [f64],
    pub points: &'a mut [[i64; 2]],
    pub splits: &'a mut [u64],
}

impl BoardRows<'_> {
    ghost use Rattle.record.specs.Lent.{lent_rows};
    ghost use Rattle.record.specs.Writing.{is_shaped, is_countable, size_of};

    /// Whether the rows of polygons belong together: a sheet resistance for each, and as many points as they count.
    pub fn is_shaped(&self) -> bool
        ensures { result ≡ is_shaped (lent_rows self.now) }
    {
        (self.polygons.len() == self.sheets.len()) & add_up(self.polygons, self.points.len())
    }

    /// Whether a record has counts for them.
    pub fn is_countable(&self) -> bool
        ensures { result ≡ is_countable (lent_rows self.now) }
    {
        (self.layers.len() <= LAYERS)
            & ((self.polygons.len() <= POLYGONS)
                & ((self.points.len() <= POLYGONS * RING_POINTS) & (self.splits.len() <= 65535)))
    }
}

/// Whether the point counts add up to so many points. They stand in the polygons' entries, and in a row of their own
/// where build asks the same (`adds_up`).
#[tactic(auto, using(crate::proofs::Turns::add_short, crate::proofs::Turns::add_next, crate::proofs::Turns::add_end))]
fn add_up(polygons: &[[u64; 3]], points: usize) -> bool
    ensures { result ≡ add_up polygons.now points }
{
    let mut left = points;
    for p in polygons {
        let count = p[2] as usize;
        if left < count {
            return false;
        }
        left -= count;
    }
    left == 0
}
