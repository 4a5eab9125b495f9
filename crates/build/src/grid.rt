//! A strip cut into cells.
ghost use Rattle.std.specs.Prelude.{◌≡◌, ◌+◌, ◌^◌, ◌≤◌, ◌<◌};
ghost use Rattle.refusals.specs.Limits.{coordinate, widest_level};
ghost use Rattle.build.specs.Grid.{held_at, cut_of, even_strip, listed_at, size_of};
ghost use Rattle.build.specs.Steps.{Sizes, Cuts};
ghost use Rattle.strips.specs.Walk.{Sound};

use strips::walk::Strip;

/// Into how many cells a strip is cut each way.
#[derive(Clone, Copy)]
pub struct Cut {
    pub nx: u64,
    pub ny: u64,
}

/// How the strips of a polygon are cut.
#[derive(Clone, Copy)]
pub struct Cutter {
    /// The cell to come as near to as whole cells do.
    pub cell: u64,
    /// The most cells of a strip each way.
    pub cap: u64,
    /// What the sides of cells are to be multiples of.
    pub unit: u64,
    ghost sizes: { Sizes cap cell },
    ghost some_unit: { 0 < unit },
    ghost unit_fits: { unit ≤ 2 ^ (widest_level + 1) },
}

impl Cutter {
    // ceil(length / cell), held within 1 to cap.
    #[tactic(auto, unfolding(crate::specs::Grid::held_at))]
    fn held(self, length: u64) -> u64
        requires { length ≤ coordinate + coordinate }
        ensures { result ≡ held_at self.cap self.cell length }
    {
        let n = length.div_ceil(self.cell);
        n.clamp(1, self.cap)
    }

    /// Into how many cells a strip is cut.
    pub fn cut_of(self, s: Strip) -> Cut
        requires { Sound s }
        ensures { result ≡ cut_of self.cap self.cell s }
    {
        Cut {
            nx: self.held(s.x1 - s.x0),
            ny: self.held(s.y1 - s.y0),
        }
    }

    /// Whether both sides of the strip's cells are multiples of the unit.
    pub fn is_even(self, s: Strip, g: Cut) -> bool
        requires sound { Sound s }
        requires within_cap { Cuts g }
        ensures { result ≡ even_strip self.unit g s }
    {
        ((s.x1 - s.x0) % (g.nx * self.unit) == 0) & ((s.y1 - s.y0) % (g.ny * self.unit) == 0)
    }
}

// The cell that the list gives a layer, if it has the layer. The list has 64 entries at the most, and the definition is
// the same search, of any list.
fn listed(list: &[[u64; 2]], layer: u64) -> Option<u64>
    ensures { result ≡ listed_at list.now layer }
{
    list.iter()
        .find(|entry| entry[0] == layer)
        .map(|entry| entry[1])
}

/// The cell of a layer: the list's, or the target where the list has none, or 0.
pub fn size_of(list: &[[u64; 2]], layer: u64, target: u64) -> u64
    ensures { result ≡ size_of list.now layer target }
{
    match listed(list, layer) {
        None | Some(0) => target,
        Some(cell) => cell,
    }
}
