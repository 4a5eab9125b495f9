//! Contact of two rectangles: the border that they share, for a caller with signed coordinates.
ghost use Rattle.std.specs.Prelude.{◌≡◌};
ghost use Rattle.cell.specs.Cells.{root_of};
ghost use Rattle.cell.specs.Ticks.{off};
ghost use Rattle.cell.specs.Contact.{sound_rect, contact_said, contact_says};

use crate::Cell;
use crate::border::Border;
use crate::ticks::{in_range, offset};
use refusals::Refusal;

/// A rectangle in signed ticks.
#[derive(Clone, Copy, Debug, PartialEq, Eq)]
pub struct Rect {
    pub x0: i64,
    pub y0: i64,
    pub x1: i64,
    pub y1: i64,
}

impl Rect {
    // All four coordinates are in range and both sides positive.
    #[tactic(auto, unfolding(crate::specs::Contact::sound_rect))]
    fn is_sound(self) -> bool
        ensures { result ≡ sound_rect self }
    {
        in_range(self.x0)
            & in_range(self.y0)
            & in_range(self.x1)
            & in_range(self.y1)
            & (self.x0 < self.x1)
            & (self.y0 < self.y1)
    }

    // The rectangle as a cell. Only its box counts here.
    fn as_cell(self) -> Cell
        ensures { result ≡ root_of (off self.x0) (off self.y0) (off self.x1) (off self.y1) 0 }
    {
        Cell::root(
            offset(self.x0),
            offset(self.y0),
            offset(self.x1),
            offset(self.y1),
            0,
        )
    }
}

/// On which side of a the two rectangles share an edge, and how long it is; refusal 3 for a coordinate out of range or
/// a side that isn't positive.
#[tactic(auto, unfolding(crate::specs::Contact::contact_says))]
pub fn between(a: Rect, b: Rect) -> Result<Option<Border>, Refusal>
    ensures { contact_said result ≡ contact_says a b }
{
    if !(a.is_sound() & b.is_sound()) {
        return Err(Refusal::OutOfRange(0));
    }
    Ok(a.as_cell().border(b.as_cell()))
}
