//! One ring alone, which is made ready once.
ghost use Rattle.std.specs.Prelude.{◌≡◌, ◌/◌, ◌≤◌, length};
ghost use Rattle.refusals.specs.Limits.{max_points};
ghost use Rattle.refusals.specs.Said.{if_accepted};
ghost use Rattle.strips.specs.Strips.{strips_of};
ghost use Rattle.build.specs.Steps.{Tabled, roots_said, alone_says, alone_leaves};

use crate::grid::Cutter;
use crate::{put, survey};
use refusals::Refusal;
use strips::walk::WorkRoom;

/// The roots of one ring, in a table of their own: 5 and 6, and then the writing.
pub fn cut_alone(
    points: &[[i64; 2]],
    cutter: Cutter,
    room: &mut WorkRoom,
    table: &mut [i64],
) -> Result<usize, Refusal>
    requires short { length points.now ≤ max_points }
    requires shape { Tabled table.old }
    ensures answer { roots_said result
        ≡ alone_says cutter.unit cutter.cap cutter.cell (strips_of points.now) (length table.old / 8) }
    ensures slots { let left = alone_leaves cutter.cap cutter.cell (strips_of points.now) (length table.old) in
        table.new ≡ if_accepted (roots_said result) left table.old }
{
    let slots = (table.len() / 8) as u64;
    let ring = room.ready(points);
    let n = survey::tally_strips(&ring, cutter, slots, 0).ok_or(Refusal::UnevenCell(0))?;
    if slots < n {
        return Err(Refusal::NoRoom);
    }
    let k = put::put_strips(&ring, cutter, 0, table, 0);
    put::clear(table, k * 8);
    Ok(k)
}
