//! Base sides judged and roots counted before anything is written. Rings and settings have been judged.
ghost use Rattle.std.specs.Prelude.{◌≡◌, ◌+◌, ◌*◌, ◌≤◌, length};
ghost use Rattle.refusals.specs.Limits.{max_cap, max_slots};
ghost use Rattle.strips.specs.Strips.{strips_of};
ghost use Rattle.build.specs.Board.{board_of};
ghost use Rattle.build.specs.Steps.{Cuts, Surveyed, Tallied, more_of};

use crate::grid::{Cut, Cutter};
use crate::judged::Judged;
use refusals::Refusal;
use strips::walk::{Ready, WorkRoom};

// A strip's cells on top of a count. A count that is past the slots already stays, so that none is too large for 64
// bits.
fn more(sum: u64, slots: u64, g: Cut) -> u64
    requires within_cap { Cuts g }
    requires slots_fit { slots ≤ max_slots }
    requires sum_fits { sum ≤ max_slots + max_cap * max_cap }
    ensures sum { result ≡ more_of slots sum (g.ny * g.nx) }
    ensures fits { result ≤ max_slots + max_cap * max_cap }
{
    if slots < sum {
        return sum;
    }
    sum + g.ny * g.nx
}

/// The roots of a ring on top of a count, which stops once it is past the slots; None where a side is uneven.
pub fn tally_strips(ring: &Ready<'_>, cutter: Cutter, slots: u64, before: u64) -> Option<u64>
    requires slots_fit { slots ≤ max_slots }
    requires count_fits { before ≤ max_slots + max_cap * max_cap }
    ensures { Tallied cutter.unit cutter.cap cutter.cell slots before (strips_of ring.now.points.now) result }
{
    let mut sum = before;
    for strip in ring.strips() {
        let cut = cutter.cut_of(strip);
        if !cutter.is_even(strip, cut) {
            return None;
        }
        sum = more(sum, slots, cut);
    }
    Some(sum)
}

/// How many roots a board has, as far as one more than the slots or a few more; or the first polygon with an uneven
/// side.
pub fn survey(board: &Judged<'_>, room: &mut WorkRoom, slots: u64) -> Result<u64, Refusal>
    requires { slots ≤ max_slots }
    ensures { Surveyed (board_of board.now.settings board.now.list.now board.now.outlines) slots result }
{
    let outlines = board.outlines;
    let mut sum = 0;
    let mut at = 0;
    for (p, layer) in outlines.layers.iter().enumerate() {
        let points = outlines.ring(p, at);
        let ring = room.ready(points);
        let cutter = board.cutter(*layer);
        sum = tally_strips(&ring, cutter, slots, sum).ok_or(Refusal::UnevenCell(p))?;
        at += points.len();
    }
    Ok(sum)
}
