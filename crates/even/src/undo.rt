//! Splits taken back, for want of room.
ghost use Rattle.std.specs.Prelude.{◌≡◌, ◌*◌, ◌^◌, ◌<◌, ◌≤◌, length};
ghost use Rattle.even.specs.Undo.{undone_at, undone};

use table::slots::NO_CELL;

#[tactic(auto, unfolding(crate::specs::Undo::undone_at))]
fn undone_at(n: usize, j: usize, z: i64) -> i64
    requires { n * 8 < 2 ^ 63 }
    ensures { result ≡ undone_at n j z }
{
    if n * 8 <= j {
        0
    } else if (j % 8 == 6) & (n as i64 <= z) {
        NO_CELL
    } else {
        z
    }
}

/// Takes back every split since the row had n cells, number by number.
pub fn undo(row: &mut [i64], n: usize)
    requires { n * 8 ≤ length row.old }
    ensures { row.new ≡ undone n row.old }
{
    for (j, z) in row.iter_mut().enumerate() {
        *z = undone_at(n, j, *z);
    }
}
