//! A board's rows written as a record, for people and tests: what `read` reads back.

ghost use Rattle.std.specs.Prelude.{◌≡◌, length};
ghost use Rattle.record.specs.Lent.{lent_rows};
ghost use Rattle.record.specs.Writing.{write_said, write_says, write_leaves};

use crate::board::Settings;
use crate::put;
use crate::rows::BoardRows;
use fields::writer::Writer;
use refusals::Refusal;

/// The record of a board, from the start of `out`, and how many bytes it took. Counts are judged, since they shape
/// the record; a value that its field does not hold is written by its low bytes, and a NaN for r_sheet as 0. For every
/// board in range the record reads as the board again (`laws::read_write`).
pub fn write(settings: Settings, rows: &BoardRows<'_>, out: &mut [u8]) -> Result<usize, Refusal>
    ensures number_and_place { write_said result ≡ write_says (lent_rows rows.now) (length out.old) }
    ensures left { out.new ≡ write_leaves settings (lent_rows rows.now) out.old }
{
    if !rows.is_shaped() {
        return Err(Refusal::BadTable);
    }
    if !rows.is_countable() {
        return Err(Refusal::OutOfRange(0));
    }
    let size = 22
        + 10 * rows.layers.len()
        + 16 * rows.polygons.len()
        + 16 * rows.points.len()
        + 4 * rows.splits.len();
    if out.len() < size {
        return Err(Refusal::NoRoom);
    }
    let mut writer = Writer::new(out);
    put::put_settings(&mut writer, (size - 5) as u64, settings);
    put::put_lists(&mut writer, rows);
    Ok(writer.at)
}
