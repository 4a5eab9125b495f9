//! A record judged whole, and a record read to lent rows.

ghost use Rattle.std.specs.Prelude.{◌≡◌};
ghost use Rattle.record.specs.Board.{board};
ghost use Rattle.record.specs.Lent.{rows_to_fill, rows_left};
ghost use Rattle.record.specs.Reading.{checked, read_said, says, read_says, read_leaves};

use crate::board::Read;
use crate::copy::{copy_layers, copy_polygons, copy_splits};
use crate::rows::BoardRowsMut;
use crate::walk::walk;
use fields::reader::Reader;
use refusals::Refusal;

/// Where the lists of a record begin: behind the version, the length and the settings.
const LISTS: usize = 16;

/// A record judged whole, with nothing kept: its settings and what rows it takes, or its first refusal.
pub fn check(bytes: &[u8]) -> Result<Read, Refusal>
    ensures answer { result ≡ checked (board bytes.now) }
    ensures number_and_place { read_said result ≡ says (board bytes.now) }
{
    walk(bytes)
}

/// A record read to lent rows: all of it, or nothing. The whole record is judged first, then the room, and then it is
/// copied.
pub fn read(bytes: &[u8], rows: BoardRowsMut<'_>) -> Result<Read, Refusal>
    ensures number_and_place { read_said result ≡ read_says bytes.now (rows_to_fill rows.entry) }
    ensures left { rows_left rows.exit ≡ read_leaves bytes.now (rows_to_fill rows.entry) }
{
    let BoardRowsMut {
        layers,
        polygons,
        sheets,
        points,
        splits,
    } = rows;
    let read = check(bytes)?;
    let counts = read.counts;
    let has_room = (counts.layers <= layers.len())
        & ((counts.polygons <= polygons.len())
            & ((counts.polygons <= sheets.len())
                & ((counts.points <= points.len()) & (counts.splits <= splits.len()))));
    if !has_room {
        return Err(Refusal::NoRoom);
    }
    let mut reader = Reader::new(bytes);
    reader.skip(LISTS);
    copy_layers(&mut reader, layers);
    copy_polygons(&mut reader, polygons, sheets, points);
    copy_splits(&mut reader, splits);
    Ok(read)
}
