//! The fields of a board record that are more than a number in a range. Each stays where it stood when it refuses.

ghost use Rattle.std.specs.Prelude.{◌≡◌, OnErr};
ghost use Rattle.fields.specs.Cursor.{Reads};
ghost use Rattle.record.specs.Board.{level, layer, coordinate};

use fields::reader::Reader;
use refusals::Refusal;
use refusals::limits::DEFAULT_LEVEL;

/// The finest level, or the default one.
#[inline]
pub fn read_level(reader: &mut Reader<'_>, most: u8) -> Result<u64, Refusal>
    ensures read { Reads result reader.new ((level most).reading reader.old) }
    ensures refused_stays { OnErr result (reader.new ≡ reader.old) }
{
    let mut ahead = reader.ahead();
    let Some(level) = ahead.read_u8() else {
        return Err(Refusal::WrongLength(reader.offset()));
    };
    let level = match level {
        255 => DEFAULT_LEVEL,
        level if level <= most => u64::from(level),
        _ => return Err(Refusal::OutOfRange(reader.offset())),
    };
    *reader = ahead;
    Ok(level)
}

/// A layer number above the last one.
#[inline]
pub fn read_layer(reader: &mut Reader<'_>, last: Option<u16>) -> Result<u16, Refusal>
    ensures read { Reads result reader.new ((layer last).reading reader.old) }
    ensures refused_stays { OnErr result (reader.new ≡ reader.old) }
{
    let mut ahead = reader.ahead();
    let Some(layer) = ahead.read_u16() else {
        return Err(Refusal::WrongLength(reader.offset()));
    };
    reader.accept(ahead, layer, last.is_none_or(|last| last < layer))
}

/// A coordinate in range.
#[inline]
pub fn read_coordinate(reader: &mut Reader<'_>) -> Result<i64, Refusal>
    ensures read { Reads result reader.new (coordinate.reading reader.old) }
    ensures refused_stays { OnErr result (reader.new ≡ reader.old) }
{
    let mut ahead = reader.ahead();
    let Some(value) = ahead.read_i64() else {
        return Err(Refusal::WrongLength(reader.offset()));
    };
    reader.accept(ahead, value, cell::ticks::in_range(value))
}
