//! The walk that judges a record: each field is read in byte order, and nothing is kept but the settings and the
//! counts. The first refusal ends the walk, so no reader is used again behind one.

ghost use Rattle.fields.specs.Cursor.{Reads};
ghost use Rattle.fields.specs.Codec.{times};
ghost use Rattle.record.specs.Board.{settings, entry, point, polygon, layer_list, polygon_list, split_list};
ghost use Rattle.record.specs.Board.{body, board};
ghost use Rattle.record.specs.Walks.{ReadsAll, ReadsSome, ReadsPolygon, ReadsPolygons, ReadsBoard, Answers};

use crate::board::{Counts, Entry, Limits, Point, Read, Settings, Version};
use crate::parts::{read_coordinate, read_layer, read_level};
use fields::reader::Reader;
use refusals::Refusal;
use refusals::limits::{SHEET_HIGH_BITS, SHEET_LOW_BITS};

/// How many polygons were walked, and how many points they have together.
#[derive(Clone, Copy)]
pub struct Walked {
    pub polygons: usize,
    pub points: usize,
}

fn read_settings(reader: &mut Reader<'_>, limits: Limits) -> Result<Settings, Refusal>
    ensures { Reads result reader.new ((settings limits).reading reader.old) }
{
    let level = read_level(reader, limits.max_level);
    let Ok(level) = level else {
        return Err(level.unwrap_err());
    };
    let cap = reader.read_u16_within(1, limits.cap);
    let Ok(cap) = cap else {
        return Err(cap.unwrap_err());
    };
    let target = reader.read_u64_within(1, limits.cell);
    let Ok(target) = target else {
        return Err(target.unwrap_err());
    };
    Ok(Settings {
        level,
        cap: u64::from(cap),
        target,
    })
}

#[inline]
fn read_entry(reader: &mut Reader<'_>, limits: Limits, last: Option<u16>) -> Result<Entry, Refusal>
    ensures { Reads result reader.new ((entry limits last).reading reader.old) }
{
    let layer = read_layer(reader, last);
    let Ok(layer) = layer else {
        return Err(layer.unwrap_err());
    };
    let cell = reader.read_u64_within(0, limits.cell);
    let Ok(cell) = cell else {
        return Err(cell.unwrap_err());
    };
    Ok(Entry { layer, cell })
}

#[inline]
fn read_point(reader: &mut Reader<'_>) -> Result<Point, Refusal>
    ensures { Reads result reader.new (point.reading reader.old) }
{
    let x = read_coordinate(reader);
    let Ok(x) = x else {
        return Err(x.unwrap_err());
    };
    let y = read_coordinate(reader);
    let Ok(y) = y else {
        return Err(y.unwrap_err());
    };
    Ok(Point { x, y })
}

/// How many entries the layer list has.
fn read_layers(reader: &mut Reader<'_>, limits: Limits) -> Result<usize, Refusal>
    ensures { ReadsSome result reader.new ((layer_list limits).reading reader.old) }
{
    let count = reader.read_u16_within(0, limits.layers);
    let Ok(count) = count else {
        return Err(count.unwrap_err());
    };
    let count = usize::from(count);
    let mut last = None;
    for _ in 0..count {
        let entry = read_entry(reader, limits, last)?;
        last = Some(entry.layer);
    }
    Ok(count)
}

/// The points of a ring.
fn read_ring(reader: &mut Reader<'_>, count: u16) -> Result<(), Refusal>
    ensures { ReadsAll result reader.new (times point count reader.old) }
{
    for _ in 0..count {
        read_point(reader)?;
    }
    Ok(())
}

/// How many points a polygon has.
#[tactic(auto, unfolding(crate::specs::Board::polygon))]
fn read_polygon(reader: &mut Reader<'_>, limits: Limits) -> Result<u16, Refusal>
    ensures { ReadsPolygon result reader.new ((polygon limits).reading reader.old) }
{
    let Some(_layer) = reader.read_u16() else {
        return Err(Refusal::WrongLength(reader.offset()));
    };
    let Some(_component) = reader.read_u32() else {
        return Err(Refusal::WrongLength(reader.offset()));
    };
    let sheet = reader.read_u64_within(SHEET_LOW_BITS, SHEET_HIGH_BITS);
    let Ok(_sheet) = sheet else {
        return Err(sheet.unwrap_err());
    };
    let points = reader.read_u16_within(0, limits.ring_points);
    let Ok(points) = points else {
        return Err(points.unwrap_err());
    };
    read_ring(reader, points)?;
    Ok(points)
}

/// How many polygons there are, and how many points they have together.
fn read_polygons(reader: &mut Reader<'_>, limits: Limits) -> Result<Walked, Refusal>
    ensures { ReadsPolygons result reader.new ((polygon_list limits).reading reader.old) }
{
    let count = reader.read_u16_within(0, limits.polygons);
    let Ok(count) = count else {
        return Err(count.unwrap_err());
    };
    let count = usize::from(count);
    let mut points: usize = 0;
    for _ in 0..count {
        points += usize::from(read_polygon(reader, limits)?);
    }
    Ok(Walked {
        polygons: count,
        points,
    })
}

/// How many splits there are.
fn read_splits(reader: &mut Reader<'_>) -> Result<usize, Refusal>
    ensures { ReadsSome result reader.new (split_list.reading reader.old) }
{
    let count = reader.read_u16_within(0, u16::MAX);
    let Ok(count) = count else {
        return Err(count.unwrap_err());
    };
    let count = usize::from(count);
    for _ in 0..count {
        let Some(_id) = reader.read_u32() else {
            return Err(Refusal::WrongLength(reader.offset()));
        };
    }
    Ok(count)
}

/// All that follows the length.
#[tactic(auto, unfolding(crate::specs::Board::body))]
fn read_body(reader: &mut Reader<'_>, limits: Limits) -> Result<Read, Refusal>
    ensures { ReadsBoard result reader.new ((body limits).reading reader.old) }
{
    let settings = read_settings(reader, limits)?;
    let layers = read_layers(reader, limits)?;
    let walked = read_polygons(reader, limits)?;
    let splits = read_splits(reader)?;
    Ok(Read {
        settings,
        counts: Counts {
            layers,
            polygons: walked.polygons,
            points: walked.points,
            splits,
        },
    })
}

/// A whole record.
#[tactic(auto, unfolding(crate::specs::Board::board))]
pub fn walk(bytes: &[u8]) -> Result<Read, Refusal>
    ensures { Answers result (board bytes.now) }
{
    let mut reader = Reader::new(bytes);
    let Some(byte) = reader.read_u8() else {
        return Err(Refusal::WrongLength(reader.offset()));
    };
    let version = Version::try_from(byte)?;
    let at = reader.offset();
    let Some(length) = reader.read_u32() else {
        return Err(Refusal::WrongLength(at));
    };
    if length as usize != reader.left() {
        return Err(Refusal::WrongLength(at));
    }
    let limits = version.limits();
    let read = read_body(&mut reader, limits)?;
    if reader.left() != 0 {
        return Err(Refusal::WrongLength(reader.offset()));
    }
    Ok(read)
}
