//! The parts of a record, written one behind the other. All of this is internal: each call asks that there is room.

ghost use Rattle.std.specs.Prelude.{◌≡◌, ◌++◌, ◌+◌, ◌*◌, true, length};
ghost use Rattle.std.specs.List.{flat_map};
ghost use Rattle.std.specs.Int.{bytes_high_first};
ghost use Rattle.fields.specs.Written.{Writes, HasRoom};
ghost use Rattle.record.specs.Puts.{entry_bytes, point_bytes, head_bytes, settings_bytes};
ghost use Rattle.record.specs.Puts.{layers_bytes, polygons_bytes, splits_bytes, lists_bytes};
ghost use Rattle.record.specs.Puts.{polygons_size, lists_size};
ghost use Rattle.record.specs.Lent.{lent_rows};
ghost use Rattle.record.specs.Writing.{entry_of, point_of, ring_of, sheet_bits, add_up};

use crate::board::Settings;
use crate::rows::BoardRows;
use fields::writer::Writer;

#[tactic(auto, using(fields::proofs::Stores::bytes_then))]
fn put_entry(writer: &mut Writer<'_>, entry: [u64; 2])
    requires { HasRoom 10 writer.old }
    ensures { Writes 10 (entry_bytes (entry_of entry)) writer.old writer.new }
{
    let [layer, cell] = entry;
    writer.put(2, layer);
    writer.put(8, cell);
}

/// The number of entries, and the entries.
#[tactic(auto, using(crate::proofs::Turns::entries_put))]
pub fn put_layers(writer: &mut Writer<'_>, row: &[[u64; 2]])
    requires { HasRoom (2 + 10 * length row.now) writer.old }
    ensures { Writes (2 + 10 * length row.now) (layers_bytes row.now) writer.old writer.new }
{
    writer.put(2, row.len() as u64);
    for entry in row {
        put_entry(writer, *entry);
    }
}

#[tactic(auto, using(fields::proofs::Stores::bytes_then))]
fn put_point(writer: &mut Writer<'_>, point: [i64; 2])
    requires { HasRoom 16 writer.old }
    ensures { Writes 16 (point_bytes (point_of point)) writer.old writer.new }
{
    let [x, y] = point;
    writer.put(8, x.cast_unsigned());
    writer.put(8, y.cast_unsigned());
}

#[tactic(auto, using(crate::proofs::Turns::ring_put))]
fn put_ring(writer: &mut Writer<'_>, row: &[[i64; 2]])
    requires { HasRoom (16 * length row.now) writer.old }
    ensures { Writes (16 * length row.now) (flat_map point_bytes (ring_of row.now)) writer.old writer.new }
{
    for point in row {
        put_point(writer, *point);
    }
}

#[tactic(auto, using(crate::proofs::Stores::eq_self))]
fn sheet_bits(r: f64) -> u64
    ensures { result ≡ sheet_bits r }
{
    if r.is_nan() { 0 } else { r.to_bits() }
}

/// A polygon but for its points: layer, component, r_sheet and point count.
#[tactic(auto, using(fields::proofs::Stores::bytes_then))]
fn put_head(writer: &mut Writer<'_>, head: [u64; 3], sheet: u64)
    requires { HasRoom 16 writer.old }
    ensures { Writes 16 (head_bytes head sheet) writer.old writer.new }
{
    let [layer, component, count] = head;
    writer.put(2, layer);
    writer.put(4, component);
    writer.put(8, sheet);
    writer.put(2, count);
}

/// The number of polygons, and the polygons, each with the points that its count takes from those that are left.
pub fn put_polygons(writer: &mut Writer<'_>, rows: &BoardRows<'_>)
    requires same_len { length rows.now.polygons.now ≡ length rows.now.sheets.now }
    requires counted { add_up rows.now.polygons.now (length rows.now.points.now) ≡ true }
    requires room { HasRoom (polygons_size (lent_rows rows.now)) writer.old }
    ensures { Writes (polygons_size (lent_rows rows.now)) (polygons_bytes (lent_rows rows.now)) writer.old writer.new }
{
    writer.put(2, rows.polygons.len() as u64);
    let mut left = rows.points;
    for (head, sheet) in rows.polygons.iter().zip(rows.sheets) {
        put_head(writer, *head, sheet_bits(*sheet));
        let (ring, others) = left.split_at(head[2] as usize);
        put_ring(writer, ring);
        left = others;
    }
}

/// The number of splits, and the splits.
#[tactic(auto, using(crate::proofs::Stores::splits_put))]
pub fn put_splits(writer: &mut Writer<'_>, row: &[u64])
    requires { HasRoom (2 + 4 * length row.now) writer.old }
    ensures { Writes (2 + 4 * length row.now) (splits_bytes row.now) writer.old writer.new }
{
    writer.put(2, row.len() as u64);
    for id in row {
        writer.put(4, *id);
    }
}

/// The first fields, with the length of all that follows it.
#[tactic(auto, using(fields::proofs::Stores::bytes_then))]
pub fn put_settings(writer: &mut Writer<'_>, rest: u64, settings: Settings)
    requires { HasRoom 16 writer.old }
    ensures { Writes 16 (bytes_high_first 1 1 ++ (bytes_high_first 4 rest ++ settings_bytes settings))
        writer.old writer.new }
{
    writer.put(1, 1);
    writer.put(4, rest);
    writer.put(1, settings.level);
    writer.put(2, settings.cap);
    writer.put(8, settings.target);
}

/// The three lists.
pub fn put_lists(writer: &mut Writer<'_>, rows: &BoardRows<'_>)
    requires same_len { length rows.now.polygons.now ≡ length rows.now.sheets.now }
    requires counted { add_up rows.now.polygons.now (length rows.now.points.now) ≡ true }
    requires room { HasRoom (lists_size (lent_rows rows.now)) writer.old }
    ensures { Writes (lists_size (lent_rows rows.now)) (lists_bytes (lent_rows rows.now)) writer.old writer.new }
{
    put_layers(writer, rows.layers);
    put_polygons(writer, rows);
    put_splits(writer, rows.splits);
}
