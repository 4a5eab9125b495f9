//! The lists of a record that was judged, copied to rows that have room for them: each field is read where it stands,
//! and nothing is asked of it again. All of this is internal.

ghost use Rattle.std.specs.Prelude.{◌≡◌, ◌+◌, ◌≤◌, length, IsOk, IsOkAnd};
ghost use Rattle.fields.specs.Codec.{times};
ghost use Rattle.record.specs.declared.board.Version.TheVariants.{One};
ghost use Rattle.record.specs.Board.{point, limits_of, layer_list, polygon_list, split_list};
ghost use Rattle.record.specs.Rows.{entry_row, point_row};
ghost use Rattle.record.specs.Walks.{Copies, HasRoom, HasPolygonRoom, PolygonsStored, CopiesPolygons};

use fields::reader::Reader;

/// The layer list.
pub fn copy_layers(reader: &mut Reader<'_>, row: &mut [[u64; 2]])
    requires { IsOkAnd ((layer_list (limits_of One)).reading reader.old) (HasRoom row.old) }
    ensures { Copies entry_row row.old 0 row.new reader.new ((layer_list (limits_of One)).reading reader.old) }
{
    let count = usize::from(reader.known_u16());
    for entry in &mut row[..count] {
        let layer = reader.known_u16();
        let cell = reader.known_u64();
        *entry = [u64::from(layer), cell];
    }
}

/// The points of a ring, as many as the row takes.
fn copy_ring(reader: &mut Reader<'_>, row: &mut [[i64; 2]])
    requires { IsOk (times point (length row.old) reader.old) }
    ensures { Copies point_row row.old 0 row.new reader.new (times point (length row.old) reader.old) }
{
    for place in row {
        let x = reader.known_i64();
        let y = reader.known_i64();
        *place = [x, y];
    }
}

/// The polygons, with their points one after another.
pub fn copy_polygons(
    reader: &mut Reader<'_>,
    heads: &mut [[u64; 3]],
    sheets: &mut [f64],
    points: &mut [[i64; 2]],
)
    requires { IsOkAnd ((polygon_list (limits_of One)).reading reader.old)
        (HasPolygonRoom heads.old sheets.old points.old) }
    ensures { CopiesPolygons (PolygonsStored heads.old heads.new sheets.old sheets.new points.old points.new)
        reader.new ((polygon_list (limits_of One)).reading reader.old) }
{
    let count = usize::from(reader.known_u16());
    let mut first: usize = 0;
    for i in 0..count {
        let layer = reader.known_u16();
        let component = reader.known_u32();
        let bits = reader.known_u64();
        let size = reader.known_u16();
        heads[i] = [u64::from(layer), u64::from(component), u64::from(size)];
        sheets[i] = f64::from_bits(bits);
        let end = first + usize::from(size);
        copy_ring(reader, &mut points[first..end]);
        first = end;
    }
}

/// The splits.
pub fn copy_splits(reader: &mut Reader<'_>, row: &mut [u64])
    requires { IsOkAnd (split_list.reading reader.old) (HasRoom row.old) }
    ensures { Copies (λ id. id) row.old 0 row.new reader.new (split_list.reading reader.old) }
{
    let count = usize::from(reader.known_u16());
    for split in &mut row[..count] {
        *split = u64::from(reader.known_u32());
    }
}
