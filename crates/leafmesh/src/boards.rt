//! Rings, boards and board records.
ghost use Rattle.std.specs.Prelude.{◌≡◌, length};
ghost use Rattle.strips.specs.Said.{strips_says, strips_leave};
ghost use Rattle.build.specs.Board.{board};
ghost use Rattle.build.specs.Says.{build_says, build_leaves};
ghost use Rattle.record.specs.Rows.{rows_of};
ghost use Rattle.record.specs.Reading.{read_said, read_says, read_leaves};
ghost use Rattle.record.specs.Writing.{write_says, write_leaves};
ghost use Rattle.leafmesh.specs.Outcome.{outcome_of, head_outcome_of, cut_settings, board_settings};
ghost use Rattle.leafmesh.specs.Reads.{read_outcome_of};

use crate::{Outcome, TableOutcome};
use build::outlines::Outlines;
use record::{BoardRows, BoardRowsMut, Read, Settings};
use refusals::Refusal;

/// What a read answers: number and place as in an Outcome, then the settings and how many rows the board takes.
#[repr(C)]
#[derive(Clone, Copy)]
pub struct ReadOutcome {
    pub number: u64,
    pub place: u64,
    pub level: u64,
    pub cap: u64,
    pub target: u64,
    pub layers: u64,
    pub polygons: u64,
    pub points: u64,
    pub splits: u64,
}

impl From<Result<Read, Refusal>> for ReadOutcome {
    ghost from_gives = { λ answer outcome. outcome ≡ read_outcome_of (read_said answer) };

    fn from(answer: Result<Read, Refusal>) -> ReadOutcome {
        match answer {
            Ok(read) => ReadOutcome {
                number: 0,
                place: 0,
                level: read.settings.level,
                cap: read.settings.cap,
                target: read.settings.target,
                layers: read.counts.layers as u64,
                polygons: read.counts.polygons as u64,
                points: read.counts.points as u64,
                splits: read.counts.splits as u64,
            },
            Err(why) => {
                let code = why.code();
                ReadOutcome {
                    number: code.number,
                    place: code.place as u64,
                    level: 0,
                    cap: 0,
                    target: 0,
                    layers: 0,
                    polygons: 0,
                    points: 0,
                    splits: 0,
                }
            }
        }
    }
}

/// The strips of a ring: value is how many.
#[unsafe(no_mangle)]
pub extern "C" fn leafmesh_strips(points: &[[i64; 2]], out: &mut [[i64; 4]]) -> Outcome
    ensures value { result ≡ outcome_of (strips_says points.now (length out.old)) }
    ensures out_after { out.new ≡ strips_leave points.now out.old }
{
    Outcome::from(strips::strips(points, out))
}

/// The roots of a board: splits is 0.
#[unsafe(no_mangle)]
pub extern "C" fn leafmesh_build(
    max_level: u64,
    cap: u64,
    target: u64,
    list: &[[u64; 2]],
    layers: &[u16],
    components: &[u32],
    sheets: &[f64],
    counts: &[u64],
    points: &[[i64; 2]],
    table: &mut [i64],
) -> TableOutcome
    ensures value { result
        ≡ head_outcome_of (build_says (board
        (cut_settings max_level cap target) list.now layers.now counts.now points.now) components.now sheets.now
        (length table.old)) }
    ensures table_after { table.new
        ≡ build_leaves (board
        (cut_settings max_level cap target) list.now layers.now counts.now points.now) components.now sheets.now
        table.old }
{
    let s = build::Settings {
        max_level,
        cap,
        target,
    };
    let outlines = Outlines {
        layers,
        components,
        sheets,
        counts,
        points,
    };
    TableOutcome::from(build::build(s, list, &outlines, table))
}

/// A board record into lent rows.
#[unsafe(no_mangle)]
pub extern "C" fn leafmesh_read(
    bytes: &[u8],
    layers: &mut [[u64; 2]],
    polygons: &mut [[u64; 3]],
    sheets: &mut [f64],
    points: &mut [[i64; 2]],
    splits: &mut [u64],
) -> ReadOutcome
    ensures value { result
        ≡ read_outcome_of (read_says bytes.now (rows_of layers.old polygons.old sheets.old points.old splits.old)) }
    ensures rows_after { rows_of layers.new polygons.new sheets.new points.new splits.new
        ≡ read_leaves bytes.now (rows_of layers.old polygons.old sheets.old points.old splits.old) }
{
    let rows = BoardRowsMut {
        layers,
        polygons,
        sheets,
        points,
        splits,
    };
    ReadOutcome::from(record::read(bytes, rows))
}

/// Lent rows as a board record: value is its length in bytes.
#[unsafe(no_mangle)]
pub extern "C" fn leafmesh_write(
    level: u64,
    cap: u64,
    target: u64,
    layers: &[[u64; 2]],
    polygons: &[[u64; 3]],
    sheets: &[f64],
    points: &[[i64; 2]],
    splits: &[u64],
    out: &mut [u8],
) -> Outcome
    ensures value { result
        ≡ outcome_of (write_says (rows_of layers.now polygons.now sheets.now points.now splits.now) (length out.old)) }
    ensures out_after { out.new
        ≡ write_leaves (board_settings level cap target)
        (rows_of layers.now polygons.now sheets.now points.now splits.now) out.old }
{
    let settings = Settings { level, cap, target };
    let rows = BoardRows {
        layers,
        polygons,
        sheets,
        points,
        splits,
    };
    Outcome::from(record::write(settings, &rows, out))
}
