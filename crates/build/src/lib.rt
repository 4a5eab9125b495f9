//! From polygons to roots: from_polygons of the Rust, in whole ticks and into a lent table.
#![tactic(auto)]

ghost use Rattle.std.specs.Prelude.{◌≡◌, length};
ghost use Rattle.build.specs.Board.{board_of};
ghost use Rattle.build.specs.Says.{built_said, build_says, build_leaves};
ghost use Rattle.build.specs.Steps.{Tabled, IsCut};

use judged::Judged;
use outlines::Outlines;
use refusals::Refusal;
use refusals::limits::RING_POINTS;
use strips::walk::WorkRoom;
use table::Head;

pub mod alone;
pub mod grid;
pub mod judged;
pub mod laws;
pub mod outlines;
pub mod put;
pub mod ranges;
pub mod survey;

/// How the roots are cut.
#[derive(Clone, Copy)]
pub struct Settings {
    pub max_level: u64,
    /// The most cells that a strip is cut into each way.
    pub cap: u64,
    /// The cell that a polygon is cut into unless its layer has one of its own.
    pub target: u64,
}

// The roots of a board that has been judged: 5 and 6, and then the writing.
fn cut_many(board: &Judged<'_>, room: &mut WorkRoom, table: &mut [i64]) -> Result<usize, Refusal>
    requires { Tabled table.old }
    ensures { IsCut (board_of board.now.settings board.now.list.now board.now.outlines) table.old table.new result }
{
    let slots = (table.len() / 8) as u64;
    let n = survey::survey(board, room, slots)?;
    if slots < n {
        return Err(Refusal::NoRoom);
    }
    let k = put::put_all(board, room, table);
    put::clear(table, k * 8);
    Ok(k)
}

// The same, by a shorter way for a board of one polygon.
fn cut(board: &Judged<'_>, table: &mut [i64]) -> Result<usize, Refusal>
    requires { Tabled table.old }
    ensures { IsCut (board_of board.now.settings board.now.list.now board.now.outlines) table.old table.new result }
{
    let mut room = WorkRoom {
        heights: [0; RING_POINTS],
        edges: [0; RING_POINTS],
    };
    if let [layer] = board.outlines.layers {
        let cutter = board.cutter(*layer);
        return alone::cut_alone(board.outlines.points, cutter, &mut room, table);
    }
    cut_many(board, &mut room, table)
}

/// The level-0 table of a board: the roots of every polygon, in order, and zeros behind them. The layer list has layer
/// and cell in each entry.
#[tactic(auto, unfolding(crate::specs::Says::build_says, crate::specs::Says::build_leaves))]
pub fn build(
    settings: Settings,
    list: &[[u64; 2]],
    outlines: &Outlines<'_>,
    table: &mut [i64],
) -> Result<Head, Refusal>
    ensures answer { built_said result
        ≡ build_says (board_of settings list.now outlines.now) outlines.now.components.now outlines.now.sheets.now
        (length table.old) }
    ensures slots { table.new
        ≡ build_leaves (board_of settings list.now outlines.now) outlines.now.components.now outlines.now.sheets.now
        table.old }
{
    if !outlines.fit(table.len()) {
        return Err(Refusal::BadTable);
    }
    if !(ranges::numbers_ok(settings, outlines.counts.len()) & ranges::list_ok(list)) {
        return Err(Refusal::OutOfRange(0));
    }
    outlines.judge()?;
    let board = Judged {
        settings,
        list,
        outlines: *outlines,
    };
    let count = cut(&board, table)?;
    Ok(Head::of_roots(count, settings.max_level))
}
