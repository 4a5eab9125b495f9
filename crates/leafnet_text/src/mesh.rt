//! From a board to its balanced table: roots, the record's splits, balance.
ghost use Rattle.std.specs.Prelude.{◌≡◌, ◌∷◌, IfOk, OnOk};
ghost use Rattle.refusals.specs.Said.{accepted};
ghost use Rattle.table.specs.Refine.{refined_said};
ghost use Rattle.table.specs.Rows.{head_values};
ghost use Rattle.build.specs.Says.{built_said};
ghost use Rattle.leafnet_text.specs.Held.{given_of};
ghost use Rattle.leafnet_text.specs.Refining.{refine_all_says, refine_all_row};
ghost use Rattle.leafnet_text.specs.Growing.{roots_say, roots_head, roots_row};
ghost use Rattle.leafnet_text.specs.Growing.{balanced_row, balanced_head, balance_splits};

use crate::input::Board;
use crate::rooms::TABLE;
use build::outlines::Outlines;
use even::{Evening, balance};
use refusals::Refusal;
use table::Head;
use table::refine::refine;

/// A balanced table, and how many splits balance made.
#[derive(Clone, Copy)]
pub struct Mesh {
    pub row: [i64; TABLE],
    pub head: Head,
    pub splits: usize,
}

// The roots of a board, into a table that has nothing else.
fn make_roots(board: &Board, row: &mut [i64; TABLE]) -> Result<Head, Refusal>
    ensures says { built_said result ≡ roots_say (given_of board.now) }
    ensures head { IfOk result (λ head. head ≡ roots_head (given_of board.now)) }
    ensures row_after { OnOk result (row.new ≡ roots_row (given_of board.now)) }
{
    let outlines = Outlines {
        layers: board.layers(),
        components: board.components(),
        sheets: board.sheets(),
        counts: board.counts(),
        points: board.points(),
    };
    build::build(board.settings(), board.list(), &outlines, row)
}

// Splits the leaf of each id in order. The first refusal ends it, and what was split before that stays split.
fn refine_all(row: &mut [i64], head: Head, ids: &[u64]) -> Result<Head, Refusal>
    ensures says { refined_said result ≡ refine_all_says row.old head ids.now }
    ensures row_after { row.new ≡ refine_all_row row.old head ids.now }
{
    let mut latest = head;
    for id in ids {
        latest = refine(row, latest, *id as usize)?;
    }
    Ok(latest)
}

impl Mesh {
    ghost use Rattle.leafnet_text.specs.Output.{Prints, board_says, mesh_says, table_says};

    /// The mesh of a board.
    pub fn of_board(board: &Board) -> Result<Mesh, Refusal>
        ensures head { IfOk result (λ m. m.head ≡ balanced_head (given_of board.now)) }
        ensures row { IfOk result (λ m. m.row ≡ balanced_row (given_of board.now)) }
        ensures splits { IfOk result (λ m. m.splits ≡ balance_splits (given_of board.now)) }

        // Refused as its roots, its splits or balance are, whatever is said of its net.
        ensures answer { Prints result (λ m. accepted (m.splits ∷ head_values m.head))
            (mesh_says (given_of board.now)) }
        ensures says { Prints result (λ m. table_says (given_of board.now) m.row m.head m.splits)
            (board_says (given_of board.now)) }
    {
        let mut row = [0i64; TABLE];
        let roots = make_roots(board, &mut row)?;
        let refined = refine_all(&mut row, roots, board.splits())?;
        let Evening { splits, head } = balance(&mut row, refined)?;
        Ok(Mesh { row, head, splits })
    }
}
