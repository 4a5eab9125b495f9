//! The lent table of cells: AdaptiveGrid of the Rust over a row that the caller lends.
//!
//! A slot has eight numbers: x0, y0, x1, y1, level, parent, first child, polygon.
#![tactic(auto)]

ghost use Rattle.std.specs.Prelude.{◌≡◌, ◌+◌, ◌^◌, ◌<◌};

pub mod edit;
pub mod formed;
pub mod laws;
pub mod leaves;
pub mod refine;
pub mod slots;
pub mod view;

pub use edit::TableMut;
pub use view::Table;

/// What a table has beside its row: how many cells, how many of them are leaves, and the deepest level. A call that
/// changes a number answers the head anew.
#[derive(Clone, Copy, Debug, PartialEq, Eq)]
pub struct Head {
    pub count: usize,
    pub leaves: usize,
    pub max_level: u64,
}

impl Head {
    ghost use Rattle.table.specs.Rows.{head_of, after_split};

    /// The head of a table of roots alone: each of them is a leaf.
    pub fn of_roots(count: usize, max_level: u64) -> Head
        ensures { result ≡ head_of count count max_level }
    {
        Head {
            count,
            leaves: count,
            max_level,
        }
    }

    /// The head once one of the leaves is split into four.
    pub fn after_split(self) -> Head
        requires count { self.count + 4 < 2 ^ 64 }
        requires leaves { self.leaves + 3 < 2 ^ 64 }
        ensures { result ≡ after_split self }
    {
        Head {
            count: self.count + 4,
            leaves: self.leaves + 3,
            max_level: self.max_level,
        }
    }
}
