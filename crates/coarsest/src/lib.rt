//! Balance and conform: what they end in, as definitions and laws; and the test of one pair of cells that the engines
//! make.
#![tactic(auto)]

ghost use Rattle.std.specs.Prelude.{◌≡◌};
ghost use Rattle.table.specs.Mesh.{mesh_cell};
ghost use Rattle.coarsest.specs.Passes.{due_cells};

pub mod laws;

use cell::Cell;

/// Which of the two evens a table out: `balance` goes from leaf to leaf and splits what is too coarse for it; `conform`
/// splits the leaf itself where it is too coarse for another.
#[derive(Clone, Copy)]
pub enum Engine {
    Balancing,
    Conforming,
}

impl Engine {
    ghost use Rattle.coarsest.specs.Passes.{difference};

    /// By how many levels two leaves that share an edge may differ.
    pub fn difference(self) -> u64
        ensures { result ≡ difference self }
    {
        match self {
            Engine::Balancing => 1,
            Engine::Conforming => 0,
        }
    }
}

/// Whether the leaf b has to be split for the leaf a: a is finer by more than k levels, and they share an edge.
#[tactic(auto, unfolding(cell::specs::Boxes::shares_edge))]
pub fn due(a: Cell, b: Cell, k: u64) -> bool
    ensures { result ≡ due_cells k (mesh_cell a) (mesh_cell b) }
{
    // Most pairs are told by their levels, so the rectangles come last; a difference of levels cannot wrap where a sum
    // could.
    if !(a.is_leaf() & b.is_leaf()) {
        return false;
    }
    if a.level <= b.level {
        return false;
    }
    if a.level - b.level <= k {
        return false;
    }
    a.border(b).is_some()
}
