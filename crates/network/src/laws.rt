//! What the contracts of `network` and `edge_rows` come to. No function here does anything: each promises a law, which
//! its specs state and its proof file proves.

ghost use Rattle.network.specs.Laws.{AcceptedEdgesConduct, AcceptedCellsAreRectangles, OneAnswer, OneContent, OneCount};

/// A solver can take every accepted net.
pub fn accepted_nets_conduct()
    ensures edges { AcceptedEdgesConduct }
    ensures cells { AcceptedCellsAreRectangles }
{}

/// The contract permits one outcome, and so does that of `edge_rows`.
pub fn one_outcome()
    ensures answer { OneAnswer }
    ensures rows { OneContent }
    ensures edge_rows { OneCount }
{}
