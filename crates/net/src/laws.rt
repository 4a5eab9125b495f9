//! What holds of every net, whatever the table and its polygons are. No function here does anything: each promises a
//! law, which its specs state and its proof file proves.

ghost use Rattle.net.specs.Boards.{BoardsAgree};
ghost use Rattle.net.specs.Laws.{AtMostFourNodesALeaf, AtMostEightEdgesALeaf, AtMostOneCellALeaf};
ghost use Rattle.net.specs.Laws.{NodesAreDistinct, EdgesJoinNodes, CellsAreRectangles, NoHalfHangs};
ghost use Rattle.net.specs.Laws.{EdgesConduct, NoConductanceIsNegative};

/// The definitions agree with the original on the stored boards.
#[tactic(auto, using(crate::proofs::Cases::boards_agree))]
pub fn boards_agree()
    ensures { BoardsAgree }
{}

/// The room that the rules ask for is enough.
#[tactic(auto, using(crate::proofs::Every::room))]
pub fn nets_fit()
    ensures nodes { AtMostFourNodesALeaf }
    ensures edges { AtMostEightEdgesALeaf }
    ensures cells { AtMostOneCellALeaf }
{}

/// The rows of a net go together.
#[tactic(auto, using(crate::proofs::Every::sound))]
pub fn nets_are_sound()
    ensures nodes { NodesAreDistinct }
    ensures edges { EdgesJoinNodes }
    ensures cells { CellsAreRectangles }
{}

/// A node at the middle of a leaf's side is joined to both ends.
pub fn no_half_hangs()
    ensures { NoHalfHangs }
{}

/// A solver can divide by every conductance.
pub fn edges_conduct()
    ensures conducting { EdgesConduct }
    ensures proper { NoConductanceIsNegative }
{}
