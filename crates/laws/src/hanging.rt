//! Nodes that don't hang. No function here does anything: each promises a law, which its specs state and its proof file
//! proves.

ghost use Rattle.laws.specs.Hanging.{NoNodeHangs, BalanceHangsNot, ConformMeetsAtEnds, OnePolygonHangsNot};
ghost use Rattle.laws.specs.Joined.{GridFits, ApartBoardsFit, SidesAreJoined, BalanceJoinsSides};
ghost use Rattle.laws.specs.Offsets.{OffsetsAreBound};

/// A node on a leaf's edge is an end of that edge or its middle, and at the middle both halves are edges of the net.
#[tactic(auto, using(crate::proofs::Tables::hangs))]
pub fn no_node_hangs()
    ensures balanced { NoNodeHangs }
    ensures after_balance { BalanceHangsNot }
    ensures after_conform { ConformMeetsAtEnds }
    ensures one_polygon { OnePolygonHangsNot }
{}

/// Roots that are one grid fit, and so do boards of polygons that differ in layer or component.
pub fn roots_fit()
    ensures grid { GridFits }
    ensures apart { ApartBoardsFit }
{}

/// The sides of a leaf are joined from end to end: whole where no node stands at the middle, in halves where one does,
/// and no node stands anywhere else.
pub fn sides_are_joined()
    ensures balanced { SidesAreJoined }
    ensures after_balance { BalanceJoinsSides }
{}

/// Half a width is the limit: where two roots are a quarter of their width apart a node may be loose.
pub fn offsets_are_bound()
    ensures { OffsetsAreBound }
{}
