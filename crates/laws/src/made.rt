//! What the calls that take a net say of one that was made. No function here does anything: each promises a law,
//! which its specs state and its proof file proves.

ghost use Rattle.laws.specs.MadeNets.{MadeNetsAreSound, LinkedNetsAreSound, MadeNodesHaveRoom};
ghost use Rattle.laws.specs.MadeNets.{FittingBoardsPass, BuiltBoardsPass, MiddlesAreHalved, OnePolygonConforms};
ghost use Rattle.laws.specs.MadeNets.{AlikePolygonsMayHang};
ghost use Rattle.laws.specs.MadeNets.{LinkedBoardsPass, LinkedMiddlesAreHalved, LinkedOnePolygonConforms};
ghost use Rattle.laws.specs.Bands.{UnequalBands};

/// No call refuses a made net, and its rows can hold it.
#[tactic(auto, using(crate::proofs::Sound::sound))]
pub fn made_nets_are_sound()
    ensures sound { MadeNetsAreSound }
    ensures linked { LinkedNetsAreSound }
    ensures nodes_have_room { MadeNodesHaveRoom }
{}

/// The by-layer check passes a balanced board whose polygons fit, and the check by place any table of one polygon. By
/// layer no middle lacks a half, whatever the table, where no two polygons share layer and component.
#[tactic(auto, using(crate::proofs::Clean::pass))]
pub fn made_nets_pass()
    ensures board { FittingBoardsPass }
    ensures built { BuiltBoardsPass }
    ensures middles { MiddlesAreHalved }
    ensures one_polygon_by_place { OnePolygonConforms }
{}

/// So they do with links.
#[tactic(auto, using(crate::proofs::Clean::linked_pass))]
pub fn linked_nets_pass()
    ensures board { LinkedBoardsPass }
    ensures middles { LinkedMiddlesAreHalved }
    ensures one_polygon_by_place { LinkedOnePolygonConforms }
{}

/// Two polygons that share layer and component may make a net in which one does.
#[tactic(auto, using(crate::proofs::Alike::alike_hangs))]
pub fn alike_polygons_may_hang()
    ensures { AlikePolygonsMayHang }
{}

/// Where bands of unequal cells meet, a net may have a node that stands on a side and is not joined along it.
#[tactic(auto, using(crate::proofs::Bands::unequal_bands))]
pub fn unequal_bands()
    ensures { UnequalBands }
{}
