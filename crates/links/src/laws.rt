//! What holds of links, whatever the net and the links are. No function here does anything: each promises a law, which
//! its specs state and its proof file proves.

ghost use Rattle.links.specs.Cases.{CasesAgree};
ghost use Rattle.links.specs.Laws.{NoLinksNoChange, NodesStay, CellsStay, MeshEdgesComeFirst};
ghost use Rattle.links.specs.Laws.{NearestIsTheFirstOfTheLeast};
ghost use Rattle.links.specs.Laws.{LinksConduct, LinkedEdgesConduct};
ghost use Rattle.links.specs.Laws.{ViaLinksAreAlike, PowersOfTwoShareAll, LinksShareNearly};
ghost use Rattle.links.specs.Laws.{ListsHoldNodes, LinksJoinNodes, LinkedEdgesJoinNodes};
ghost use Rattle.links.specs.Laws.{ContactsJoinTheirPolygons, ViasJoinTheirLayers, ChannelsJoinTheirTerminals};

/// The definitions make the links that were worked out by hand.
#[tactic(auto, using(crate::proofs::Cases::cases_agree))]
pub fn cases_agree()
    ensures { CasesAgree }
{}

/// Links come behind the mesh, and change nothing of it.
#[tactic(auto, using(crate::proofs::MeshFirst::behind))]
pub fn links_come_behind()
    ensures none { NoLinksNoChange }
    ensures nodes { NodesStay }
    ensures cells { CellsStay }
    ensures edges { MeshEdgesComeFirst }
{}

/// Of the nodes in a list the first of the nearest is found.
#[tactic(auto, using(crate::proofs::Least::nearest_first))]
pub fn nearest_is_least()
    ensures { NearestIsTheFirstOfTheLeast }
{}

/// A link joins nodes: those of the two polygons, of a via's two layers, of a channel's two components.
#[tactic(auto, using(crate::proofs::Ends::ends))]
pub fn links_join_nodes()
    ensures lists { ListsHoldNodes }
    ensures links { LinksJoinNodes }
    ensures edges { LinkedEdgesJoinNodes }
    ensures contacts { ContactsJoinTheirPolygons }
    ensures vias { ViasJoinTheirLayers }
    ensures channels { ChannelsJoinTheirTerminals }
{}

/// A solver can divide by every conductance of a net with links.
pub fn links_conduct()
    ensures links { LinksConduct }
    ensures edges { LinkedEdgesConduct }
{}

/// What the links of a via carry together is the conductance of the via, but for what rounding takes.
pub fn links_share()
    ensures alike { ViaLinksAreAlike }
    ensures powers_of_two { PowersOfTwoShareAll }
    ensures nearly { LinksShareNearly }
{}
