//! What the contracts of the two checks come to. No function here does anything: each promises a law, which its specs
//! state and its proof file proves.

ghost use Rattle.checks.specs.Laws.{OneAnswer, OneContent, MiddleIsEnough, MiddlesAreEnough, NoneMeansJoined};

/// The contracts permit one outcome.
pub fn one_outcome()
    ensures answer { OneAnswer }
    ensures row { OneContent }
{}

/// Where nothing but its middle has a node between the ends of a side, the check by layer finds what a look at the
/// middle alone finds; and so for all the sides of a table.
pub fn middles_are_enough()
    ensures side { MiddleIsEnough }
    ensures table { MiddlesAreEnough }
{}

/// The check by layer finds nothing exactly if each node on a leaf's side, of the leaf's own layer and component, is
/// joined to the points before and after it.
pub fn none_means_joined()
    ensures { NoneMeansJoined }
{}
