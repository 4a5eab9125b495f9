//! From an outline to its net. No function here does anything: each promises a law, which its specs state and its proof
//! file proves.

ghost use Rattle.laws.specs.Built.{BuiltIsOneStrip, BuiltIsOneGrid, BuiltFits, BuiltHangsNot, BuiltJoinsSides};

/// The roots that build leaves of a polygon of one strip, and of a ring in pitch, are one grid, and so they fit.
#[tactic(auto, using(crate::proofs::BuiltGrids::grids))]
pub fn roots_fit()
    ensures one_strip { BuiltIsOneStrip }
    ensures in_pitch { BuiltIsOneGrid }
    ensures fit { BuiltFits }
{}

/// Of roots that fit, refined in any way and balanced, no node hangs, and the sides of the leaves are joined.
pub fn no_node_hangs()
    ensures balanced { BuiltHangsNot }
    ensures joined { BuiltJoinsSides }
{}
