//! The rules' boundary cases, P1 to P8, computed of the definitions: specs/Eight.antt has the cases, proofs/ the one
//! check.

ghost use Rattle.laws.specs.Eight.{BoundaryCases};

/// P1 to P8 come out of the definitions as the rules give them.
#[tactic(auto, using(crate::proofs::Eight::eight))]
pub fn boundary_cases()
    ensures { BoundaryCases }
{}
