//! What the contracts of the exported calls come to. No function here does anything: it promises a law, which its specs
//! state and its proof file proves.

ghost use Rattle.leafmesh.specs.Laws.{OneOutcome, OneBorderOutcome, OneTableOutcome, OneReadOutcome, OneNetOutcome};
ghost use Rattle.leafmesh.specs.Laws.{OneCheckOutcome, BorderOutcomeTells};

/// The contract of an exported call permits one answer.
pub fn one_outcome()
    ensures outcome { OneOutcome }
    ensures border { OneBorderOutcome }
    ensures table { OneTableOutcome }
    ensures read { OneReadOutcome }
    ensures net { OneNetOutcome }
    ensures check { OneCheckOutcome }
{}

/// Nothing that contact says is lost in its outcome: a length of 0 is none, and nothing else.
pub fn border_outcome_tells()
    ensures { BorderOutcomeTells }
{}
