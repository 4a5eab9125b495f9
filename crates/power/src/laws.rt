//! What the contract of `cell_power` comes to. No function here does anything: each promises a law, which its specs
//! state and its proof file proves.

ghost use Rattle.power.specs.Laws.{PowersAreNonNegative, OneAnswer, OneContent};

/// A power is a number, and not below 0.
pub fn powers_are_non_negative()
    ensures { PowersAreNonNegative }
{}

/// The contract permits one outcome.
pub fn one_outcome()
    ensures answer { OneAnswer }
    ensures row { OneContent }
{}
