//! Laws of the definitions that the contracts of this crate stand on.
ghost use Rattle.strips.specs.Laws.{OneOutcome, CrossingsPairUp};

/// The contract of `strips` allows one answer and one row.
pub fn one_outcome()
    ensures { OneOutcome }
{}

/// No crossing of a band is left without a partner.
pub fn crossings_pair_up()
    ensures { CrossingsPairUp }
{}
