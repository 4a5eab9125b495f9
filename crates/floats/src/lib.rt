//! Fractions in binary64: the ranges of the rules.
#![tactic(auto)]

ghost use Rattle.std.specs.Prelude.{◌≡◌};
ghost use Rattle.floats.specs.Fractions.{in_sheet, in_potential};

use refusals::limits::{POTENTIAL, SHEET_HIGH, SHEET_LOW};

/// Whether a sheet resistance is in range. A NaN is not.
pub fn sheet_in_range(r: f64) -> bool
    ensures { result ≡ in_sheet r }
{
    (r >= SHEET_LOW) & (r <= SHEET_HIGH)
}

/// Whether a potential is in range. A NaN is not.
pub fn potential_in_range(u: f64) -> bool
    ensures { result ≡ in_potential u }
{
    (u >= -POTENTIAL) & (u <= POTENTIAL)
}
