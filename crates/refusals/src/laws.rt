//! What the form of every contract of this project comes to, and whose numbers the code's ranges are.
ghost use Rattle.std.specs.Prelude.{◌≡◌, pos};
ghost use Rattle.std.specs.Float.Ieee.{of_bits};
ghost use Rattle.std.specs.Float.{binary64};
ghost use Rattle.refusals.specs.Limits.{coordinate, widest_level, max_cap, max_cell, max_layers, max_polygons};
ghost use Rattle.refusals.specs.Limits.{max_points, max_slots, sheet_low, sheet_high, sheet_low_bits, sheet_high_bits};
ghost use Rattle.refusals.specs.Limits.{peak, default_level};
ghost use Rattle.refusals.specs.Laws.{PermitsOneAnswer};

use crate::limits::{
    CAP, CELL, COORDINATE, DEFAULT_LEVEL, LAYERS, MAX_LEVEL, POLYGONS, POTENTIAL, RING_POINTS,
    SHEET_HIGH, SHEET_HIGH_BITS, SHEET_LOW, SHEET_LOW_BITS, SLOTS,
};

/// One promise, one answer: a contract says what is said of an answer, and two answers of which the same is said are
/// the same. It holds for every kind of answer whose values tell it.
pub fn one_promise_one_answer<T>()
    ensures { PermitsOneAnswer T }
{}

/// The constants of `limits` are the rules' numbers.
pub fn ranges_of_the_rules()
    ensures coordinate { COORDINATE ≡ pos coordinate }
    ensures max_level { MAX_LEVEL ≡ widest_level }
    ensures cap { CAP ≡ max_cap }
    ensures cell { CELL ≡ max_cell }
    ensures layers { LAYERS ≡ max_layers }
    ensures polygons { POLYGONS ≡ max_polygons }
    ensures ring_points { RING_POINTS ≡ max_points }
    ensures slots { SLOTS ≡ max_slots }
    ensures sheet_low { SHEET_LOW ≡ sheet_low }
    ensures sheet_high { SHEET_HIGH ≡ sheet_high }
    ensures sheet_low_bits { SHEET_LOW_BITS ≡ sheet_low_bits }
    ensures sheet_high_bits { SHEET_HIGH_BITS ≡ sheet_high_bits }
    ensures potential { POTENTIAL ≡ peak }
    ensures default_level { DEFAULT_LEVEL ≡ default_level }
{}

/// The bits of the ends of a sheet resistance's range are those of its ends.
pub fn bits_are_the_ends()
    ensures low { of_bits binary64 sheet_low_bits ≡ sheet_low }
    ensures high { of_bits binary64 sheet_high_bits ≡ sheet_high }
{}
