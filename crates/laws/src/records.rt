//! A board that is read and then built. No function here does anything: each promises a law, which its specs state and
//! its proof file proves.

ghost use Rattle.laws.specs.Records.{BuildTakesRecords, DefaultLevelCases};

/// Build refuses a board that was read by 4, 5 or 6 alone: never by 3 or 7, whatever its rings and its cells are.
pub fn build_takes_records()
    ensures { BuildTakesRecords }
{}

/// Squares of records with 255 for their level, and with the levels that it means and meant: what the reader and build
/// say of them, computed of the definitions.
pub fn default_level_cases()
    ensures { DefaultLevelCases }
{}
