//! Coordinates: signed ticks in what a caller lends, offset by 2^36 in a cell; and lengths in metres.
ghost use Rattle.std.specs.Prelude.{◌≡◌, ◌<◌, ◌^◌};
ghost use Rattle.cell.specs.Ticks.{in_range, off, on, metres_of};

use refusals::limits::COORDINATE;

/// The highest coordinate of a cell: 2^37.
pub const TOP: u64 = 2 * COORDINATE as u64;

/// Whether a coordinate is in the rules' range.
pub fn in_range(z: i64) -> bool
    ensures { result ≡ in_range z }
{
    (-COORDINATE <= z) & (z <= COORDINATE)
}

/// A coordinate as a cell holds it. One out of range is taken for the nearest in range, so that nothing is asked of a
/// caller.
pub fn offset(z: i64) -> u64
    ensures { result ≡ off z }
{
    if z <= -COORDINATE {
        return 0;
    }
    if COORDINATE <= z {
        return TOP;
    }
    (z + COORDINATE) as u64
}

/// The way back.
pub fn ticks(n: u64) -> i64
    ensures { result ≡ on n }
{
    if TOP < n {
        return COORDINATE;
    }
    n as i64 - COORDINATE
}

/// A length in metres, exactly. Every length of a cell is below 2^53.
// A signed number becomes a fraction in one instruction, an unsigned one in several.
pub fn metres(length: u64) -> f64
    requires { length < 2 ^ 53 }
    ensures { result ≡ metres_of length }
{
    ((length as i64) as f64) * crate::Cell::TICK
}
