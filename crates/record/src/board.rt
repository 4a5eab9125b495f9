//! What a record says of a board, and what a version allows.

ghost use Rattle.std.specs.Prelude.{◌≡◌};
ghost use Rattle.record.specs.Board.{version_of, limits_of};

use refusals::Refusal;
use refusals::limits::{CAP, CELL, LAYERS, MAX_LEVEL, POLYGONS, RING_POINTS};

/// The versions that are known.
#[derive(Clone, Copy, Debug, PartialEq, Eq)]
pub enum Version {
    One,
}

/// What a version allows.
#[derive(Clone, Copy, Debug, PartialEq, Eq)]
pub struct Limits {
    pub max_level: u8,
    pub cap: u16,
    /// The target cell, and a layer's cell.
    pub cell: u64,
    pub layers: u16,
    pub polygons: u16,
    pub ring_points: u16,
}

impl TryFrom<u8> for Version {
    type Error = Refusal;

    ghost try_from_gives = { λ byte result. result ≡ version_of byte };

    fn try_from(byte: u8) -> Result<Version, Refusal> {
        match byte {
            1 => Ok(Version::One),
            _ => Err(Refusal::WrongVersion),
        }
    }
}

impl Version {
    pub fn limits(self) -> Limits
        ensures { result ≡ limits_of self }
    {
        match self {
            Version::One => Limits {
                max_level: MAX_LEVEL as u8,
                cap: CAP as u16,
                cell: CELL,
                layers: LAYERS as u16,
                polygons: POLYGONS as u16,
                ring_points: RING_POINTS as u16,
            },
        }
    }
}

/// The settings of a board, as a record has them. build has a type of its own: it knows no default level, which `write`
/// takes as 255, and neither crate stands on the other.
#[derive(Clone, Copy, Debug, PartialEq, Eq)]
pub struct Settings {
    pub level: u64,
    pub cap: u64,
    pub target: u64,
}

/// An entry of the layer list.
#[derive(Clone, Copy, Debug, PartialEq, Eq)]
pub struct Entry {
    pub layer: u16,
    pub cell: u64,
}

/// A point of a ring, in ticks.
#[derive(Clone, Copy, Debug, PartialEq, Eq)]
pub struct Point {
    pub x: i64,
    pub y: i64,
}

/// How many rows a board takes: layer entries, polygons, points of all polygons, splits.
#[derive(Clone, Copy, Debug, PartialEq, Eq)]
pub struct Counts {
    pub layers: usize,
    pub polygons: usize,
    pub points: usize,
    pub splits: usize,
}

/// What reading a record answers, if it is sound.
#[derive(Clone, Copy, Debug, PartialEq, Eq)]
pub struct Read {
    pub settings: Settings,
    pub counts: Counts,
}
