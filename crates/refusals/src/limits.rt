//! The rules' table of ranges for the code. specs/Limits.antt has it for the contracts, and the law
//! `laws::ranges_of_the_rules` holds each constant to its number there.

/// A coordinate lies within this many ticks of 0, either way: 2^36.
pub const COORDINATE: i64 = 1 << 36;

/// The deepest level.
pub const MAX_LEVEL: u64 = 12;

/// The most cells of a strip, either way.
pub const CAP: u64 = 256;

/// The target cell, and a layer's cell: 2^36.
pub const CELL: u64 = 1 << 36;

/// The entries of a layer list.
pub const LAYERS: usize = 64;

pub const POLYGONS: usize = 256;

/// The points of one polygon.
pub const RING_POINTS: usize = 1024;

/// The slots of a table.
pub const SLOTS: usize = 16384;

/// Sheet resistance, 2^-40 to 2^40, as binary64 bits and as numbers.
pub const SHEET_LOW_BITS: u64 = 0x3d70_0000_0000_0000;

pub const SHEET_HIGH_BITS: u64 = 0x4270_0000_0000_0000;

pub const SHEET_LOW: f64 = 9.094947017729282e-13;

pub const SHEET_HIGH: f64 = 1099511627776.0;

/// A potential's largest magnitude, 2^20.
pub const POTENTIAL: f64 = 1048576.0;

/// What 255 for max_level means in a board record.
pub const DEFAULT_LEVEL: u64 = 4;
