//! The room that the program has, beside the limits of the rules.
pub use refusals::limits::{LAYERS, POLYGONS};

/// The most bytes of input.
pub const INPUT: usize = 16384;

pub const POINTS: usize = 1024;

pub const SPLITS: usize = 256;

/// A table's numbers: eight for each of 64 slots.
pub const TABLE: usize = 512;

pub const LEAVES: usize = 64;

/// The most nodes and edges of a net: four and eight a leaf.
pub const NODES: usize = 256;

pub const EDGES: usize = 512;

/// The most bytes of each line, with its newline: a number takes 20 at most.
pub const TOTALS_LINE: usize = 137;

pub const LEAF_LINE: usize = 152;

pub const NODE_LINE: usize = 85;

pub const EDGE_LINE: usize = 64;

pub const REFUSED_LINE: usize = 50;

/// The most bytes of a text: the totals and every leaf, node and edge that there is room for.
pub const TEXT: usize = TOTALS_LINE + LEAVES * LEAF_LINE + NODES * NODE_LINE + EDGES * EDGE_LINE;
