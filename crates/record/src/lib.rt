//! The board record: from bytes to the rows that a caller lends, and back. One description of each field serves both
//! ways.
//!
//! Rows: a layer entry is [layer, cell]; a polygon is [layer, component, point count] with its r_sheet beside it; a
//! point is [x, y], those of all polygons one after another; a split is a cell's id. A row of small arrays can't hold a
//! part of an item, its length is the count of its items, and one store fills one item.
#![tactic(auto)]

pub mod board;
pub mod copy;
pub mod laws;
pub mod parts;
pub mod put;
pub mod reading;
pub mod rows;
pub mod walk;
pub mod writing;

pub use board::{Counts, Read, Settings};
pub use reading::{check, read};
pub use rows::{BoardRows, BoardRowsMut};
pub use writing::write;
