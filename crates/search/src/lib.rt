//! The leaves that a leaf is to be compared with, found by descending from the roots: a cell that shares an edge with
//! another meets it, and so does every cell that holds it.
#![tactic(auto)]

pub mod around;
pub mod marks;
pub mod roots;

pub use around::Around;
pub use marks::Marks;
pub use roots::Roots;
