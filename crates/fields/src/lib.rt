//! What stands in lent bytes, read or written from left to right: one reader, whose refusals name their place, one
//! writer, and one description of a field (`Codec`) for both.
#![tactic(auto)]

pub mod offset;
pub mod reader;
pub mod writer;
