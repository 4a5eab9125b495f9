//! The net of a table of leaves: definitions in specs/, laws in proofs/ and, as contracts, in `laws`. The code that
//! makes it stands in the crates above.

#![tactic(auto)]

pub mod laws;
