//! What holds across crates: no node of a net hangs, also of what build leaves; borders add up to the sides of leaves;
//! what the calls say of a made net; build takes what was read of a record; and the rules' boundary cases. Definitions
//! in specs/, laws in proofs/ and, as contracts, in the modules. There is no code.

#![tactic(auto)]

pub mod borders;
pub mod boundary;
pub mod built;
pub mod hanging;
pub mod made;
pub mod moves;
pub mod orders;
pub mod records;
pub mod samples;
