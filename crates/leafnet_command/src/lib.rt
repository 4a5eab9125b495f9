//! leafnet as a command: from the words of a command line to what stands on standard output and standard error, and the
//! status.
#![tactic(auto)]

pub mod ending;
pub mod files;
pub mod request;
pub mod run;
