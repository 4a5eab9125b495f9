//! Why leafnet doesn't come to an answer.
use std::io;

/// Which of the two ends failed.
#[derive(Debug, Drop)]
pub enum Failure {
    Reading(io::Error),
    Writing(io::Error),
}
