//! What the public calls answer to a few plain inputs: examples for what no clause says, each once. The crates below
//! have no tests of their own, so that none is proved twice. A file holds the calls of one crate.
#![tactic(auto)]

#[cfg(test)]
mod cells;
#[cfg(test)]
mod checking;
#[cfg(test)]
mod contacts;
#[cfg(test)]
mod cutting;
#[cfg(test)]
mod evening;
#[cfg(test)]
mod judging;
#[cfg(test)]
mod powers;
#[cfg(test)]
mod programs;
#[cfg(test)]
mod readers;
#[cfg(test)]
mod records;
#[cfg(test)]
mod refused;
#[cfg(test)]
mod rooting;
#[cfg(test)]
mod sorting;
#[cfg(test)]
mod tables;
