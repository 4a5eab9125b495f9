//! What a link conducts.
ghost use Rattle.std.specs.Prelude.{◌≡◌};
ghost use Rattle.links.specs.Made.{conductance_of};

use std::num::nearest_usize_to_f64;

/// A link, with its resistance in ohms where it has one.
#[derive(Clone, Copy, Debug, PartialEq)]
pub enum Link {
    Contact,
    Via(f64),
    Channel(f64),
}

impl Link {
    /// The conductance, in siemens, of each of so many pairs of nodes that it joins.
    #[tactic(auto, unfolding(crate::specs::Made::conductance_of))]
    pub fn conductance(self, pairs: usize) -> f64
        ensures { result ≡ conductance_of self pairs }
    {
        match self {
            Link::Contact => 1.0,
            Link::Via(resistance) => 1.0 / resistance / nearest_usize_to_f64(pairs),
            Link::Channel(resistance) => 1.0 / resistance,
        }
    }
}
