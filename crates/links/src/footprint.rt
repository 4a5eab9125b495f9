//! What a footprint covers.
ghost use Rattle.std.specs.Prelude.{◌≡◌, ◌≤◌, length, All, IsTrue};
ghost use Rattle.refusals.specs.Said.{written};
ghost use Rattle.links.specs.Made.{has_area, covers, inside};
ghost use Rattle.links.specs.Lists.{AreKnown, numbers_of};

use crate::entries::NodeEntry;
use crate::rows::Footprint;
use net_rows::Node;

impl Footprint {
    /// Whether it is no point.
    pub fn has_area(&self) -> bool
        ensures { result ≡ has_area self.now }
    {
        (0 < self.half_width) & (0 < self.half_height)
    }

    /// Whether a node lies in a footprint that has area. The border counts. Internal: it has area.
    pub fn covers(&self, node: Node) -> bool
        requires { IsTrue (has_area self.now) }
        ensures { result ≡ covers self.now node }
    {
        (node.x.abs_diff(self.x) <= self.half_width as u64)
            & (node.y.abs_diff(self.y) <= self.half_height as u64)
    }

    /// The nodes inside, where it has area, into the front of a row. Returns how many there are.
    #[tactic(auto, using(crate::proofs::Insides::known_at))]
    pub fn write_inside(&self, nodes: &[Node], candidates: &[NodeEntry], into: &mut [u64]) -> usize
        requires known { AreKnown nodes.now candidates.now }
        requires room { length candidates.now ≤ length into.old }
        ensures count { result ≡ length (inside nodes.now self.now (numbers_of candidates.now)) }
        ensures row { into.new ≡ written (inside nodes.now self.now (numbers_of candidates.now)) into.old }
    {
        if !self.has_area() {
            return 0;
        }
        let mut count = 0;
        for entry in candidates {
            let [.., number] = *entry;
            if self.covers(nodes[number as usize]) {
                into[count] = number;
                count += 1;
            }
        }
        count
    }
}
