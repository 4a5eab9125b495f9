// The parts of the sides of which edges are made: slots in a row, by number.
ghost use Rattle.bare_net.specs.Edges.{AreSlots};

use crate::sides::{Sides, Slot};
use net_rows::Edge;
use sorted::firsts::write_firsts;
use sorted::{Entries, Span, sort_entries_within};

/// A row of slots.
#[derive(Clone, Copy)]
pub struct Parts<'a> {
    pub sides: &'a Sides<'a>,
    pub slots: &'a [u64],
    ghost known: { AreSlots sides.now slots.now },
}

/// A part's polygon, its two nodes, the lesser first, and its number.
pub type PartEntry = [u64; 4];

impl Parts<'_> {
    ghost use Rattle.std.specs.Prelude.{◌≡◌, ◌<◌, ◌≤◌, length, slice_index};
    ghost use Rattle.refusals.specs.Said.{written};
    ghost use Rattle.sorted.specs.Firsts.{AreFirsts};
    ghost use Rattle.bare_net.specs.Sides.{slot_of};
    ghost use Rattle.bare_net.specs.Edges.{key_of};
    ghost use Rattle.bare_net.specs.Parts.{part_count, part_of, edges_among};

    fn slot(&self, j: usize) -> Slot
        requires { j < part_count self.now }
        ensures value { result ≡ slot_of (slice_index self.now.slots.now j) }
        ensures leaf_known { result.leaf < length self.now.sides.now.leaves.entries.now }
    {
        Slot::of(self.slots[j] as usize)
    }

    // The spans of the columns of the entries.
    fn spans(&self) -> [Span; 4] {
        let sides = self.sides;
        let polygons = Span::below(sides.leaves.sheets.len());
        let nodes = Span::below(sides.numbers.len());
        [polygons, nodes, nodes, Span::below(self.slots.len())]
    }

    // The parts that are their own first. Returns how many there are.
    fn put_edges(&self, firsts: &[u64], edges: &mut [Edge]) -> usize
        requires a_first_each { length firsts.now ≡ part_count self.now }
        requires are_firsts { AreFirsts (key_of (part_of self.now)) firsts.now }
        requires room { part_count self.now ≤ length edges.old }
        ensures count { result ≡ length (edges_among self.now) }
        ensures row { edges.new ≡ written (edges_among self.now) edges.old }
    {
        let mut count = 0;
        for (j, first) in firsts.iter().enumerate() {
            if *first == j as u64 {
                edges[count] = self.sides.edge(self.slot(j));
                count += 1;
            }
        }
        count
    }

    /// The parts that are the first of their polygon and pair. Returns how many there are. The entries and their keys
    /// are scratch.
    pub fn write_edges(
        &self,
        keys: &mut [u64],
        entries: &mut [PartEntry],
        edges: &mut [Edge],
    ) -> usize
        requires a_key_each { length keys.old ≡ part_count self.now }
        requires an_entry_each { length entries.old ≡ part_count self.now }
        requires room { part_count self.now ≤ length edges.old }
        ensures count { result ≡ length (edges_among self.now) }
        ensures row { edges.new ≡ written (edges_among self.now) edges.old }
    {
        sort_entries_within(self, &self.spans(), keys, entries);
        write_firsts(self, entries, keys);
        self.put_edges(keys, edges)
    }
}

impl Entries<4> for Parts<'_> {
    ghost use Rattle.std.specs.Prelude.{◌++◌, [], ◌∷◌};
    ghost use Rattle.bare_net.specs.Edges.{key_of};
    ghost use Rattle.bare_net.specs.Parts.{part_count, part_of};

    ghost count = { part_count };

    ghost entry = { λ p j. key_of (part_of p) j ++ j ∷ [] };

    fn entry(&self, j: usize) -> PartEntry {
        let slot = self.slot(j);
        let (from, to) = self.sides.ends(slot);
        [
            self.sides.polygon(slot.leaf) as u64,
            from.min(to) as u64,
            from.max(to) as u64,
            j as u64,
        ]
    }
}
