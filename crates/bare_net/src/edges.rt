//! The rows of edges and cells.
ghost use Rattle.std.specs.Prelude.{◌≡◌, ◌≤◌, length, take};
ghost use Rattle.refusals.specs.Said.{written};
ghost use Rattle.bare_net.specs.Edges.{slot_count, edges_in, cells_in, AreListed};

use crate::parts::{PartEntry, Parts};
use crate::sides::{Sides, Slot};
use net_rows::{Edge, NetCell};

impl Sides<'_> {
    pub fn slot_count(&self) -> usize
        ensures { result ≡ slot_count self.now }
    {
        Slot::A_LEAF * self.leaves.entries.len()
    }

    // The slots into the front of a row, but none that has the whole side that the slot before it has. Returns how many
    // there are: fewer are to be sorted.
    fn list_slots(&self, slots: &mut [u64]) -> usize
        requires room { slot_count self.now ≤ length slots.old }
        ensures few { result ≤ slot_count self.now }
        ensures listed { AreListed self.now (take result slots.new) }
    {
        let mut count = 0;
        for j in 0..self.slot_count() {
            if !self.repeats(Slot::of(j)) {
                slots[count] = j as u64;
                count += 1;
            }
        }
        count
    }

    /// The edges before the weights: the slots that are the first of their polygon and pair. Returns how many there
    /// are. The slots, their entries and their keys are scratch.
    pub fn write_edges(
        &self,
        slots: &mut [u64],
        keys: &mut [u64],
        entries: &mut [PartEntry],
        edges: &mut [Edge],
    ) -> usize
        requires slots_room { slot_count self.now ≤ length slots.old }
        requires keys_room { slot_count self.now ≤ length keys.old }
        requires entries_room { slot_count self.now ≤ length entries.old }
        requires room { slot_count self.now ≤ length edges.old }
        ensures count { result ≡ length (edges_in self.now) }
        ensures row { edges.new ≡ written (edges_in self.now) edges.old }
    {
        let count = self.list_slots(slots);
        let parts = Parts {
            sides: self,
            slots: &slots[..count],
        };
        parts.write_edges(&mut keys[..count], &mut entries[..count], edges)
    }

    /// The cells, one a leaf.
    #[tactic(auto, unfolding(crate::specs::Edges::cells_in))]
    pub fn write_cells(&self, cells: &mut [NetCell])
        requires { length self.now.leaves.entries.now ≤ length cells.old }
        ensures { cells.new ≡ written (cells_in self.now) cells.old }
    {
        // By index: over the cells themselves, the library's call takes 16 bytes more of stack.
        for v in 0..self.leaves.entries.len() {
            cells[v] = self.cell(v);
        }
    }
}
