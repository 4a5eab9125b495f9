// The places on the leaves as nodes: numbered by one sort, and written.
ghost use Rattle.std.specs.Prelude.{◌≡◌, ◌<◌, ◌≤◌, map, drop, length};
ghost use Rattle.net_rows.specs.Nodes.{in_ticks};
ghost use Rattle.refusals.specs.Said.{written};
ghost use Rattle.net.specs.Net.{nth};
ghost use Rattle.net.specs.First.{rank, rank_in, Firsts};
ghost use Rattle.net.specs.Flat.{place_x, place_y};
ghost use Rattle.net.specs.Laws.{IsWithin, widest};
ghost use Rattle.places.specs.Leaves.{leaf_at, box_of, IsSound};
ghost use Rattle.places.specs.Places.{leaves_in, places_in, place_at, place_entry, place_count, corner_count};
ghost use Rattle.places.specs.Places.{firsts, node_numbers, nodes_in};

use crate::{Leaf, Leaves};
use net_rows::{MeshNode, Node};
use sorted::firsts::write_firsts;
use sorted::{Entries, Span, sort_entries_within};

/// How many corners a leaf has, and how many places with the middles of its sides.
pub const CORNERS_A_LEAF: usize = 4;

pub const PLACES_A_LEAF: usize = 8;

/// Layer, component, x and y of the node at a place, and the place's number.
pub type PlaceEntry = [u64; 5];

impl Leaf {
    // One of a leaf's eight places: the corners SW, SE, NE, NW, and the middles of its sides S, N, W, E.
    fn place(self, s: usize) -> (u64, u64)
        requires { IsWithin widest (box_of self) }
        ensures x { result.0 ≡ place_x (box_of self) s }
        ensures y { result.1 ≡ place_y (box_of self) s }
    {
        let middle_x = (self.x0 + self.x1) / 2;
        let middle_y = (self.y0 + self.y1) / 2;
        match s {
            0 => (self.x0, self.y0),
            1 => (self.x1, self.y0),
            2 => (self.x1, self.y1),
            3 => (self.x0, self.y1),
            4 => (middle_x, self.y0),
            5 => (middle_x, self.y1),
            6 => (self.x0, middle_y),
            _ => (self.x1, middle_y),
        }
    }
}

impl Leaves<'_> {
    /// How many corners there are, four a leaf: the places in front.
    pub fn corner_count(&self) -> usize
        ensures { result ≡ corner_count self.now }
    {
        CORNERS_A_LEAF * self.entries.len()
    }

    /// How many places there are: four corners and the middles of four sides a leaf.
    pub fn place_count(&self) -> usize
        ensures { result ≡ place_count self.now }
    {
        PLACES_A_LEAF * self.entries.len()
    }

    /// Leaf v. Internal: it stands in the row.
    pub fn leaf(&self, v: usize) -> Leaf
        requires { v < length self.now.entries.now }
        ensures entry { result ≡ leaf_at self.now.entries.now v }
        ensures sound { IsSound (length self.now.polygons.layers.now) result }
    {
        let [polygon, x0, y0, x1, y1] = self.entries[v];
        Leaf {
            polygon: polygon as usize,
            x0,
            y0,
            x1,
            y1,
        }
    }

    // One of the eight places of leaf v.
    fn place_at(&self, v: usize, s: usize) -> MeshNode
        requires { v < length self.now.entries.now }
        ensures { result ≡ place_at (leaves_in self.now) v s }
    {
        let leaf = self.leaf(v);
        let (x, y) = leaf.place(s);
        MeshNode {
            layer: self.polygons.layers[leaf.polygon],
            component: self.polygons.components[leaf.polygon],
            x,
            y,
        }
    }

    /// The node at a place: four corners a leaf, and behind all corners four middles a leaf. Internal: it is one of
    /// these.
    pub fn place(&self, i: usize) -> MeshNode
        requires { i < place_count self.now }
        ensures { result ≡ nth (places_in self.now) i }
    {
        let corners = self.corner_count();
        if i < corners {
            self.place_at(i / 4, i % 4)
        } else {
            let middle = i - corners;
            self.place_at(middle / 4, middle % 4 + 4)
        }
    }

    // The spans of the columns of the places' entries, by leaf: a middle lies between two corners.
    fn spans(&self) -> [Span; 5] {
        let mut layer = Span::EMPTY;
        let mut component = Span::EMPTY;
        let mut x = Span::EMPTY;
        let mut y = Span::EMPTY;
        for v in 0..self.entries.len() {
            let leaf = self.leaf(v);
            layer = layer.and(u64::from(self.polygons.layers[leaf.polygon]));
            component = component.and(u64::from(self.polygons.components[leaf.polygon]));
            x = x.and(leaf.x0).and(leaf.x1);
            y = y.and(leaf.y0).and(leaf.y1);
        }
        [layer, component, x, y, Span::below(self.place_count())]
    }

    /// Numbers the places: the number of each corner's node, and of each middle the first place that is the same node.
    /// Returns how many nodes the corners are. The entries and their keys are scratch. Internal: the rows have room.
    pub fn number_places(
        &self,
        numbers: &mut [u64],
        middles: &mut [u64],
        keys: &mut [u64],
        entries: &mut [PlaceEntry],
    ) -> usize
        requires a_number_each { length numbers.old ≡ corner_count self.now }
        requires a_place_each { length middles.old ≡ corner_count self.now }
        requires a_key_each { length keys.old ≡ place_count self.now }
        requires an_entry_each { length entries.old ≡ place_count self.now }
        ensures numbers { numbers.new ≡ node_numbers (places_in self.now) (corner_count self.now) }
        ensures middles { middles.new ≡ drop (corner_count self.now) (firsts (places_in self.now)) }
        ensures count { result ≡ rank (firsts (places_in self.now)) (corner_count self.now) }
    {
        sort_entries_within(self, &self.spans(), keys, entries);
        // The keys have served.
        write_firsts(self, entries, keys);
        let corners = self.corner_count();
        numbers.copy_from_slice(&keys[..corners]);
        middles.copy_from_slice(&keys[corners..]);
        number_firsts(numbers)
    }

    /// The nodes in the order of their numbers: a corner is a new node if its number is the next one. Internal: the
    /// corners are numbered, and the row has room.
    #[tactic(auto, unfolding(net::specs::First::rank, net::specs::First::news))]
    pub fn write_nodes(&self, numbers: &[u64], nodes: &mut [Node])
        requires numbered { numbers.now ≡ node_numbers (places_in self.now) (corner_count self.now) }
        requires room { corner_count self.now ≤ length nodes.old }
        ensures { nodes.new ≡ written (map in_ticks (nodes_in self.now)) nodes.old }
    {
        let mut count = 0;
        for (i, number) in numbers.iter().enumerate() {
            if *number == count as u64 {
                nodes[count] = self.place(i).in_ticks();
                count += 1;
            }
        }
    }
}

impl Entries<5> for Leaves<'_> {
    ghost count = { place_count };

    ghost entry = { λ b i. place_entry (places_in b) i };

    fn entry(&self, i: usize) -> PlaceEntry {
        let node = self.place(i);
        [
            u64::from(node.layer),
            u64::from(node.component),
            node.x,
            node.y,
            i as u64,
        ]
    }
}

// First places become the numbers of their nodes: how many places before the first one are their own first. Returns how
// many are. By index: a number is read at another place of the row that is written.
#[tactic(auto, unfolding(net::specs::First::rank_in))]
fn number_firsts(row: &mut [u64]) -> usize
    requires { Firsts row.old }
    ensures numbers { row.new ≡ map (rank_in row.old) row.old }
    ensures count { result ≡ rank_in row.old (length row.old) }
{
    let mut count = 0;
    for i in 0..row.len() {
        let first = row[i] as usize;
        if first == i {
            row[i] = count as u64;
            count += 1;
        } else {
            row[i] = row[first];
        }
    }
    count
}
