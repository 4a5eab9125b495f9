//! The sides of the leaves, eight slots a leaf: a side in halves where a node so far stands in its middle, and the
//! whole side twice where none does.
ghost use Rattle.std.specs.Prelude.{◌≡◌, ◌+◌, ◌*◌, ◌-◌, ◌^◌, ◌<◌, ◌≤◌, length};
ghost use Rattle.places.specs.Places.{corner_count};

use cell::border::Side;
use net_rows::{Corners, Edge, NetCell};
use places::Leaves;
use places::nodes::CORNERS_A_LEAF;

/// A half of a leaf's side.
#[derive(Clone, Copy)]
pub struct Slot {
    pub leaf: usize,
    pub side: Side,
    pub second: bool,
}

/// The leaves, with their corners and the middles of their sides numbered.
#[derive(Clone, Copy)]
pub struct Sides<'a> {
    pub leaves: Leaves<'a>,
    /// The numbers of the nodes at corners, four a leaf: SW, SE, NE, NW.
    pub numbers: &'a [u64],
    /// The first places of middles, four a leaf: S, N, W, E.
    pub middles: &'a [u64],
    ghost a_number_each: { length numbers.now ≡ corner_count leaves },
    ghost a_place_each: { length middles.now ≡ corner_count leaves },
}

impl Slot {
    ghost use Rattle.bare_net.specs.Sides.{slot_of, from_corner, to_corner};

    /// How many a leaf has.
    pub const A_LEAF: usize = 8;

    pub fn of(j: usize) -> Slot
        ensures { result ≡ slot_of j }
    {
        let side = match j % Slot::A_LEAF / 2 {
            0 => Side::South,
            1 => Side::North,
            2 => Side::West,
            _ => Side::East,
        };
        Slot {
            leaf: j / Slot::A_LEAF,
            side,
            second: j % 2 == 1,
        }
    }

    // The corners at which its side begins and ends, of SW, SE, NE and NW.
    fn corners(self) -> (usize, usize)
        ensures value { result ≡ (from_corner self.side, to_corner self.side) }
        ensures from_low { result.0 < 4 }
        ensures to_low { result.1 < 4 }
    {
        match self.side {
            Side::South => (0, 1),
            Side::North => (3, 2),
            Side::West => (0, 3),
            Side::East => (1, 2),
        }
    }
}

impl Sides<'_> {
    ghost use Rattle.places.specs.Leaves.{leaf_at, leaf_of};
    ghost use Rattle.bare_net.specs.Sides.{leaf_in, corner_in, middle_in, node_so_far, repeats, resistance};
    ghost use Rattle.bare_net.specs.Sides.{index_of, edge_at, cell_at};

    pub fn polygon(&self, v: usize) -> usize
        requires { v < length self.now.leaves.entries.now }
        ensures value { result ≡ (leaf_in self.now v).piece }
        ensures has_sheet { result < length self.now.leaves.sheets.now }
    {
        self.leaves.entries[v][0] as usize
    }

    fn corner(&self, v: usize, corner: usize) -> u64
        requires leaf_there { v < length self.now.leaves.entries.now }
        requires one_of_four { corner < 4 }
        ensures { result ≡ corner_in self.now v corner }
    {
        self.numbers[CORNERS_A_LEAF * v + corner]
    }

    // The place of a side's middle among the four of its leaf.
    fn middle_place(side: Side) -> usize
        ensures value { result ≡ index_of side }
        ensures low { result < 4 }
    {
        match side {
            Side::South => 0,
            Side::North => 1,
            Side::West => 2,
            Side::East => 3,
        }
    }

    // The node in the middle of a side, where one so far stands there: where a leaf of a polygon no later than the
    // leaf's own has a corner there.
    fn middle(&self, v: usize, side: Side) -> Option<u64>
        requires { v < length self.now.leaves.entries.now }
        ensures { result ≡ node_so_far self.now v (middle_in self.now v side) }
    {
        let first = self.middles[CORNERS_A_LEAF * v + Self::middle_place(side)] as usize;
        if first < self.numbers.len() && self.polygon(first / 4) <= self.polygon(v) {
            Some(self.numbers[first])
        } else {
            None
        }
    }

    // Each operation is rounded once.
    fn resistance(&self, v: usize, side: Side) -> f64
        requires { v < length self.now.leaves.entries.now }
        ensures { result ≡ resistance (leaf_in self.now v) side }
    {
        let leaf = self.leaves.leaf(v);
        let sheet = self.leaves.sheets[leaf.polygon];
        let width = leaf.x1 - leaf.x0;
        let height = leaf.y1 - leaf.y0;
        match side {
            Side::South | Side::North => sheet * (width as f64) / (height as f64),
            Side::West | Side::East => sheet * (height as f64) / (width as f64),
        }
    }

    /// Whether a slot has the whole side that the slot before it has.
    pub fn repeats(&self, slot: Slot) -> bool
        requires { slot.leaf < length self.now.leaves.entries.now }
        ensures { result ≡ repeats self.now slot }
    {
        slot.second && self.middle(slot.leaf, slot.side).is_none()
    }

    /// The two nodes of a slot's edge.
    #[tactic(auto, unfolding(crate::specs::Sides::edge_at))]
    pub fn ends(&self, slot: Slot) -> (usize, usize)
        requires { slot.leaf < length self.now.leaves.entries.now }
        ensures { result ≡ ((edge_at self.now slot).from, (edge_at self.now slot).to) }
    {
        let (from, to) = slot.corners();
        let start = self.corner(slot.leaf, from) as usize;
        let end = self.corner(slot.leaf, to) as usize;
        match self.middle(slot.leaf, slot.side) {
            None => (start, end),
            Some(middle) if slot.second => (middle as usize, end),
            Some(middle) => (start, middle as usize),
        }
    }

    #[tactic(auto, unfolding(crate::specs::Sides::edge_at))]
    fn conductance(&self, slot: Slot) -> f64
        requires { slot.leaf < length self.now.leaves.entries.now }
        ensures { result ≡ (edge_at self.now slot).conductance }
    {
        let resistance = self.resistance(slot.leaf, slot.side);
        match self.middle(slot.leaf, slot.side) {
            None => 1.0 / resistance,
            Some(_) => 1.0 / (resistance * 0.5),
        }
    }

    /// The edge of a slot, before the weights.
    pub fn edge(&self, slot: Slot) -> Edge
        requires { slot.leaf < length self.now.leaves.entries.now }
        ensures { result ≡ edge_at self.now slot }
    {
        let (from, to) = self.ends(slot);
        Edge {
            from,
            to,
            conductance: self.conductance(slot),
        }
    }

    /// A leaf's cell.
    pub fn cell(&self, v: usize) -> NetCell
        requires { v < length self.now.leaves.entries.now }
        ensures { result ≡ cell_at self.now v }
    {
        NetCell {
            corners: Corners {
                southwest: self.corner(v, 0) as usize,
                southeast: self.corner(v, 1) as usize,
                northeast: self.corner(v, 2) as usize,
                northwest: self.corner(v, 3) as usize,
            },
            sheet: self.leaves.sheets[self.polygon(v)],
        }
    }
}
