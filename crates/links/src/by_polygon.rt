//! What links stand on: a net's nodes and cells, its cells by polygon.
ghost use Rattle.std.specs.Prelude.{◌≡◌, ◌<◌, ◌≤◌, length, flat_map, slice_index, slice_index_or, All};
ghost use Rattle.std.specs.List.Sorted.{IsNonDecreasing};
ghost use Rattle.net_rows.specs.Facts.{IsSoundNode, AreKnown};
ghost use Rattle.links.specs.Rows.{corner_numbers, end_of};

use crate::nearest::NodeList;
use net_rows::{NetCell, Node};

/// A net's nodes and cells, before its links.
#[derive(Clone, Copy)]
pub struct MeshNet<'a> {
    pub nodes: &'a [Node],
    pub cells: &'a [NetCell],
    ghost sound: { All IsSoundNode nodes.now },
    ghost known: { All (λ c. AreKnown (length nodes.now) c.corners) cells.now },
}

/// The rows of a net, and where among its cells those of each polygon begin.
#[derive(Clone, Copy)]
pub struct NetByPolygon<'a> {
    pub nodes: &'a [Node],
    pub cells: &'a [NetCell],
    pub starts: &'a [u64],
    ghost sound: { All IsSoundNode nodes.now },
    ghost known: { All (λ c. AreKnown (length nodes.now) c.corners) cells.now },
    ghost rising: { IsNonDecreasing starts.now },
    ghost within: { All (λ start. start ≤ length cells.now) starts.now },
}

/// The nodes at the corners of cells: SW, SE, NE, NW of each.
#[derive(Clone, Copy)]
pub struct CornerList<'a> {
    pub cells: &'a [NetCell],
}

impl<'a> NetByPolygon<'a> {
    ghost use Rattle.std.specs.Prelude.{[]};
    ghost use Rattle.links.specs.Nets.{lists_of};

    // Where a polygon's cells end.
    fn end_of(&self, polygon: usize) -> usize
        requires { polygon < length self.now.starts.now }
        ensures value { result ≡ end_of self.now.cells.now self.now.starts.now polygon }
        ensures behind_start { slice_index self.now.starts.now polygon ≤ result }
        ensures within { result ≤ length self.now.cells.now }
    {
        let next = polygon + 1;
        if next < self.starts.len() {
            self.starts[next] as usize
        } else {
            self.cells.len()
        }
    }

    // The cells of a polygon; none past the last.
    fn cells_of(&self, polygon: usize) -> &'a [NetCell]
        ensures known { All (λ c. AreKnown (length self.now.nodes.now) c.corners) result.now }
        ensures corners { flat_map corner_numbers result.now ≡ slice_index_or (lists_of self.now) polygon [] }
    {
        if self.starts.len() <= polygon {
            return &[];
        }
        let start = self.starts[polygon] as usize;
        &self.cells[start..self.end_of(polygon)]
    }

    /// The nodes of a polygon; none past the last.
    #[tactic(auto, using(crate::proofs::Parts::corners_known))]
    pub fn corners_of(&self, polygon: usize) -> CornerList<'a>
        ensures known { All (λ i. i < length self.now.nodes.now) (flat_map corner_numbers result.cells.now) }
        ensures corners { flat_map corner_numbers result.cells.now ≡ slice_index_or (lists_of self.now) polygon [] }
    {
        CornerList {
            cells: self.cells_of(polygon),
        }
    }
}

impl NodeList for CornerList<'_> {
    ghost numbers = { λ s. flat_map corner_numbers s.cells.now };

    fn count(&self) -> usize {
        4 * self.cells.len()
    }

    #[tactic(auto, using(crate::proofs::Parts::corner_within))]
    fn number(&self, k: usize) -> usize {
        let corners = self.cells[k / 4].corners;
        match k % 4 {
            0 => corners.southwest,
            1 => corners.southeast,
            2 => corners.northeast,
            _ => corners.northwest,
        }
    }
}
