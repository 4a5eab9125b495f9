//! The first cell that has an edge as a side: a sorted row of all sides in place of a map.
ghost use Rattle.std.specs.Prelude.{◌≡◌, ◌*◌, List, length, IsSorted};
ghost use Rattle.std.specs.Ordering.{nat_cmp};
ghost use Rattle.std.specs.Cmp.Lexicographic.{slice_cmp};
ghost use Rattle.net.specs.Net.{NetCell};
ghost use Rattle.weights.specs.Sides.{Sided, FirstCellIs};

use crate::axes::Entry;
use crate::lent::BareNet;
use sorted::{Entries, Span, sort_entries_within};

// The entries of the cells' sides, four to a cell.
#[derive(Clone, Copy)]
struct SideEntries<'a> {
    net: &'a BareNet<'a>,
}

impl Entries<4> for SideEntries<'_> {
    ghost use Rattle.weights.specs.Sides.{side_entry};

    ghost count = { λ s. 4 * length s.net.now.cells.now };

    ghost entry = { λ s i. side_entry s.net.now.cells.now i };

    fn entry(&self, i: usize) -> Entry {
        let cell = i / 4;
        let side = i % 4;
        let corners = self.net.corners(cell);
        let a = corners[side] as u64;
        let b = corners[(side + 1) % 4] as u64;
        [a.min(b), a.max(b), cell as u64, side as u64]
    }
}

/// The sides of the cells in order.
pub fn sort_sides(net: &BareNet, keys: &mut [u64], row: &mut [Entry])
    requires a_key_each { length keys.old ≡ 4 * length net.now.cells.now }
    requires an_entry_each { length row.old ≡ 4 * length net.now.cells.now }
    ensures { Sided net.now.cells.now row.new }
{
    let nodes = Span::below(net.nodes.len());
    let cells = Span::below(net.cells.len());
    let spans = [nodes, nodes, cells, Span::below(4)];
    sort_entries_within(&SideEntries { net }, &spans, keys, row);
}

/// The first cell that has two nodes as the ends of a side.
pub fn first_cell(row: &[Entry], a: usize, b: usize) -> Option<usize>
    requires { IsSorted (slice_cmp nat_cmp) row.now }
    ensures { (cells : List NetCell) → Sided cells row.now → FirstCellIs cells a b result }
{
    let from = a as u64;
    let to = b as u64;
    let [_, _, cell, _] = *sorted::runs::first(row, &[from.min(to), from.max(to)])?;
    Some(cell as usize)
}
