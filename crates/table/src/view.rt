//! A table to be read: a lent row and its head, judged once.
ghost use Rattle.std.specs.Prelude.{◌≡◌, ◌/◌, ◌<◌, ◌≤◌, ◌↔◌, length, IsSome, IfSome};
ghost use Rattle.std.specs.Iterator.{YieldsFirst, item_count};
ghost use Rattle.refusals.specs.Limits.{widest_level, max_slots};
ghost use Rattle.table.specs.Slots.{cell_at};
ghost use Rattle.table.specs.Mesh.{at, is_leaf, opt};
ghost use Rattle.table.specs.Formed.{WellFormed};
ghost use Rattle.table.specs.Rows.{IsTable};

use crate::Head;
use crate::formed::well_formed;
use crate::leaves::append_order;
use crate::slots::{first_at, level_at, parent_at, poly_at};
use cell::Cell;

/// A well-formed table. The cells, the leaves and all that is asked of them need no test again.
#[derive(Clone, Copy)]
pub struct Table<'a> {
    pub row: &'a [i64],
    pub head: Head,
    ghost within: { head.count ≤ length row.now / 8 },
    ghost slots: { length row.now / 8 ≤ max_slots },
    ghost range: { head.max_level ≤ widest_level },
    ghost few: { head.leaves ≤ head.count },
    ghost formed: { IsTable row.now head },
}

// The id that stands in a slot, or none.
fn named(id: u64) -> Option<usize>
    ensures { result ≡ opt id }
{
    (id != Cell::NO_CELL).then_some(id as usize)
}

impl<'a> Table<'a> {
    ghost use Rattle.refusals.specs.Said.{written};
    ghost use Rattle.table.specs.Tables.{cells, leaves, order, leaves_left};

    /// The row as a table; none where it is not well formed.
    #[tactic(auto, using(crate::proofs::Tables::table_bounds))]
    pub fn new(row: &'a [i64], head: Head) -> Option<Table<'a>>
        ensures table { IsSome result ↔ IsTable row.now head }
        ensures formed { IsSome result ↔ WellFormed row.now head }
        ensures same_row { IfSome result (λ t. t.row.now ≡ row.now) }
        ensures same_head { IfSome result (λ t. t.head ≡ head) }
    {
        if well_formed(row, head) {
            Some(Table { row, head })
        } else {
            None
        }
    }

    pub fn level(&self, id: usize) -> u64
        requires { id < self.now.head.count }
        ensures { result ≡ (at (cells self.now) id).level }
    {
        level_at(self.row, id)
    }

    pub fn polygon(&self, id: usize) -> u64
        requires { id < self.now.head.count }
        ensures { result ≡ (at (cells self.now) id).polygon }
    {
        poly_at(self.row, id)
    }

    /// The cell that was split into this one and three others; none at a root.
    #[tactic(auto, using(crate::proofs::Cells::at_table))]
    pub fn parent(&self, id: usize) -> Option<usize>
        requires { id < self.now.head.count }
        ensures { result ≡ (at (cells self.now) id).parent }
    {
        named(parent_at(self.row, id))
    }

    /// The first of the cell's four children; none at a leaf.
    #[tactic(auto, using(crate::proofs::Cells::at_table))]
    pub fn kids(&self, id: usize) -> Option<usize>
        requires { id < self.now.head.count }
        ensures { result ≡ (at (cells self.now) id).kids }
    {
        named(first_at(self.row, id))
    }

    pub fn is_leaf(&self, id: usize) -> bool
        requires { id < self.now.head.count }
        ensures { result ≡ is_leaf (cells self.now) id }
    {
        self.kids(id).is_none()
    }

    /// The leaves by id.
    pub fn leaves(&self) -> Leaves<'a>
        ensures { leaves_left result ≡ leaves self.now }
    {
        Leaves {
            table: *self,
            next: 0,
        }
    }

    pub fn leaf_count(&self) -> usize
        ensures { result ≡ length (leaves self.now) }
    {
        self.head.leaves
    }

    /// The leaves by id, into the front of a row that has room for them.
    pub fn list_leaves(&self, out: &mut [u64])
        requires { length (leaves self.now) ≤ length out.old }
        ensures { out.new ≡ written (leaves self.now) out.old }
    {
        for (place, id) in self.leaves().enumerate() {
            out[place] = id as u64;
        }
    }

    /// The leaves by polygon, then id, into the front of a row that has room for them.
    pub fn list_order(&self, out: &mut [u64])
        requires { length (leaves self.now) ≤ length out.old }
        ensures { out.new ≡ written (order self.now) out.old }
    {
        append_order(self, out);
    }
}

/// The ids of a table's leaves, rising.
#[derive(Clone, Copy)]
pub struct Leaves<'a> {
    table: Table<'a>,
    next: usize,
}

impl Iterator for Leaves<'_> {
    ghost use Rattle.table.specs.Tables.{leaves_left};

    type Item = usize;

    ghost next_gives = { YieldsFirst leaves_left };

    ghost remaining = { item_count leaves_left };

    fn next(&mut self) -> Option<usize> {
        while self.next < self.table.head.count {
            let id = self.next;
            self.next += 1;
            if self.table.is_leaf(id) {
                return Some(id);
            }
        }
        None
    }
}
