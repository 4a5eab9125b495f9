//! A table to be split further.
ghost use Rattle.std.specs.Prelude.{◌≡◌, ◌+◌, ◌/◌, ◌<◌, ◌≤◌, ◌↔◌, length, IsTrue, None};
ghost use Rattle.refusals.specs.Limits.{widest_level, max_slots};
ghost use Rattle.table.specs.Mesh.{at, split};
ghost use Rattle.table.specs.Refine.{split_row};
ghost use Rattle.table.specs.Rows.{IsTable, after_split};

use crate::Head;
use crate::refine::split_cell;
use crate::view::Table;

/// A well-formed table over a row that is lent to be written.
#[derive(Drop)]
pub struct TableMut<'a> {
    pub row: &'a mut [i64],
    pub head: Head,
    ghost within: { head.count ≤ length row.now / 8 },
    ghost slots: { length row.now / 8 ≤ max_slots },
    ghost range: { head.max_level ≤ widest_level },
    ghost few: { head.leaves ≤ head.count },
    ghost formed: { IsTable row.now head },
}

impl<'a> TableMut<'a> {
    ghost use Rattle.table.specs.Tables.{cells};
    ghost use Rattle.table.specs.TablesMut.{cells_mut};

    /// The row, which the caller has judged by `formed::well_formed`.
    #[tactic(auto, using(crate::proofs::Tables::table_bounds))]
    pub fn new(row: &'a mut [i64], head: Head) -> TableMut<'a>
        requires { IsTable row.old head }
        ensures row { result.row.now ≡ row.old }
        ensures head { result.head ≡ head }
        ensures same_reference { result.row.ghost_name ≡ row.entry.ghost_name }
    {
        TableMut { row, head }
    }

    /// The table to be read.
    pub fn view(&self) -> Table<'_>
        ensures row { result.row.now ≡ self.now.row.now }
        ensures head { result.head ≡ self.now.head }
        ensures cells { cells result ≡ cells_mut self.now }
    {
        Table {
            row: &*self.row,
            head: self.head,
        }
    }

    /// Whether four slots are free.
    pub fn has_room(&self) -> bool
        ensures { IsTrue result ↔ (self.now.head.count + 4 ≤ length self.now.row.now / 8) }
    {
        self.head.count + 4 <= self.row.len() / 8
    }

    /// Splits a leaf above the deepest level, where there is room. Never inlined: a pass over the cells splits few of
    /// them, and its loop would keep more on the stack (balance by 4 to 6 in 100 slower).
    #[inline(never)]
    pub fn split(&mut self, id: usize)
        requires inside { id < self.old.head.count }
        requires leaf { (at (cells_mut self.old) id).kids ≡ None }
        requires finer { (at (cells_mut self.old) id).level < self.old.head.max_level }
        requires room { self.old.head.count + 4 ≤ length self.old.row.now / 8 }
        ensures cells { cells_mut self.new ≡ split (cells_mut self.old) id }
        ensures row { self.new.row.now ≡ split_row self.old.row.now self.old.head.count id }
        ensures head { self.new.head ≡ after_split self.old.head }
        ensures row_length { length self.new.row.now ≡ length self.old.row.now }
        ensures same_reference { self.new.row.ghost_name ≡ self.old.row.ghost_name }
    {
        split_cell(self.row, self.head.count, id);
        self.head = self.head.after_split();
    }
}
