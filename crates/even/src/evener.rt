//! Passes over the leaves of a table until one makes no split.
ghost use Rattle.std.specs.Prelude.{◌≡◌, ℕ, ◌+◌, ◌<◌, ◌≤◌, Some, None, length};
ghost use Rattle.table.specs.Mesh.{at, split};
ghost use Rattle.table.specs.Tables.{cells};
ghost use Rattle.table.specs.TablesMut.{cells_mut};
ghost use Rattle.coarsest.specs.declared.Engine.TheVariants.{Balancing, Conforming};
ghost use Rattle.coarsest.specs.Passes.{pass, evened, difference};
ghost use Rattle.coarsest.specs.Sweep.{row};
ghost use Rattle.search.specs.Roots.{Indexes};
ghost use Rattle.search.specs.Marks.{KeepsMarks};
ghost use Rattle.even.specs.Makes.{Makes};

use coarsest::Engine;
use refusals::Refusal;
use search::marks::Levels;
use search::{Around, Marks, Roots};
use table::{Table, TableMut};

// Splits a leaf, or finds no room for it.
fn split(table: &mut TableMut<'_>, id: usize) -> Result<(), Refusal>
    requires inside { id < table.old.head.count }
    requires leaf { (at (cells_mut table.old) id).kids ≡ None }
    requires finer { (at (cells_mut table.old) id).level < table.old.head.max_level }
    ensures { Makes (split (cells_mut table.old) id) table.old table.new result }
{
    if !table.has_room() {
        return Err(Refusal::NoRoom);
    }
    table.split(id);
    Ok(())
}

/// How a table is evened out: by which engine, with the index of its roots.
#[derive(Clone, Copy)]
pub struct Evener<'a> {
    pub engine: Engine,
    pub roots: &'a Roots,
}

impl Evener<'_> {
    ghost use Rattle.even.specs.Watch.{Reaches, Watched, Settled, Met};

    // Splits each of the first `stop` cells that a is too fine for, in the order of their ids. Never inlined: on boards
    // with a neck that takes up to 15 in 100 off a balance, as the compiler lays out the search by itself.
    #[inline(never)]
    fn split_coarser(&self, table: &mut TableMut<'_>, a: usize, stop: usize) -> Result<(), Refusal>
        requires indexed { Indexes self.now.roots.now (cells_mut table.old) }
        requires stop { stop ≤ table.old.head.count }
        requires own { a < stop }
        ensures { Makes (row Balancing (difference Balancing) (cells_mut table.old) a stop) table.old table.new result }
    {
        let difference = Engine::Balancing.difference();
        let mut from = 0;
        while from < stop {
            let c = Around::new(table.view(), self.roots, a).least_due(difference, from, stop);
            if stop <= c {
                return Ok(());
            }
            split(table, c)?;
            from = c + 1;
        }
        Ok(())
    }

    // a's pairs with the first `stop` cells, of balance. Most leaves are too coarse to ask anybody.
    fn balance_row(&self, table: &mut TableMut<'_>, a: usize, stop: usize) -> Result<(), Refusal>
        requires indexed { Indexes self.now.roots.now (cells_mut table.old) }
        requires stop { stop ≤ table.old.head.count }
        requires own { a < stop }
        ensures { Makes (row Balancing (difference Balancing) (cells_mut table.old) a stop) table.old table.new result }
    {
        let cells = table.view();
        if cells.level(a) <= Engine::Balancing.difference() {
            return Ok(());
        }
        if !cells.is_leaf(a) {
            return Ok(());
        }
        self.split_coarser(table, a, stop)
    }

    // Splits a if one of the first `stop` cells asks for it. A leaf at the finest level is never asked. Never inlined,
    // as that one.
    #[inline(never)]
    fn conform_row(&self, table: &mut TableMut<'_>, a: usize, stop: usize) -> Result<(), Refusal>
        requires indexed { Indexes self.now.roots.now (cells_mut table.old) }
        requires stop { stop ≤ table.old.head.count }
        requires own { a < stop }
        ensures { Makes (row Conforming (difference Conforming) (cells_mut table.old) a stop)
            table.old table.new result }
    {
        let cells = table.view();
        if !cells.is_leaf(a) {
            return Ok(());
        }
        if cells.head.max_level <= cells.level(a) {
            return Ok(());
        }
        let difference = Engine::Conforming.difference();
        if !Around::new(cells, self.roots, a).is_asked(difference, stop) {
            return Ok(());
        }
        split(table, a)
    }

    // a's pairs with the first `stop` cells.
    fn row(&self, table: &mut TableMut<'_>, a: usize, stop: usize) -> Result<(), Refusal>
        requires indexed { Indexes self.now.roots.now (cells_mut table.old) }
        requires stop { stop ≤ table.old.head.count }
        requires own { a < stop }
        ensures { Makes (row self.now.engine (difference self.now.engine) (cells_mut table.old) a stop)
            table.old table.new result }
    {
        match self.engine {
            Engine::Balancing => self.balance_row(table, a, stop),
            Engine::Conforming => self.conform_row(table, a, stop),
        }
    }

    // One pass over the ids below its starting count: the rows without a mark have nothing due.
    fn pass(&self, table: &mut TableMut<'_>, marks: &Marks) -> Result<(), Refusal>
        requires indexed { Indexes self.now.roots.now (cells_mut table.old) }
        requires watched { Watched self.now (cells_mut table.old) marks.now }
        ensures { Makes (pass self.now.engine (difference self.now.engine) (cells_mut table.old))
            table.old table.new result }
    {
        let stop = table.head.count;
        let mut a = marks.next(0, stop);
        while a < stop {
            self.row(table, a, stop)?;
            a = marks.next(a + 1, stop);
        }
        Ok(())
    }

    // The levels of the leaves whose rows a new leaf of this level can concern.
    fn concerned(&self, max_level: u64, level: u64) -> Levels
        requires { level ≤ 64 }
        ensures low { (x : ℕ) → Reaches self.now.engine (difference self.now.engine) max_level level x
            → result.low ≤ x }
        ensures high { (x : ℕ) → Reaches self.now.engine (difference self.now.engine) max_level level x
            → x ≤ result.high }
    {
        let beyond = self.engine.difference() + 1;
        match self.engine {
            Engine::Balancing => Levels {
                low: level + beyond,
                high: max_level,
            },
            Engine::Conforming => Levels {
                low: 0,
                high: level.saturating_sub(beyond),
            },
        }
    }

    // Marks the four children from `first` on of a cell, and the rows that one of them can concern.
    fn mark_kids(&self, table: &Table<'_>, parent: usize, first: usize, marks: &mut Marks)
        requires indexed { Indexes self.now.roots.now (cells table.now) }
        requires inside { parent < table.now.head.count }
        requires kids { (at (cells table.now) parent).kids ≡ Some first }
        ensures kept { KeepsMarks marks.old marks.new }
        ensures met { (y : ℕ) → first ≤ y → y < first + 4 → Met self.now (cells table.now) marks.new y }
    {
        let levels = self.concerned(table.head.max_level, table.level(parent) + 1);
        Around::new(*table, self.roots, parent).mark(levels, marks);
        marks.mark_four(first);
    }

    // Marks the rows that the cells from `stop` on can concern, their own among them.
    fn mark_new(&self, table: &Table<'_>, stop: usize, marks: &mut Marks)
        requires indexed { Indexes self.now.roots.now (cells table.now) }
        requires roots { self.now.roots.now.end ≤ stop }
        requires inside { stop ≤ table.now.head.count }
        requires settled { Settled self.now (cells table.now) stop }
        ensures { Watched self.now (cells table.now) marks.new }
    {
        marks.clear();
        let mut x = stop;
        while x < table.head.count {
            let parent = table.parent(x).unwrap();
            let first = table.kids(parent).unwrap();
            self.mark_kids(table, parent, first, marks);
            x = first + 4;
        }
    }

    /// Passes until one makes no split, or the room ends. After a pass only what it made can be due, or ask.
    pub fn passes(&self, table: &mut TableMut<'_>, marks: &mut Marks) -> Result<(), Refusal>
        requires indexed { Indexes self.now.roots.now (cells_mut table.old) }
        requires watched { Watched self.now (cells_mut table.old) marks.old }
        ensures { Makes
            (evened self.now.engine (difference self.now.engine) table.old.head.max_level (cells_mut table.old))
            table.old table.new result }
    {
        'passes: loop {
            let before = table.head;
            self.pass(table, marks)?;
            let calm = table.head.leaves == before.leaves;
            if calm {
                return Ok(());
            }
            self.mark_new(&table.view(), before.count, marks);
        }
    }
}
