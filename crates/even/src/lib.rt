//! Balance and conform on a lent table: AdaptiveGrid::balance and ::conform of the Rust, which end in the one coarsest
//! splitting or leave the table as it was.
#![tactic(auto)]

ghost use Rattle.std.specs.Prelude.{◌≡◌, ◌/◌, ◌<◌, length, IfOk, IfErr, OnErr};
ghost use Rattle.refusals.specs.declared.Refusal.TheVariants.{NoRoom};
ghost use Rattle.table.specs.Rows.{IsTable, cells_in};
ghost use Rattle.coarsest.specs.declared.Engine.TheVariants.{Balancing, Conforming};
ghost use Rattle.even.specs.Undo.{undone};
ghost use Rattle.even.specs.Even.{even_cells, evening_said, even_says, even_row, EndsCoarsest};

pub mod evener;
pub mod laws;
pub mod undo;

use coarsest::Engine;
use evener::Evener;
use refusals::Refusal;
use search::{Marks, Roots};
use table::formed::well_formed;
use table::{Head, TableMut};
use undo::undo;

/// What was done: the number of splits, and the table's new head.
#[derive(Clone, Copy)]
pub struct Evening {
    pub splits: usize,
    pub head: Head,
}

// All passes, with the index of the roots made once: the new head. Without room the splits are left for `undo`.
fn even_out(row: &mut [i64], head: Head, engine: Engine) -> Result<Head, Refusal>
    requires { IsTable row.old head }
    ensures cells { IfOk result (λ h. cells_in row.new h ≡ even_cells engine row.old head) }
    ensures formed { IfOk result (λ h. IsTable row.new h) }
    ensures max_level { IfOk result (λ h. h.max_level ≡ head.max_level) }
    ensures refusal { IfErr result (λ why. why ≡ NoRoom) }
    ensures full { OnErr result (length row.old / 8 < length (even_cells engine row.old head)) }
    ensures undone { undone head.count row.new ≡ row.old }
{
    let mut roots = Roots::unknown();
    let mut table = TableMut::new(row, head);
    roots.index(&table.view());
    let mut marks = Marks::all();
    let evener = Evener {
        engine,
        roots: &roots,
    };
    evener.passes(&mut table, &mut marks)?;
    Ok(table.head)
}

// Both calls: 7, 6, or the table evened out.
fn even_table(row: &mut [i64], head: Head, engine: Engine) -> Result<Evening, Refusal>
    ensures says { evening_said result ≡ even_says engine row.old head }
    ensures row_after { row.new ≡ even_row engine row.old head }
    ensures table_after { IfOk result (λ e. IsTable row.new e.head) }
    ensures coarsest { EndsCoarsest engine head row.old row.new (evening_said result) }
{
    if !well_formed(row, head) {
        return Err(Refusal::BadTable);
    }
    match even_out(row, head, engine) {
        Ok(grown) => Ok(Evening {
            splits: (grown.leaves - head.leaves) / 3,
            head: grown,
        }),
        Err(why) => {
            undo(row, head.count);
            Err(why)
        }
    }
}

/// No two leaves that share an edge differ by more than one level.
pub fn balance(row: &mut [i64], head: Head) -> Result<Evening, Refusal>
    ensures says { evening_said result ≡ even_says Balancing row.old head }
    ensures row_after { row.new ≡ even_row Balancing row.old head }
    ensures table_after { IfOk result (λ e. IsTable row.new e.head) }
    ensures coarsest { EndsCoarsest Balancing head row.old row.new (evening_said result) }
{
    even_table(row, head, Engine::Balancing)
}

/// No two leaves that share an edge differ in level.
pub fn conform(row: &mut [i64], head: Head) -> Result<Evening, Refusal>
    ensures says { evening_said result ≡ even_says Conforming row.old head }
    ensures row_after { row.new ≡ even_row Conforming row.old head }
    ensures table_after { IfOk result (λ e. IsTable row.new e.head) }
    ensures coarsest { EndsCoarsest Conforming head row.old row.new (evening_said result) }
{
    even_table(row, head, Engine::Conforming)
}
