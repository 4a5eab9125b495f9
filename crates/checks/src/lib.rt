//! Whether a net joins the nodes that stand on a leaf's edge: check_network_conforming of the Rust, which looks at the
//! middle of each edge, and the check by layer, which looks at every node between its ends.
//!
//! There is one walk over the leaves (`walk`). It asks for nodes by their place and for edges by their ends, and how
//! these are found is a `Lookup`: the net as it stands, or, where the caller lends room for it, an `Index` of it.
#![tactic(auto)]

ghost use Rattle.std.specs.Prelude.{◌≡◌, length};
ghost use Rattle.refusals.specs.Said.{is_accepted};
ghost use Rattle.checks.specs.Checks.{checked_said, conforming_says, layers_says};
ghost use Rattle.checks.specs.Rooms.{work_row};

pub mod asked;
pub mod index;
pub mod laws;
pub mod lookup;
pub mod room;
pub mod side;
pub mod walk;

pub use asked::Hanging;
use asked::Scope;
use net_rows::{NetRows, Polygons, SoundNet};
use refusals::Refusal;
use table::{Head, Table};

/// check_network_conforming of the rules. Refuses 7 only: a bad table or a bad net. With enough work room it is quick.
#[tactic(auto, unfolding(crate::specs::Checks::conforming_says, crate::specs::Rooms::work_row))]
pub fn check_network_conforming(
    row: &[i64],
    head: Head,
    rows: &NetRows,
    work: &mut [u64],
) -> Result<Option<Hanging>, Refusal>
    ensures answer { checked_said result
        ≡ conforming_says row.now head rows.now.nodes.now rows.now.edges.now rows.now.cells.now }
    ensures work_row { work.new
        ≡ work_row (length rows.now.nodes.now) (length rows.now.edges.now)
        (is_accepted (conforming_says row.now head rows.now.nodes.now rows.now.edges.now rows.now.cells.now)) work.old }
{
    let table = Table::new(row, head).ok_or(Refusal::BadTable)?;
    let net = SoundNet::judge(rows).ok_or(Refusal::BadTable)?;
    Ok(room::find_fault(&net, &table, Scope::Everywhere, work))
}

/// The by-layer check: nodes of the leaf's own layer and component. Refuses 7 for the polygons too.
#[tactic(auto, unfolding(crate::specs::Checks::layers_says, crate::specs::Rooms::work_row))]
pub fn check_by_layer(
    row: &[i64],
    head: Head,
    rows: &NetRows,
    polygons: &Polygons,
    work: &mut [u64],
) -> Result<Option<Hanging>, Refusal>
    ensures answer { checked_said result
        ≡ layers_says row.now head rows.now.nodes.now rows.now.edges.now rows.now.cells.now polygons.now.layers.now
        polygons.now.components.now }
    ensures work_row { work.new
        ≡ work_row (length rows.now.nodes.now) (length rows.now.edges.now)
        (is_accepted (layers_says row.now head rows.now.nodes.now rows.now.edges.now rows.now.cells.now
        polygons.now.layers.now polygons.now.components.now)) work.old }
{
    let table = Table::new(row, head).ok_or(Refusal::BadTable)?;
    let net = SoundNet::judge(rows).ok_or(Refusal::BadTable)?;
    if !polygons.fit(&table) {
        return Err(Refusal::BadTable);
    }
    Ok(room::find_fault(&net, &table, Scope::ByLayer(*polygons), work))
}
