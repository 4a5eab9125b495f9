//! The net of a table: build_network and apply_fv_weights of the Rust, from a lent table into lent rows.
#![tactic(auto)]

ghost use Rattle.std.specs.Prelude.{◌≡◌};
ghost use Rattle.network.specs.Says.{rows, netted_said, rows_said, network_says, network_leaves, edge_rows_says};

pub mod judge;
pub mod laws;

use judge::{Room, judge};
use links::{Links, MeshNet, edges_fit};
use net_rows::{Edge, NetCell, Node, Polygons};
use refusals::Refusal;
use table::Head;
use weights::lent::BareNet;

/// How many nodes, edges and cells a net has, and how many of its edges, the last ones, are links.
#[derive(Clone, Copy, Debug, PartialEq, Eq)]
pub struct NetSize {
    pub nodes: usize,
    pub edges: usize,
    pub cells: usize,
    pub links: usize,
}

/// The net of a table's leaves with its links, and its size. Rows past that keep what they held; the work room is zero
/// afterwards.
#[tactic(auto, unfolding(crate::specs::Says::network_says, crate::specs::Says::network_leaves))]
pub fn network<'a>(
    row: &[i64],
    head: Head,
    polygons: &Polygons<'a>,
    sheets: &'a [f64],
    links: &Links,
    nodes: &mut [Node],
    edges: &mut [Edge],
    cells: &mut [NetCell],
    work: &mut [u64],
) -> Result<NetSize, Refusal>
    ensures answer { netted_said result
        ≡ network_says row.now head polygons.now sheets.now links.now (rows nodes.old edges.old cells.old work.old) }
    ensures rows { rows nodes.new edges.new cells.new work.new
        ≡ network_leaves row.now head polygons.now sheets.now links.now (rows nodes.old edges.old cells.old work.old) }
{
    let table = judge(row, head, polygons, sheets, links)?;
    let room = Room {
        nodes: nodes.len(),
        edges: edges.len(),
        cells: cells.len(),
        work: work.len(),
    };
    if !room.holds(table.leaf_count()) {
        return Err(Refusal::NoRoom);
    }
    if !edges_fit(&table, *polygons, links, room.edges) {
        return Err(Refusal::NoRoom);
    }
    let mesh = bare_net::write_net(&table, polygons, sheets, nodes, edges, cells, work);
    let held = MeshNet {
        nodes: &nodes[..mesh.nodes],
        cells: &cells[..mesh.cells],
    };
    let linked = links.write(&table, &held, &mut edges[mesh.edges..], work);
    let all = mesh.edges + linked;
    let net = BareNet {
        nodes: held.nodes,
        cells: held.cells,
    };
    weights::apply_weights(&net, &mut edges[..all], work);
    Ok(NetSize {
        nodes: mesh.nodes,
        edges: all,
        cells: mesh.cells,
        links: linked,
    })
}

/// How many edge rows `network` asks for: 8 a leaf and one a link. More than a number holds is the largest number.
pub fn edge_rows<'a>(
    row: &[i64],
    head: Head,
    polygons: &Polygons<'a>,
    sheets: &'a [f64],
    links: &Links,
) -> Result<usize, Refusal>
    ensures { rows_said result ≡ edge_rows_says row.now head polygons.now sheets.now links.now }
{
    let table = judge(row, head, polygons, sheets, links)?;
    Ok(links::edge_rows(&table, *polygons, links))
}
