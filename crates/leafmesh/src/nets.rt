//! The net of a table, the power of its cells, and its two checks.
ghost use Rattle.std.specs.Prelude.{◌≡◌, length};
ghost use Rattle.refusals.specs.Said.{refusal, is_accepted};
ghost use Rattle.table.specs.Rows.{head_of};
ghost use Rattle.network.specs.Says.{rows, netted_said, rows_said, network_says, network_leaves, edge_rows_says};
ghost use Rattle.checks.specs.Checks.{checked_said, conforming_says, layers_says};
ghost use Rattle.checks.specs.Rooms.{work_row};
ghost use Rattle.power.specs.Powers.{power_says, power_row};
ghost use Rattle.leafmesh.specs.Outcome.{outcome_of};
ghost use Rattle.leafmesh.specs.Nets.{net_outcome_of, check_outcome_of};

use crate::{Outcome, head_of};
use checks::Hanging;
use links::{Channel, Contact, Links, Via};
use net_rows::{Edge, NetCell, NetRows, Node, Polygons};
use network::NetSize;
use refusals::Refusal;

/// How many nodes, edges and cells a net has, and how many of its edges, the last ones, are links; number and place as
/// in an Outcome.
#[repr(C)]
#[derive(Clone, Copy)]
pub struct NetOutcome {
    pub number: u64,
    pub place: u64,
    pub nodes: u64,
    pub edges: u64,
    pub cells: u64,
    pub links: u64,
}

/// What a check found: broken is 1 where the node lacks a half of the leaf edge between the two ends, 0 where none
/// does.
#[repr(C)]
#[derive(Clone, Copy)]
pub struct CheckOutcome {
    pub number: u64,
    pub place: u64,
    pub broken: u64,
    pub node: u64,
    pub from: u64,
    pub to: u64,
}

fn unmade(why: Refusal) -> NetOutcome
    ensures { result ≡ net_outcome_of (refusal why) }
{
    let code = why.code();
    NetOutcome {
        number: code.number,
        place: code.place as u64,
        nodes: 0,
        edges: 0,
        cells: 0,
        links: 0,
    }
}

impl From<Result<NetSize, Refusal>> for NetOutcome {
    ghost from_gives = { λ answer outcome. outcome ≡ net_outcome_of (netted_said answer) };

    fn from(answer: Result<NetSize, Refusal>) -> NetOutcome {
        match answer {
            Ok(size) => NetOutcome {
                number: 0,
                place: 0,
                nodes: size.nodes as u64,
                edges: size.edges as u64,
                cells: size.cells as u64,
                links: size.links as u64,
            },
            Err(why) => unmade(why),
        }
    }
}

fn unchecked(why: Refusal) -> CheckOutcome
    ensures { result ≡ check_outcome_of (refusal why) }
{
    let code = why.code();
    CheckOutcome {
        number: code.number,
        place: code.place as u64,
        broken: 0,
        node: 0,
        from: 0,
        to: 0,
    }
}

impl From<Result<Option<Hanging>, Refusal>> for CheckOutcome {
    ghost from_gives = { λ answer outcome. outcome ≡ check_outcome_of (checked_said answer) };

    fn from(answer: Result<Option<Hanging>, Refusal>) -> CheckOutcome {
        match answer {
            Ok(None) => CheckOutcome {
                number: 0,
                place: 0,
                broken: 0,
                node: 0,
                from: 0,
                to: 0,
            },
            Ok(Some(hanging)) => CheckOutcome {
                number: 0,
                place: 0,
                broken: 1,
                node: hanging.node as u64,
                from: hanging.start as u64,
                to: hanging.end as u64,
            },
            Err(why) => unchecked(why),
        }
    }
}

/// The power of each cell into the front of answers.
#[unsafe(no_mangle)]
pub extern "C" fn leafmesh_power(
    nodes: &[Node],
    edges: &[Edge],
    cells: &[NetCell],
    potentials: &[f64],
    answers: &mut [f64],
) -> Outcome
    ensures value { result ≡ outcome_of (power_says nodes.now edges.now cells.now potentials.now answers.old) }
    ensures answers_after { answers.new ≡ power_row nodes.now edges.now cells.now potentials.now answers.old }
{
    let rows = NetRows {
        nodes,
        edges,
        cells,
    };
    Outcome::from(power::cell_power(&rows, potentials, answers))
}

/// The net of a table's leaves with its links into the front of the rows. The links are the last of the edges.
#[unsafe(no_mangle)]
pub extern "C" fn leafmesh_network<'a>(
    table: &[i64],
    count: usize,
    leaves: usize,
    max_level: u64,
    layers: &'a [u16],
    components: &'a [u32],
    sheets: &'a [f64],
    contacts: &'a [Contact],
    vias: &'a [Via],
    channel_layer: u16,
    channels: &'a [Channel],
    nodes: &mut [Node],
    edges: &mut [Edge],
    cells: &mut [NetCell],
    work: &mut [u64],
) -> NetOutcome
    ensures value { result
        ≡ net_outcome_of (network_says table.now (head_of count leaves max_level)
        (record { layers = layers.entry; components = components.entry }) sheets.now
        (record {
          contacts = contacts.entry;
          vias = vias.entry;
          channel_layer = channel_layer;
          channels = channels.entry;
        })
        (rows nodes.old edges.old cells.old work.old)) }
    ensures rows_after { rows nodes.new edges.new cells.new work.new
        ≡ network_leaves table.now (head_of count leaves max_level)
        (record { layers = layers.entry; components = components.entry }) sheets.now
        (record {
          contacts = contacts.entry;
          vias = vias.entry;
          channel_layer = channel_layer;
          channels = channels.entry;
        })
        (rows nodes.old edges.old cells.old work.old) }
{
    let head = head_of(count, leaves, max_level);
    let polygons = Polygons { layers, components };
    let links = Links {
        contacts,
        vias,
        channel_layer,
        channels,
    };
    NetOutcome::from(network::network(
        table, head, &polygons, sheets, &links, nodes, edges, cells, work,
    ))
}

/// How many edge rows `leafmesh_network` asks for: 8 a leaf and one a link.
#[unsafe(no_mangle)]
pub extern "C" fn leafmesh_edge_rows<'a>(
    table: &[i64],
    count: usize,
    leaves: usize,
    max_level: u64,
    layers: &'a [u16],
    components: &'a [u32],
    sheets: &'a [f64],
    contacts: &'a [Contact],
    vias: &'a [Via],
    channel_layer: u16,
    channels: &'a [Channel],
) -> Outcome
    ensures { result
        ≡ outcome_of (edge_rows_says table.now (head_of count leaves max_level)
        (record { layers = layers.entry; components = components.entry }) sheets.now
        (record {
          contacts = contacts.entry;
          vias = vias.entry;
          channel_layer = channel_layer;
          channels = channels.entry;
        })) }
{
    let head = head_of(count, leaves, max_level);
    let polygons = Polygons { layers, components };
    let links = Links {
        contacts,
        vias,
        channel_layer,
        channels,
    };
    Outcome::from(network::edge_rows(table, head, &polygons, sheets, &links))
}

/// The first leaf edge whose middle node lacks a half, nodes being found by their place alone.
#[unsafe(no_mangle)]
pub extern "C" fn leafmesh_check_network_conforming(
    table: &[i64],
    count: usize,
    leaves: usize,
    max_level: u64,
    nodes: &[Node],
    edges: &[Edge],
    cells: &[NetCell],
    work: &mut [u64],
) -> CheckOutcome
    ensures value { let head = head_of count leaves max_level in
        result ≡ check_outcome_of (conforming_says table.now head nodes.now edges.now cells.now) }
    ensures work_after { let head = head_of count leaves max_level in
        work.new
        ≡ work_row (length nodes.now) (length edges.now)
        (is_accepted (conforming_says table.now head nodes.now edges.now cells.now)) work.old }
{
    let head = head_of(count, leaves, max_level);
    let rows = NetRows {
        nodes,
        edges,
        cells,
    };
    CheckOutcome::from(checks::check_network_conforming(table, head, &rows, work))
}

/// The same with nodes of the leaf's own layer and component.
#[unsafe(no_mangle)]
pub extern "C" fn leafmesh_check_by_layer(
    table: &[i64],
    count: usize,
    leaves: usize,
    max_level: u64,
    nodes: &[Node],
    edges: &[Edge],
    cells: &[NetCell],
    layers: &[u16],
    components: &[u32],
    work: &mut [u64],
) -> CheckOutcome
    ensures value { let head = head_of count leaves max_level in
        result
        ≡ check_outcome_of (layers_says table.now head nodes.now edges.now cells.now layers.now components.now) }
    ensures work_after { let head = head_of count leaves max_level in
        work.new
        ≡ work_row (length nodes.now) (length edges.now)
        (is_accepted (layers_says table.now head nodes.now edges.now cells.now layers.now components.now)) work.old }
{
    let head = head_of(count, leaves, max_level);
    let rows = NetRows {
        nodes,
        edges,
        cells,
    };
    let polygons = Polygons { layers, components };
    CheckOutcome::from(checks::check_by_layer(table, head, &rows, &polygons, work))
}
