//! Runs stored cases of power, of the two checks of a net and of network, with links and without, and prints every
//! answer with the row that was lent. `stdin` has the cases and `stdout` what the original answered. Both were written by
//!
//!     oracle/replays.sh
#![tactic(auto)]

use cases::stored::Stored;
use cases::{Cases, print};
use checks::Hanging;
use links::{Channel, Contact, Footprint, Links, Terminal, Via};
use net_rows::{Corners, Edge, NetCell, NetRows, Node, Polygons};
use network::NetSize;
use refusals::Refusal;
use std::alloc::{AllocError, Global};
use std::fmt::Write;
use std::io;
use table::Head;

const POWER: u64 = 1;

const NETWORK_CONFORMING: u64 = 2;

const BY_LAYER: u64 = 3;

const NETWORK: u64 = 4;

const LINKED_NETWORK: u64 = 5;

const EDGE_ROWS: u64 = 6;

// The rows of a net as the stream has them: four numbers a node, two ends an edge, four corners a cell.
#[derive(Drop)]
struct Numbers {
    nodes: Vec<i64>,
    ends: Vec<u64>,
    conductances: Vec<f64>,
    corners: Vec<u64>,
    sheets: Vec<f64>,
}

// What is lent for a net: a table with its head in front, the polygons' rows, and links.
#[derive(Drop)]
struct Board {
    head: Head,
    table: Vec<i64>,
    layers: Vec<u16>,
    components: Vec<u32>,
    sheets: Vec<f64>,
    contacts: Vec<Contact>,
    vias: Vec<Via>,
    channel_layer: u16,
    channels: Vec<Channel>,
}

fn read_contact(cases: &mut Cases) -> Contact {
    let from = cases.index();
    let to = cases.index();
    Contact { from, to }
}

fn read_footprint(cases: &mut Cases) -> Footprint {
    let x = i64::stored(cases);
    let y = i64::stored(cases);
    let half_width = i64::stored(cases);
    let half_height = i64::stored(cases);
    Footprint {
        x,
        y,
        half_width,
        half_height,
    }
}

fn read_via(cases: &mut Cases) -> Via {
    let bottom = u16::stored(cases);
    let top = u16::stored(cases);
    let component = u32::stored(cases);
    let footprint = read_footprint(cases);
    let resistance = f64::stored(cases);
    Via {
        bottom,
        top,
        component,
        footprint,
        resistance,
    }
}

fn read_terminal(cases: &mut Cases) -> Terminal {
    let component = u32::stored(cases);
    let x = i64::stored(cases);
    let y = i64::stored(cases);
    Terminal { component, x, y }
}

fn read_channel(cases: &mut Cases) -> Channel {
    let drain = read_terminal(cases);
    let source = read_terminal(cases);
    let resistance = f64::stored(cases);
    Channel {
        drain,
        source,
        resistance,
    }
}

impl Board {
    fn read(alloc: Global, cases: &mut Cases) -> Result<Board, AllocError> {
        let head = cases.head();
        let table = cases.row(alloc)?;
        let layers = cases.row(alloc)?;
        let components = cases.row(alloc)?;
        let sheets = cases.row(alloc)?;
        let mut contacts = Vec::new(alloc);
        for _ in 0..cases.word() {
            contacts.push(read_contact(cases))?;
        }
        let mut vias = Vec::new(alloc);
        for _ in 0..cases.word() {
            vias.push(read_via(cases))?;
        }
        let channel_layer = u16::stored(cases);
        let mut channels = Vec::new(alloc);
        for _ in 0..cases.word() {
            channels.push(read_channel(cases))?;
        }
        Ok(Board {
            head,
            table,
            layers,
            components,
            sheets,
            contacts,
            vias,
            channel_layer,
            channels,
        })
    }

    fn polygons(&self) -> Polygons<'_> {
        Polygons {
            layers: &self.layers,
            components: &self.components,
        }
    }

    fn links(&self) -> Links<'_> {
        Links {
            contacts: &self.contacts,
            vias: &self.vias,
            channel_layer: self.channel_layer,
            channels: &self.channels,
        }
    }
}

// The rows of a net as a call takes them. Where an entry of the nodes' row fits no node, with a layer or component of too
// many bits, the row is kept as it was lent.
#[derive(Drop)]
struct Net {
    nodes: Vec<Node>,
    edges: Vec<Edge>,
    cells: Vec<NetCell>,
    lent_nodes: Option<Vec<i64>>,
}

fn node_of(numbers: [i64; 4]) -> Option<Node> {
    let [layer, component, x, y] = numbers;
    Some(Node {
        layer: u16::try_from(layer).ok()?,
        component: u32::try_from(component).ok()?,
        x,
        y,
    })
}

// The nodes, each of no layer and component where its numbers fit none, and the numbers where that is so. Rows of numbers
// are let go as soon as they have their types.
fn nodes_of(alloc: Global, numbers: Vec<i64>) -> Result<(Vec<Node>, Option<Vec<i64>>), AllocError> {
    let mut nodes = Vec::new(alloc);
    let mut all_fit = true;
    for numbers in numbers.as_chunks::<4>().0 {
        let node = node_of(*numbers);
        all_fit = all_fit && node.is_some();
        nodes.push(node.unwrap_or(Node {
            layer: 0,
            component: 0,
            x: numbers[2],
            y: numbers[3],
        }))?;
    }
    if all_fit {
        return Ok((nodes, None));
    }
    Ok((nodes, Some(numbers)))
}

fn edges_of(
    alloc: Global,
    ends: Vec<u64>,
    conductances: Vec<f64>,
) -> Result<Vec<Edge>, AllocError> {
    let mut edges = Vec::new(alloc);
    for (ends, conductance) in ends.as_chunks::<2>().0.iter().zip(&conductances) {
        edges.push(Edge {
            from: ends[0] as usize,
            to: ends[1] as usize,
            conductance: *conductance,
        })?;
    }
    Ok(edges)
}

fn cells_of(
    alloc: Global,
    corners: Vec<u64>,
    sheets: Vec<f64>,
) -> Result<Vec<NetCell>, AllocError> {
    let mut cells = Vec::new(alloc);
    for (corners, sheet) in corners.as_chunks::<4>().0.iter().zip(&sheets) {
        cells.push(NetCell {
            corners: Corners {
                southwest: corners[0] as usize,
                southeast: corners[1] as usize,
                northeast: corners[2] as usize,
                northwest: corners[3] as usize,
            },
            sheet: *sheet,
        })?;
    }
    Ok(cells)
}

impl Numbers {
    fn read(alloc: Global, cases: &mut Cases) -> Result<Numbers, AllocError> {
        let nodes = cases.row(alloc)?;
        let ends = cases.row(alloc)?;
        let conductances = cases.row(alloc)?;
        let corners = cases.row(alloc)?;
        let sheets = cases.row(alloc)?;
        Ok(Numbers {
            nodes,
            ends,
            conductances,
            corners,
            sheets,
        })
    }

    // Whether the lengths of the rows fit together.
    fn fit(&self) -> bool {
        let (_, no_node) = self.nodes.as_chunks::<4>();
        let (ends, no_end) = self.ends.as_chunks::<2>();
        let (corners, no_corner) = self.corners.as_chunks::<4>();
        no_node.is_empty()
            && no_end.is_empty()
            && no_corner.is_empty()
            && ends.len() == self.conductances.len()
            && corners.len() == self.sheets.len()
    }

    // The rows with their types, to be written to: what they hold doesn't count. The numbers again where their lengths
    // don't fit together.
    fn lent(self, alloc: Global) -> Result<Result<Net, Numbers>, AllocError> {
        if !self.fit() {
            return Ok(Err(self));
        }
        let Numbers {
            nodes,
            ends,
            conductances,
            corners,
            sheets,
        } = self;
        let (nodes, lent_nodes) = nodes_of(alloc, nodes)?;
        let edges = edges_of(alloc, ends, conductances)?;
        let cells = cells_of(alloc, corners, sheets)?;
        Ok(Ok(Net {
            nodes,
            edges,
            cells,
            lent_nodes,
        }))
    }

    // The rows with their types. They are no net where their lengths don't fit together, or a layer or component has
    // too many bits.
    fn typed(self, alloc: Global) -> Result<Option<Net>, AllocError> {
        let Ok(net) = self.lent(alloc)? else {
            return Ok(None);
        };
        if net.lent_nodes.is_some() {
            return Ok(None);
        }
        Ok(Some(net))
    }

    fn print(&self, out: &mut String) -> Result<(), AllocError> {
        print::row(out, &self.nodes)?;
        print::row(out, &self.ends)?;
        print::fractions(out, &self.conductances)?;
        print::row(out, &self.corners)?;
        print::fractions(out, &self.sheets)
    }
}

impl Net {
    fn rows(&self) -> NetRows<'_> {
        NetRows {
            nodes: &self.nodes,
            edges: &self.edges,
            cells: &self.cells,
        }
    }

    // Behind the nodes that were written stands what was lent.
    fn print_nodes(&self, written: usize, out: &mut String) -> Result<(), AllocError> {
        let typed = match &self.lent_nodes {
            None => self.nodes.len(),
            Some(_) => written,
        };
        for node in self.nodes.iter().take(typed) {
            let Node {
                layer,
                component,
                x,
                y,
            } = *node;
            write!(out, " {layer} {component} {x} {y}")?;
        }
        if let Some(numbers) = &self.lent_nodes {
            for number in numbers.iter().skip(written.saturating_mul(4)) {
                write!(out, " {number}")?;
            }
        }
        writeln!(out)
    }

    fn print_edges(&self, alloc: Global, out: &mut String) -> Result<(), AllocError> {
        let mut conductances = Vec::new(alloc);
        for edge in &self.edges {
            let Edge {
                from,
                to,
                conductance,
            } = *edge;
            write!(out, " {from} {to}")?;
            conductances.push(conductance)?;
        }
        writeln!(out)?;
        print::fractions(out, &conductances)
    }

    fn print_cells(&self, alloc: Global, out: &mut String) -> Result<(), AllocError> {
        let mut sheets = Vec::new(alloc);
        for cell in &self.cells {
            let Corners {
                southwest,
                southeast,
                northeast,
                northwest,
            } = cell.corners;
            write!(out, " {southwest} {southeast} {northeast} {northwest}")?;
            sheets.push(cell.sheet)?;
        }
        writeln!(out)?;
        print::fractions(out, &sheets)
    }

    // The rows as numbers, of which so many nodes were written.
    fn print(&self, alloc: Global, written: usize, out: &mut String) -> Result<(), AllocError> {
        self.print_nodes(written, out)?;
        self.print_edges(alloc, out)?;
        self.print_cells(alloc, out)
    }
}

// How many nodes a call wrote.
fn nodes_in(answer: Result<NetSize, Refusal>) -> usize {
    answer.map_or(0, |size| size.nodes)
}

// The hanging node and the two ends of the edge that it hangs on, or nothing.
fn print_fault(out: &mut String, fault: Option<Hanging>) -> Result<(), AllocError> {
    match fault {
        None => writeln!(out),
        Some(Hanging { node, start, end }) => writeln!(out, " {node} {start} {end}"),
    }
}

fn print_counts(out: &mut String, n: NetSize) -> Result<(), AllocError> {
    writeln!(out, " {} {} {}", n.nodes, n.edges, n.cells)
}

// A net, potentials and answers stand next.
fn run_power(alloc: Global, cases: &mut Cases, out: &mut String) -> Result<(), AllocError> {
    let typed = Numbers::read(alloc, cases)?.typed(alloc)?;
    let net = typed.as_ref().ok_or(Refusal::BadTable);
    let potentials: Vec<f64> = cases.row(alloc)?;
    let mut answers: Vec<f64> = cases.row(alloc)?;
    write!(out, "power")?;
    let answer = net.and_then(|net| power::cell_power(&net.rows(), &potentials, &mut answers));
    print::answered(out, answer, |out, ()| writeln!(out))?;
    print::fractions(out, &answers)
}

// A net, a table with its head in front and the work room stand next.
fn run_network_conforming(
    alloc: Global,
    cases: &mut Cases,
    out: &mut String,
) -> Result<(), AllocError> {
    let typed = Numbers::read(alloc, cases)?.typed(alloc)?;
    let net = typed.as_ref().ok_or(Refusal::BadTable);
    let head = cases.head();
    let t: Vec<i64> = cases.row(alloc)?;
    let mut work: Vec<u64> = cases.row(alloc)?;
    write!(out, "check_network_conforming")?;
    let answer = net.and_then(|net| checks::check_network_conforming(
        &t,
        head,
        &net.rows(),
        &mut work,
    ));
    print::answered(out, answer, print_fault)?;
    print::work(out, &work)
}

// A net, a table with its head in front, layers, components and the work room stand next.
fn run_by_layer(alloc: Global, cases: &mut Cases, out: &mut String) -> Result<(), AllocError> {
    let typed = Numbers::read(alloc, cases)?.typed(alloc)?;
    let net = typed.as_ref().ok_or(Refusal::BadTable);
    let head = cases.head();
    let t: Vec<i64> = cases.row(alloc)?;
    let layers: Vec<u16> = cases.row(alloc)?;
    let components: Vec<u32> = cases.row(alloc)?;
    let mut work: Vec<u64> = cases.row(alloc)?;
    write!(out, "check_by_layer")?;
    let polygons = Polygons {
        layers: &layers,
        components: &components,
    };
    let answer = net.and_then(|net| checks::check_by_layer(
        &t,
        head,
        &net.rows(),
        &polygons,
        &mut work,
    ));
    print::answered(out, answer, print_fault)?;
    print::work(out, &work)
}

// A table with its head in front, the polygons' rows, and the rows for the net stand next.
fn run_network(alloc: Global, cases: &mut Cases, out: &mut String) -> Result<(), AllocError> {
    let head = cases.head();
    let t: Vec<i64> = cases.row(alloc)?;
    let layers: Vec<u16> = cases.row(alloc)?;
    let components: Vec<u32> = cases.row(alloc)?;
    let sheets: Vec<f64> = cases.row(alloc)?;
    let lent = Numbers::read(alloc, cases)?.lent(alloc)?;
    let mut work: Vec<u64> = cases.row(alloc)?;
    write!(out, "network")?;
    let polygons = Polygons {
        layers: &layers,
        components: &components,
    };
    match lent {
        Ok(mut net) => {
            let answer = network::network(
                &t,
                head,
                &polygons,
                &sheets,
                &Links::none(),
                &mut net.nodes,
                &mut net.edges,
                &mut net.cells,
                &mut work,
            );
            print::answered(out, answer, print_counts)?;
            net.print(alloc, nodes_in(answer), out)?;
        }
        Err(numbers) => {
            print::refused(out, Refusal::BadTable)?;
            numbers.print(out)?;
        }
    }
    print::work(out, &work)
}

fn print_size(out: &mut String, n: NetSize) -> Result<(), AllocError> {
    writeln!(out, " {} {} {} {}", n.nodes, n.edges, n.cells, n.links)
}

// A board with links, and the rows for the net stand next.
fn run_linked(alloc: Global, cases: &mut Cases, out: &mut String) -> Result<(), AllocError> {
    let board = Board::read(alloc, cases)?;
    let lent = Numbers::read(alloc, cases)?.lent(alloc)?;
    let mut work: Vec<u64> = cases.row(alloc)?;
    write!(out, "linked_network")?;
    match lent {
        Ok(mut net) => {
            let answer = network::network(
                &board.table,
                board.head,
                &board.polygons(),
                &board.sheets,
                &board.links(),
                &mut net.nodes,
                &mut net.edges,
                &mut net.cells,
                &mut work,
            );
            print::answered(out, answer, print_size)?;
            net.print(alloc, nodes_in(answer), out)?;
        }
        Err(numbers) => {
            print::refused(out, Refusal::BadTable)?;
            numbers.print(out)?;
        }
    }
    print::work(out, &work)
}

fn print_rows(out: &mut String, rows: usize) -> Result<(), AllocError> {
    writeln!(out, " {}", rows)
}

fn run_edge_rows(alloc: Global, cases: &mut Cases, out: &mut String) -> Result<(), AllocError> {
    let board = Board::read(alloc, cases)?;
    write!(out, "edge_rows")?;
    let answer = network::edge_rows(
        &board.table,
        board.head,
        &board.polygons(),
        &board.sheets,
        &board.links(),
    );
    print::answered(out, answer, print_rows)
}

fn run(alloc: Global, cases: &mut Cases, out: &mut String) -> Result<(), AllocError> {
    match cases.word() {
        POWER => run_power(alloc, cases, out),
        NETWORK_CONFORMING => run_network_conforming(alloc, cases, out),
        BY_LAYER => run_by_layer(alloc, cases, out),
        NETWORK => run_network(alloc, cases, out),
        LINKED_NETWORK => run_linked(alloc, cases, out),
        EDGE_ROWS => run_edge_rows(alloc, cases, out),
        kind => writeln!(out, "unknown {kind}"),
    }
}

// As many cases as the stream says.
fn main(rt: HostRuntime) -> io::Result<()> {
    let mut cases = Cases::read(&rt)?;
    let mut out = String::new(rt.alloc());
    for _ in 0..cases.word() {
        run(rt.alloc(), &mut cases, &mut out)?;
    }
    rt.print(out)
}
