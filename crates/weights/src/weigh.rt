//! The weight of each edge that is a side of a cell: its face over the sheet resistance times its length.
ghost use Rattle.std.specs.Prelude.{◌≡◌, ◌+◌, ◌^◌, ◌<◌, min, map, length, slice_index, Some, All};
ghost use Rattle.net.specs.Net.{weight, weighed, Ends};
ghost use Rattle.weights.specs.Sides.{Sided};
ghost use Rattle.weights.specs.Bare.{nodes_of, across_of, face_of, distance_of, HasExtents, Extended};

use crate::axes::Entry;
use crate::lent::BareNet;
use crate::sides::first_cell;
use net_rows::{Axis, Edge};

/// How far each node reaches, in half ticks.
#[derive(Clone, Copy)]
pub struct Extents<'a> {
    pub up: &'a [u64],
    pub down: &'a [u64],
    pub right: &'a [u64],
    pub left: &'a [u64],
}

// The lesser extent of two nodes.
fn lesser(extents: &[u64], a: usize, b: usize) -> u64
    requires from_there { a < length extents.now }
    requires to_there { b < length extents.now }
    ensures { result ≡ min (slice_index extents.now a) (slice_index extents.now b) }
{
    extents[a].min(extents[b])
}

// The face between two nodes, in half ticks, by their extents along an axis.
fn face(extents: &Extents, along: Axis, a: usize, b: usize) -> u64
    requires small { face_of extents.now along a b < 2 ^ 53 }
    requires from_there { HasExtents extents.now a }
    requires to_there { HasExtents extents.now b }
    ensures { result ≡ face_of extents.now along a b }
{
    match along {
        Axis::Column => lesser(extents.up, a, b) + lesser(extents.down, a, b),
        Axis::Row => lesser(extents.right, a, b) + lesser(extents.left, a, b),
    }
}

// The axis across an edge of two nodes.
fn across(net: &BareNet, a: usize, b: usize) -> Axis
    requires from_there { a < length net.now.nodes.now }
    requires to_there { b < length net.now.nodes.now }
    ensures { result ≡ across_of (nodes_of net.now) a b }
{
    if net.node(Axis::Column, a).y == net.node(Axis::Column, b).y {
        Axis::Column
    } else {
        Axis::Row
    }
}

// How far apart the lines of two nodes are, in ticks.
fn distance(net: &BareNet, axis: Axis, a: usize, b: usize) -> u64
    requires from_there { a < length net.now.nodes.now }
    requires to_there { b < length net.now.nodes.now }
    ensures { result ≡ distance_of (nodes_of net.now) axis a b }
{
    net.node(axis, a).x.abs_diff(net.node(axis, b).x)
}

// Two roundings, of the product and of the quotient: binary64 has the half of a face and a distance.
#[tactic(auto, using(crate::proofs::Faces::half_is), unfolding(net::specs::Net::weight))]
fn weight_of(g: f64, face: u64, distance: u64, sheet: f64) -> f64
    requires face_small { face < 2 ^ 53 }
    requires distance_small { distance < 2 ^ 53 }
    ensures { result ≡ weight g face distance (Some sheet) }
{
    if face == 0 {
        g
    } else {
        (face as f64) * 0.5 / (sheet * (distance as f64))
    }
}

// What becomes of the conductance of an edge. It stays where the edge is a side of no cell.
fn weigh_edge(net: &BareNet, extents: &Extents, sides: &[Entry], edge: Edge) -> f64
    requires sided { Sided net.now.cells.now sides.now }
    requires extended { Extended (nodes_of net.now) net.now.cells.now extents.now }
    requires ends_known { Ends (length net.now.nodes.now) edge }
    ensures { result ≡ (weighed (nodes_of net.now) net.now.cells.now edge).conductance }
{
    let Edge {
        from,
        to,
        conductance,
    } = edge;
    let Some(cell) = first_cell(sides, from, to) else {
        return conductance;
    };
    let axis = across(net, from, to);
    weight_of(
        conductance,
        face(extents, axis, from, to),
        distance(net, axis, from, to),
        net.cells[cell].sheet,
    )
}

/// The weight of each edge.
pub fn weigh_edges(net: &BareNet, extents: &Extents, sides: &[Entry], edges: &mut [Edge])
    requires sided { Sided net.now.cells.now sides.now }
    requires extended { Extended (nodes_of net.now) net.now.cells.now extents.now }
    requires ends_known { All (Ends (length net.now.nodes.now)) edges.old }
    ensures { edges.new ≡ map (weighed (nodes_of net.now) net.now.cells.now) edges.old }
{
    for edge in edges {
        edge.conductance = weigh_edge(net, extents, sides, *edge);
    }
}
