//! The work room of the weights. It does not grow with the edges.
ghost use Rattle.std.specs.Prelude.{◌≡◌, ◌*◌, ◌≤◌, map, length, All};
ghost use Rattle.net.specs.Net.{weighed, Ends};
ghost use Rattle.weights.specs.Bare.{nodes_of};

use crate::axes::{Entry, Step, sort_nodes};
use crate::extents::{Way, raise_hanging, write_gaps, write_steps};
use crate::lent::BareNet;
use crate::sides::sort_sides;
use crate::weigh::{Extents, weigh_edges};
use net_rows::{Axis, Edge};

/// For each corner of a cell, and so for each node and for each side of a cell: a key and an entry to sort by, the
/// extents of the node, and the step from it.
#[derive(Drop)]
pub struct Room<'a> {
    keys: &'a mut [u64],
    row: &'a mut [Entry],
    up: &'a mut [u64],
    down: &'a mut [u64],
    right: &'a mut [u64],
    left: &'a mut [u64],
    steps: &'a mut [Step],
}

impl<'a> Room<'a> {
    ghost use Rattle.weights.specs.Rooms.{HasRoom};

    /// The room for so many cells.
    pub fn draw(work: &'a mut [u64], cells: usize) -> Room<'a>
        requires { 64 * cells ≤ length work.old }
        ensures { HasRoom (4 * cells) result }
    {
        let corners = 4 * cells;
        let (keys, rest) = work.split_at_mut(corners);
        let (up, rest) = rest.split_at_mut(corners);
        let (down, rest) = rest.split_at_mut(corners);
        let (right, rest) = rest.split_at_mut(corners);
        let (left, rest) = rest.split_at_mut(corners);
        let (steps, rest) = rest.split_at_mut(2 * corners);
        let (steps, _) = steps.as_chunks_mut::<2>();
        let (entries, _) = rest.as_chunks_mut::<4>();
        let (row, _) = entries.split_at_mut(corners);
        Room {
            keys,
            row,
            up,
            down,
            right,
            left,
            steps,
        }
    }
}

impl Room<'_> {
    ghost use Rattle.weights.specs.Rooms.{HasRoom};

    /// The weights of a net's edges.
    pub fn weigh(self, net: &BareNet, edges: &mut [Edge])
        requires room { HasRoom (4 * length net.now.cells.now) self }
        requires ends_known { All (Ends (length net.now.nodes.now)) edges.old }
        ensures { edges.new ≡ map (weighed (nodes_of net.now) net.now.cells.now) edges.old }
    {
        let Room {
            keys,
            row,
            up,
            down,
            right,
            left,
            steps,
        } = self;
        let rows = sort_nodes(net, Axis::Row, keys, row);
        write_gaps(rows, right, left);
        write_steps(rows, steps);
        let columns = sort_nodes(net, Axis::Column, keys, row);
        write_gaps(columns, up, down);
        raise_hanging(net, Way::Up, columns, steps, up);
        raise_hanging(net, Way::Down, columns, steps, down);
        write_steps(columns, steps);
        raise_hanging(net, Way::Right, columns, steps, right);
        raise_hanging(net, Way::Left, columns, steps, left);
        sort_sides(net, keys, row);
        let extents = Extents {
            up,
            down,
            right,
            left,
        };
        weigh_edges(net, &extents, row, edges);
    }
}
