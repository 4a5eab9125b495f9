// The work room of the checks: how long it is to be, and what stands in it.
ghost use Rattle.std.specs.Prelude.{◌≡◌, ℕ, ◌+◌, ◌*◌, ◌<◌, ◌≤◌, length, replicate};
ghost use Rattle.table.specs.Slots.{cell_at};
ghost use Rattle.checks.specs.Checks.{fault_by};
ghost use Rattle.checks.specs.Scopes.{class_of, Holds};
ghost use Rattle.checks.specs.declared.walk.Sides.TheVariants.{All};
ghost use Rattle.checks.specs.Walks.{sides_along, first_found};
ghost use Rattle.checks.specs.Rooms.{max_nodes, roomy, room_after};

use crate::asked::{Hanging, Scope};
use crate::index::{Index, PairedNet, sort_pairs, sort_places};
use crate::walk::{Found, Sides, earlier, fault_of, first_found};
use net_rows::{Axis, SoundNet};
use table::Table;

// What a net takes of the room, in numbers.
const A_NODE: usize = 9;

const AN_EDGE: usize = 3;

// The most nodes that are put in order.
const NODES: usize = 67108864;

// The entries of a node and of an edge, in numbers; a key for each comes on top.
const A_PLACE: usize = 5;

const A_PAIR: usize = 2;

// Whether the room is long enough for the quick walk, and the nodes are few enough.
#[tactic(auto, unfolding(crate::specs::Rooms::roomy))]
#[inline(always)]
fn has_room(net: &SoundNet, work: &[u64]) -> bool
    ensures { result
        ≡ roomy (length net.now.rows.nodes.now) (length net.now.rows.edges.now) (length work.now) }
{
    let nodes = net.rows.nodes.len();
    nodes <= NODES && A_NODE * nodes + AN_EDGE * net.rows.edges.len() <= work.len()
}

// What is found first by the nodes in order along the lines of an axis. Internal: there is room.
#[tactic(auto, using(crate::proofs::Walks::goes_along))]
fn find_along(
    paired: &PairedNet,
    table: &Table,
    scope: Scope,
    axis: Axis,
    room: &mut [u64],
) -> Option<Found>
    requires room { 6 * length paired.now.net.rows.nodes.now ≤ length room.old }
    requires polygons_there { (i : ℕ) → i < table.now.head.count
        → Holds scope (cell_at table.now.row.now i).poly }
    ensures { let rows = paired.now.net.rows in
        result
        ≡ first_found (class_of scope.entry) (sides_along scope.entry axis) table.now.row.now table.now.head
        rows.nodes.now rows.edges.now }
{
    let nodes = paired.net.rows.nodes;
    let (front, rest) = room.split_at_mut(A_PLACE * nodes.len());
    let (places, _) = front.as_chunks_mut::<A_PLACE>();
    sort_places(nodes, scope, axis, &mut rest[..nodes.len()], places);
    let index = Index {
        paired: *paired,
        axis,
        places,
    };
    first_found(&index, table, scope, scope.sides(axis))
}

// What is found first. By layer the nodes are put in order twice, since there is room for one order at a time: along
// columns for the sides east and west, and along rows for the others. Internal: there is room.
#[tactic(auto, using(crate::proofs::Walks::found_together))]
fn find_in_order(paired: &PairedNet, table: &Table, scope: Scope, room: &mut [u64]) -> Option<Found>
    requires room { 6 * length paired.now.net.rows.nodes.now ≤ length room.old }
    requires polygons_there { (i : ℕ) → i < table.now.head.count
        → Holds scope (cell_at table.now.row.now i).poly }
    ensures { let rows = paired.now.net.rows in
        result
        ≡ first_found (class_of scope.entry) All table.now.row.now table.now.head rows.nodes.now
        rows.edges.now }
{
    let upright = find_along(paired, table, scope, Axis::Column, room);
    match scope {
        Scope::Everywhere => upright,
        Scope::ByLayer(_) => {
            let level = find_along(paired, table, scope, Axis::Row, room);
            earlier(upright, level)
        }
    }
}

// The first fault, by the net in order. Internal: there is room.
#[inline(never)]
#[tactic(auto, using(crate::proofs::Walks::found_fault))]
fn find_quickly(net: &SoundNet, table: &Table, scope: Scope, work: &mut [u64]) -> Option<Hanging>
    requires few_nodes { length net.now.rows.nodes.now ≤ max_nodes }
    requires room { 9 * length net.now.rows.nodes.now + 3 * length net.now.rows.edges.now
        ≤ length work.old }
    requires polygons_there { (i : ℕ) → i < table.now.head.count
        → Holds scope (cell_at table.now.row.now i).poly }
    ensures fault { result
        ≡ fault_by (class_of scope.entry) table.now.row.now table.now.head net.now.rows.nodes.now
        net.now.rows.edges.now }
    ensures zeros { work.new ≡ replicate (length work.old) 0 }
{
    let edges = net.rows.edges;
    let (front, rest) = work.split_at_mut(A_PAIR * edges.len());
    let (pairs, _) = front.as_chunks_mut::<A_PAIR>();
    sort_pairs(edges, &mut rest[..edges.len()], pairs);
    let paired = PairedNet { net: *net, pairs };
    let found = find_in_order(&paired, table, scope, rest);
    work.fill(0);
    fault_of(found)
}

/// The first fault of the leaves by id, with the help of the room where it is long enough; it is zero then. Internal:
/// the polygons of the cells stand in the rows.
#[tactic(auto, using(crate::proofs::Walks::found_fault), unfolding(crate::specs::Rooms::room_after))]
#[inline(always)]
pub fn find_fault(net: &SoundNet, table: &Table, scope: Scope, work: &mut [u64]) -> Option<Hanging>
    requires { (i : ℕ) → i < table.now.head.count → Holds scope (cell_at table.now.row.now i).poly }
    ensures fault { result
        ≡ fault_by (class_of scope.entry) table.now.row.now table.now.head net.now.rows.nodes.now
        net.now.rows.edges.now }
    ensures room { work.new
        ≡ room_after (length net.now.rows.nodes.now) (length net.now.rows.edges.now) work.old }
{
    if has_room(net, work) {
        find_quickly(net, table, scope, work)
    } else {
        fault_of(first_found(net, table, scope, Sides::All))
    }
}
