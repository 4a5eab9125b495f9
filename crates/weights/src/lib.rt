//! The weights of a net's edges: extents, what hangs, faces and conductances.
#![tactic(auto)]

ghost use Rattle.std.specs.Prelude.{◌≡◌, ◌*◌, ◌≤◌, map, length, replicate, All};
ghost use Rattle.net.specs.Net.{weighed, Ends};
ghost use Rattle.weights.specs.Bare.{nodes_of};

pub mod axes;
pub mod extents;
pub mod lent;
mod room;
pub mod sides;
pub mod weigh;

use lent::BareNet;
use net_rows::Edge;
use room::Room;

/// The weights of a net's edges. The work room is zero afterwards.
pub fn apply_weights(net: &BareNet, edges: &mut [Edge], work: &mut [u64])
    requires work_room { 64 * length net.now.cells.now ≤ length work.old }
    requires ends_known { All (Ends (length net.now.nodes.now)) edges.old }
    ensures edges { edges.new ≡ map (weighed (nodes_of net.now) net.now.cells.now) edges.old }
    ensures work_cleared { work.new ≡ replicate (length work.old) 0 }
{
    Room::draw(work, net.cells.len()).weigh(net, edges);
    work.fill(0);
}
