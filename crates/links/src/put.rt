//! Links into the fronts of rows.
ghost use Rattle.std.specs.Prelude.{◌≡◌, ◌≤◌, Some, map, length};
ghost use Rattle.refusals.specs.Said.{written};
ghost use Rattle.links.specs.Made.{edge, joined, pairs};

use net_rows::Edge;

/// A link to a node, where there is one. Returns how many that is.
#[tactic(auto, unfolding(crate::specs::Made::joined))]
pub fn put_link(conductance: f64, from: usize, to: Option<usize>, edges: &mut [Edge]) -> usize
    requires room { length (joined conductance (Some from) to) ≤ length edges.old }
    ensures count { result ≡ length (joined conductance (Some from) to) }
    ensures row { edges.new ≡ written (joined conductance (Some from) to) edges.old }
{
    let Some(to) = to else {
        return 0;
    };
    edges[0] = Edge {
        from,
        to,
        conductance,
    };
    1
}

// A link from a node to each of a list.
fn put_fan(conductance: f64, from: u64, list: &[u64], edges: &mut [Edge])
    requires { length list.now ≤ length edges.old }
    ensures { edges.new ≡ written (map (edge conductance from) list.now) edges.old }
{
    for (k, to) in list.iter().enumerate() {
        edges[k] = Edge {
            from: from as usize,
            to: *to as usize,
            conductance,
        };
    }
}

/// A link from each node of one list to each of another, by the first. Returns how many there are.
pub fn put_pairs(conductance: f64, bottom: &[u64], top: &[u64], edges: &mut [Edge]) -> usize
    requires room { length (pairs conductance bottom.now top.now) ≤ length edges.old }
    ensures count { result ≡ length (pairs conductance bottom.now top.now) }
    ensures row { edges.new ≡ written (pairs conductance bottom.now top.now) edges.old }
{
    let mut count = 0;
    for from in bottom {
        put_fan(conductance, *from, top, &mut edges[count..]);
        count += top.len();
    }
    count
}
