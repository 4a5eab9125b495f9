// The nodes by their places and the edges by their ends, in order: two rows of plain entries in place of two maps.
ghost use Rattle.std.specs.Prelude.{◌≡◌, ◌<◌, length, Contains, IsTrue, IsFalse, IfSome, IfNone, IsSorted};
ghost use Rattle.std.specs.Ordering.{nat_cmp};
ghost use Rattle.std.specs.Cmp.Lexicographic.{slice_cmp};
ghost use Rattle.checks.specs.Scopes.{class_of};
ghost use Rattle.checks.specs.Entries.{place_entry, pair_entry, IsPlaced, IsPaired, IsNearest, NoneInside};
ghost use Rattle.net_rows.specs.Nets.{pair_of};

use crate::asked::{Class, Place, Scope};
use crate::lookup::Lookup;
use net_rows::{Axis, Edge, MeshNode, Node, SoundNet};
use sorted::{Entries, sort_entries};

/// Layer and component of a node, or 0 where they don't count, its place, and its number.
pub type PlaceEntry = [u64; 5];

/// The two nodes of an edge, the lesser first.
pub type PairEntry = [u64; 2];

/// A net with its edges in order.
#[derive(Clone, Copy)]
pub struct PairedNet<'a> {
    pub net: SoundNet<'a>,
    pub pairs: &'a [PairEntry],
    ghost in_order: { ∥ IsPaired net.rows.edges.now pairs.now ∥₁ },
}

/// A net with its nodes in order too: an answer is what this net has.
#[derive(Clone, Copy)]
pub struct Index<'a> {
    pub paired: PairedNet<'a>,
    /// Along whose lines the places stand.
    pub axis: Axis,
    pub places: &'a [PlaceEntry],
}

impl Class {
    ghost use Rattle.checks.specs.Entries.{key_of};

    // What the entries of a place's nodes begin with; the place faces their axis.
    fn key(self, place: Place) -> [u64; 4]
        ensures { result ≡ key_of self place }
    {
        match self {
            Class::Any => [0, 0, place.x, place.y],
            Class::Of { layer, component } => {
                [u64::from(layer), u64::from(component), place.x, place.y]
            }
        }
    }
}

impl Scope<'_> {
    ghost use Rattle.checks.specs.Entries.{names_of};

    // What tells the nodes of one place apart.
    fn names(self, node: MeshNode) -> (u64, u64)
        ensures { result ≡ names_of (class_of self.entry 0) node }
    {
        match self {
            Scope::Everywhere => (0, 0),
            Scope::ByLayer(_) => (u64::from(node.layer), u64::from(node.component)),
        }
    }
}

// The entries of nodes, by number.
#[derive(Clone, Copy)]
struct NodePlaces<'a> {
    nodes: &'a [Node],
    scope: Scope<'a>,
    axis: Axis,
}

impl Entries<5> for NodePlaces<'_> {
    ghost count = { λ s. length s.nodes.now };

    ghost entry = { λ s n. place_entry s.axis (class_of s.scope 0) s.nodes.now n };

    fn entry(&self, n: usize) -> PlaceEntry {
        let node = self.nodes[n].in_mesh();
        let (layer, component) = self.scope.names(node);
        let place = Place {
            x: node.x,
            y: node.y,
        };
        let place = place.facing(self.axis);
        [layer, component, place.x, place.y, n as u64]
    }
}

/// The entries of the nodes, in order along the lines of an axis; the keys are scratch. Internal: the rows have one for
/// each.
pub fn sort_places<'a>(
    nodes: &'a [Node],
    scope: Scope<'a>,
    axis: Axis,
    keys: &mut [u64],
    row: &mut [PlaceEntry],
)
    requires a_key_each { length keys.old ≡ length nodes.now }
    requires an_entry_each { length row.old ≡ length nodes.now }
    ensures { IsPlaced axis (class_of scope.entry 0) nodes.now row.new }
{
    sort_entries(&NodePlaces { nodes, scope, axis }, keys, row);
}

fn pair_of(a: usize, b: usize) -> PairEntry
    ensures { result ≡ pair_of a b }
{
    [a.min(b) as u64, a.max(b) as u64]
}

// The entries of edges, by number.
#[derive(Clone, Copy)]
struct EdgeEnds<'a> {
    edges: &'a [Edge],
}

impl Entries<2> for EdgeEnds<'_> {
    ghost count = { λ s. length s.edges.now };

    ghost entry = { λ s e. pair_entry s.edges.now e };

    fn entry(&self, e: usize) -> PairEntry {
        let edge = self.edges[e];
        pair_of(edge.from, edge.to)
    }
}

/// The entries of the edges, in order; the keys are scratch. Internal: the rows have one for each.
pub fn sort_pairs(edges: &[Edge], keys: &mut [u64], row: &mut [PairEntry])
    requires a_key_each { length keys.old ≡ length edges.now }
    requires an_entry_each { length row.old ≡ length edges.now }
    ensures { IsPaired edges.now row.new }
{
    sort_entries(&EdgeEnds { edges }, keys, row);
}

// Whether an edge joins the two nodes of a pair.
fn has_pair(row: &[PairEntry], pair: PairEntry) -> bool
    requires { IsSorted (slice_cmp nat_cmp) row.now }
    ensures found { IsTrue result → Contains row.now pair }
    ensures absent { IsFalse result → Contains row.now pair → ⊥ }
{
    row.binary_search(&pair).is_ok()
}

// How far along its line the next node stands: the first past a place, on the way to `to`, if it comes before that.
// The place faces the axis.
#[inline(always)]
fn next_along(row: &[PlaceEntry], class: Class, from: Place, to: u64) -> Option<u64>
    requires { IsSorted (slice_cmp nat_cmp) row.now }
    ensures found { IfSome result (λ y. IsNearest row.now class from to y) }
    ensures none { IfNone result (NoneInside row.now class from to) }
{
    let key = class.key(from);
    let [layer, component, line, _] = key;
    if from.y < to {
        let &[l, c, x, y, _] = row[sorted::runs::count_upto(row, &key)..].first()?;
        ((l == layer) & (c == component) & (x == line) & (y < to)).then_some(y)
    } else {
        let &[l, c, x, y, _] = row[..sorted::runs::count_below(row, &key)].last()?;
        ((l == layer) & (c == component) & (x == line) & (to < y)).then_some(y)
    }
}

/// The net in order: each place and each edge is looked for by halving.
impl Lookup for Index<'_> {
    ghost nodes = { λ index. index.paired.net.rows.nodes.now };

    ghost edges = { λ index. index.paired.net.rows.edges.now };

    ghost serves = { λ index class. IsPlaced index.axis class index.paired.net.rows.nodes.now index.places.now };

    ghost goes = { λ index axis. index.axis ≡ axis };

    #[inline(always)]
    fn node_at(&self, class: Class, place: Place) -> Option<usize> {
        let key = class.key(place.facing(self.axis));
        let &[.., number] = sorted::runs::last(self.places, &key)?;
        Some(number as usize)
    }

    #[inline(always)]
    fn next_place(&self, class: Class, axis: Axis, from: Place, to: Place) -> Option<Place> {
        let (from, to) = (from.facing(axis), to.facing(axis));
        let y = next_along(self.places, class, from, to.y)?;
        Some(Place { x: from.x, y }.facing(axis))
    }

    fn are_joined(&self, a: usize, b: usize) -> bool {
        has_pair(self.paired.pairs, pair_of(a, b))
    }
}
