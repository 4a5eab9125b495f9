//! The node of a list that is nearest to a place.
ghost use Rattle.std.specs.Prelude.{◌≡◌, ℕ, ◌<◌, List, nat_abs, ◌-ℤ◌, length, slice_get, slice_index, All, IsTrue};
ghost use Rattle.cell.specs.Ticks.{in_range};
ghost use Rattle.floats.specs.Fractions.{float};
ghost use Rattle.net_rows.specs.Facts.{IsSoundNode};
ghost use Rattle.links.specs.Made.{distance, nearest};

use net_rows::Node;

/// Numbers of nodes, one behind the other.
pub trait NodeList {
    ghost numbers: { Self → List ℕ };

    fn count(&self) -> usize
        ensures { result ≡ length (numbers self.now) };

    fn number(&self, k: usize) -> usize
        requires { k < length (numbers self.now) }
        ensures { result ≡ slice_index (numbers self.now) k };
}

/// The first node of a list; none where the list is empty.
pub fn first<L: NodeList>(list: &L) -> Option<usize>
    ensures { result ≡ slice_get (L.numbers list.now) 0 }
{
    if list.count() == 0 {
        return None;
    }
    Some(list.number(0))
}

// How far a coordinate is from another, as a fraction: exactly.
// A signed number becomes a fraction in one instruction, an unsigned one in several.
fn apart(a: i64, b: i64) -> f64
    requires a_in_range { IsTrue (in_range a) }
    requires b_in_range { IsTrue (in_range b) }
    ensures { result ≡ float (nat_abs (a -ℤ b)) }
{
    (a.abs_diff(b) as i64) as f64
}

// The square of how far a node is from a place: two products and a sum, each rounded once.
fn distance(node: Node, x: i64, y: i64) -> f64
    requires sound { IsSoundNode node }
    requires x_in_range { IsTrue (in_range x) }
    requires y_in_range { IsTrue (in_range y) }
    ensures { result ≡ distance x y node }
{
    let dx = apart(node.x, x);
    let dy = apart(node.y, y);
    dx * dx + dy * dy
}

/// The node of a list that is nearest to a place, of equals the first; none where the list is empty.
pub fn nearest<L: NodeList>(nodes: &[Node], x: i64, y: i64, list: &L) -> Option<usize>
    requires sound { All IsSoundNode nodes.now }
    requires x_in_range { IsTrue (in_range x) }
    requires y_in_range { IsTrue (in_range y) }
    requires known { All (λ i. i < length nodes.now) (L.numbers list.now) }
    ensures { result ≡ nearest nodes.now x y (L.numbers list.now) }
{
    let count = list.count();
    if count == 0 {
        return None;
    }
    let mut best = list.number(0);
    let mut least = distance(nodes[best], x, y);
    for k in 1..count {
        let i = list.number(k);
        let far = distance(nodes[i], x, y);
        if far < least {
            best = i;
            least = far;
        }
    }
    Some(best)
}
