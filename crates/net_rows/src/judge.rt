// Whether the rows of a net make a sound net. Each row has a walk of its own, which isn't laid into its caller: a walk
// is a few tests and little else, and so is quick only where they stay together.
ghost use Rattle.std.specs.Prelude.{◌≡◌, ◌&&◌, length, IsTrue};
ghost use Rattle.std.specs.List.{list_all};
ghost use Rattle.std.specs.Ordering.{int_eq};
ghost use Rattle.net_rows.specs.Nets.{sound_node, sound_edge, known, is_rectangle, rectangle, sound_cell, sound_net};

use crate::{Corners, Edge, NetCell, NetRows, Node};

impl Node {
    /// Whether the node lies at a place, in ticks.
    #[inline(always)]
    pub fn lies_at(self, x: i64, y: i64) -> bool
        ensures { result ≡ (int_eq self.x x && int_eq self.y y) }
    {
        (self.x == x) & (self.y == y)
    }

    fn is_sound(&self) -> bool
        ensures { result ≡ sound_node self.now }
    {
        cell::ticks::in_range(self.x) & cell::ticks::in_range(self.y)
    }
}

impl Edge {
    // Whether both ends are among the first nodes.
    fn is_sound(&self, count: usize) -> bool
        ensures { result ≡ sound_edge count self.now }
    {
        (self.from < count) & (self.to < count)
    }
}

// Tried `==` at each place of the rectangle: the search gives up at so many at once.
fn agree(a: i64, b: i64) -> bool
    ensures { result ≡ int_eq a b }
{
    a == b
}

fn is_rectangle(southwest: Node, southeast: Node, northeast: Node, northwest: Node) -> bool
    ensures { result ≡ is_rectangle southwest southeast northeast northwest }
{
    (southwest.x < southeast.x)
        & (southwest.y < northwest.y)
        & agree(southeast.y, southwest.y)
        & agree(northeast.x, southeast.x)
        & agree(northeast.y, northwest.y)
        & agree(northwest.x, southwest.x)
}

impl Corners {
    // Whether all four are among the first nodes.
    fn are_known(&self, count: usize) -> bool
        ensures { result ≡ known count self.now }
    {
        (self.southwest < count)
            & (self.southeast < count)
            & (self.northeast < count)
            & (self.northwest < count)
    }

    // Whether the four are those of a rectangle. Internal: they stand in the row.
    #[tactic(auto, using(crate::proofs::Sound::known_facts))]
    fn make_rectangle(&self, nodes: &[Node]) -> bool
        requires { IsTrue (known (length nodes.now) self.now) }
        ensures { result ≡ rectangle nodes.now self.now }
    {
        is_rectangle(
            nodes[self.southwest],
            nodes[self.southeast],
            nodes[self.northeast],
            nodes[self.northwest],
        )
    }
}

impl NetCell {
    fn is_sound(&self, nodes: &[Node]) -> bool
        ensures { result ≡ sound_cell nodes.now self.now }
    {
        self.corners.are_known(nodes.len()) && self.corners.make_rectangle(nodes)
    }
}

#[inline(never)]
fn nodes_are_sound(nodes: &[Node]) -> bool
    ensures { result ≡ list_all sound_node nodes.now }
{
    nodes.iter().all(|node| node.is_sound())
}

#[inline(never)]
fn edges_are_sound(count: usize, edges: &[Edge]) -> bool
    ensures { result ≡ list_all (sound_edge count) edges.now }
{
    edges.iter().all(|edge| edge.is_sound(count))
}

#[inline(never)]
fn cells_are_sound(nodes: &[Node], cells: &[NetCell]) -> bool
    ensures { result ≡ list_all (sound_cell nodes.now) cells.now }
{
    cells.iter().all(|cell| cell.is_sound(nodes))
}

impl NetRows<'_> {
    /// Whether the rows are a sound net: the rules' refusal 7 of a net is that they are not. `SoundNet::judge` asks it
    /// once for all.
    #[tactic(auto, unfolding(crate::specs::Nets::sound_net))]
    pub fn are_sound(&self) -> bool
        ensures { result ≡ sound_net self.now.nodes.now self.now.edges.now self.now.cells.now }
    {
        nodes_are_sound(self.nodes)
            && edges_are_sound(self.nodes.len(), self.edges)
            && cells_are_sound(self.nodes, self.cells)
    }
}
