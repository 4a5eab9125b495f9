// A net that was judged once: what holds of it is kept by its type, so no function over it asks again.
ghost use Rattle.std.specs.Prelude.{◌≡◌, ◌+◌, ◌<◌, ◌≤◌, ◌↔◌, nat_abs, ◌-ℤ◌, length, IsSome, IfSome};
ghost use Rattle.refusals.specs.Limits.{coordinate};
ghost use Rattle.net_rows.specs.Nets.{IsSound, nth_cell, width_of, height_of};
ghost use Rattle.net_rows.specs.Facts.{IsGap, AreKnown, IsSoundNet};

use crate::{NetCell, NetRows, Node};

/// Rows that make a sound net.
#[derive(Clone, Copy)]
pub struct SoundNet<'a> {
    pub rows: NetRows<'a>,
    ghost sound: { IsSound rows },
}

impl Node {
    // How many ticks the node lies to the east of another. Internal: it does, and both are in range.
    #[inline(always)]
    fn ticks_east_of(self, west: Node) -> u64
        requires { IsGap (self.x -ℤ west.x) }
        ensures { result ≡ nat_abs (self.x -ℤ west.x) }
    {
        (self.x - west.x) as u64
    }

    // How many ticks the node lies to the north of another. Internal: it does, and both are in range.
    #[inline(always)]
    fn ticks_north_of(self, south: Node) -> u64
        requires { IsGap (self.y -ℤ south.y) }
        ensures { result ≡ nat_abs (self.y -ℤ south.y) }
    {
        (self.y - south.y) as u64
    }
}

impl<'a> SoundNet<'a> {
    /// The rows as a net; none where they are not sound.
    #[inline(always)]
    pub fn judge(rows: &NetRows<'a>) -> Option<SoundNet<'a>>
        ensures sound { IsSome result ↔ IsSound rows.now }
        ensures facts { IsSome result ↔ IsSoundNet rows.now.nodes.now rows.now.edges.now rows.now.cells.now }
        ensures same_rows { IfSome result (λ net. net.rows ≡ rows.now) }
    {
        if rows.are_sound() {
            Some(SoundNet { rows: *rows })
        } else {
            None
        }
    }

    #[inline(always)]
    pub fn cell(&self, c: usize) -> NetCell
        requires { c < length self.now.rows.cells.now }
        ensures cell { result ≡ nth_cell self.now.rows.cells.now c }
        ensures known { AreKnown (length self.now.rows.nodes.now) result.corners }
    {
        self.rows.cells[c]
    }

    /// How many ticks a cell is wide.
    #[inline(always)]
    pub fn width(&self, c: usize) -> u64
        requires { c < length self.now.rows.cells.now }
        ensures ticks { result ≡ width_of self.now.rows.nodes.now (nth_cell self.now.rows.cells.now c) }
        ensures in_range { result ≤ coordinate + coordinate }
    {
        let corners = self.cell(c).corners;
        let nodes = self.rows.nodes;
        nodes[corners.southeast].ticks_east_of(nodes[corners.southwest])
    }

    /// How many ticks a cell is high.
    #[inline(always)]
    pub fn height(&self, c: usize) -> u64
        requires { c < length self.now.rows.cells.now }
        ensures ticks { result ≡ height_of self.now.rows.nodes.now (nth_cell self.now.rows.cells.now c) }
        ensures in_range { result ≤ coordinate + coordinate }
    {
        let corners = self.cell(c).corners;
        let nodes = self.rows.nodes;
        nodes[corners.northwest].ticks_north_of(nodes[corners.southwest])
    }
}
