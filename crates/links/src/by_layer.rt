//! The links that go by layers and components: vias and channels.
ghost use Rattle.std.specs.Prelude.{◌≡◌, ◌*◌, ◌≤◌, length, flat_map, All, IsSorted, IsTrue};
ghost use Rattle.std.specs.Ordering.{nat_cmp};
ghost use Rattle.std.specs.Cmp.Lexicographic.{slice_cmp};
ghost use Rattle.refusals.specs.Said.{written};
ghost use Rattle.net_rows.specs.Facts.{IsSoundNode};
ghost use Rattle.links.specs.Lists.{AreRuns};

use crate::entries::{End, EntryList, NodeEntry, candidates, layer_list};
use crate::link::Link;
use crate::nearest::nearest;
use crate::put::{put_link, put_pairs};
use crate::rows::{Channel, Footprint, Terminal, Via};
use net_rows::{Edge, Node};
use sorted::runs::run;

/// A net's nodes, and their entries in order.
#[derive(Clone, Copy)]
pub struct NodesByLayer<'a> {
    pub nodes: &'a [Node],
    pub entries: &'a [NodeEntry],
    ghost sound: { All IsSoundNode nodes.now },
    ghost sorted: { IsSorted (slice_cmp nat_cmp) entries.now },
    ghost runs: { AreRuns nodes.now entries.now },
}

impl NodesByLayer<'_> {
    ghost use Rattle.links.specs.Judged.{footprint_in_range, terminal_in_range, via_in_range, channel_in_range};
    ghost use Rattle.links.specs.Made.{via_links, terminal_node, channel_links};
    ghost use Rattle.links.specs.Lists.{AreKnown, numbers_of};
    ghost use Rattle.links.specs.Nets.{side_among};

    // The nodes of a side of a via into the front of a row: the candidates inside the footprint, or else the nearest to
    // its centre. Returns how many there are.
    fn write_side(&self, footprint: &Footprint, candidates: &[NodeEntry], into: &mut [u64]) -> usize
        requires in_range { IsTrue (footprint_in_range footprint.now) }
        requires known { AreKnown self.now.nodes.now candidates.now }
        requires room { length candidates.now ≤ length into.old }
        ensures count { result ≡ length (side_among self.now.nodes.now footprint.now (numbers_of candidates.now)) }
        ensures row { into.new
            ≡ written (side_among self.now.nodes.now footprint.now (numbers_of candidates.now)) into.old }
    {
        let count = footprint.write_inside(self.nodes, candidates, into);
        if count > 0 {
            return count;
        }
        let list = EntryList {
            entries: candidates,
        };
        let Some(number) = nearest(self.nodes, footprint.x, footprint.y, &list) else {
            return 0;
        };
        into[0] = number as u64;
        1
    }

    // The nodes of a side of a via, in the front of a row.
    fn side<'b>(
        &self,
        footprint: &Footprint,
        candidates: &[NodeEntry],
        room: &'b mut [u64],
    ) -> &'b [u64]
        requires in_range { IsTrue (footprint_in_range footprint.now) }
        requires known { AreKnown self.now.nodes.now candidates.now }
        requires room { length candidates.now ≤ length room.old }
        ensures { result.now ≡ side_among self.now.nodes.now footprint.now (numbers_of candidates.now) }
    {
        let count = self.write_side(footprint, candidates, room);
        &room[..count]
    }

    // The links of a via: from each node of its bottom side to each of its top side. Returns how many there are. The
    // sides are scratch.
    #[tactic(auto, unfolding(crate::specs::Made::via_links, crate::specs::Made::side_of))]
    fn write_via(&self, via: &Via, sides: &mut [u64], edges: &mut [Edge]) -> usize
        requires in_range { IsTrue (via_in_range via.now) }
        requires side_room { 2 * length self.now.nodes.now ≤ length sides.old }
        requires room { length (via_links self.now.nodes.now via.now) ≤ length edges.old }
        ensures count { result ≡ length (via_links self.now.nodes.now via.now) }
        ensures row { edges.new ≡ written (via_links self.now.nodes.now via.now) edges.old }
    {
        let lower = layer_list(self.entries, via.bottom);
        let upper = layer_list(self.entries, via.top);
        let (bottom_room, top_room) = sides.split_at_mut(self.nodes.len());
        let at_bottom = candidates(lower, upper, via, End::Bottom);
        let bottom = self.side(&via.footprint, at_bottom, bottom_room);
        let at_top = candidates(lower, upper, via, End::Top);
        let top = self.side(&via.footprint, at_top, top_room);
        let conductance = Link::Via(via.resistance).conductance(bottom.len() * top.len());
        put_pairs(conductance, bottom, top, edges)
    }

    /// The links of vias, in order. Returns how many there are. The sides are scratch.
    pub fn write_vias(&self, vias: &[Via], sides: &mut [u64], edges: &mut [Edge]) -> usize
        requires in_range { All (λ v. IsTrue (via_in_range v)) vias.now }
        requires side_room { 2 * length self.now.nodes.now ≤ length sides.old }
        requires room { length (flat_map (via_links self.now.nodes.now) vias.now) ≤ length edges.old }
        ensures count { result ≡ length (flat_map (via_links self.now.nodes.now) vias.now) }
        ensures row { edges.new ≡ written (flat_map (via_links self.now.nodes.now) vias.now) edges.old }
    {
        let mut count = 0;
        for via in vias {
            count += self.write_via(via, sides, &mut edges[count..]);
        }
        count
    }

    // The node of a terminal; none where its list is empty.
    fn terminal_node(&self, layer: u16, terminal: &Terminal) -> Option<usize>
        requires { IsTrue (terminal_in_range terminal.now) }
        ensures { result ≡ terminal_node self.now.nodes.now layer terminal.now }
    {
        let list = EntryList {
            entries: run(self.entries, &[layer as u64, terminal.component as u64]),
        };
        nearest(self.nodes, terminal.x, terminal.y, &list)
    }

    // The link of a channel, where both terminals have a node. Returns how many that is.
    #[tactic(auto, unfolding(crate::specs::Made::channel_links))]
    fn write_channel(&self, layer: u16, channel: &Channel, edges: &mut [Edge]) -> usize
        requires in_range { IsTrue (channel_in_range channel.now) }
        requires room { length (channel_links self.now.nodes.now layer channel.now) ≤ length edges.old }
        ensures count { result ≡ length (channel_links self.now.nodes.now layer channel.now) }
        ensures row { edges.new ≡ written (channel_links self.now.nodes.now layer channel.now) edges.old }
    {
        let Some(drain) = self.terminal_node(layer, &channel.drain) else {
            return 0;
        };
        let source = self.terminal_node(layer, &channel.source);
        put_link(
            Link::Channel(channel.resistance).conductance(1),
            drain,
            source,
            edges,
        )
    }

    /// The links of channels, in order. Returns how many there are.
    pub fn write_channels(&self, layer: u16, channels: &[Channel], edges: &mut [Edge]) -> usize
        requires in_range { All (λ c. IsTrue (channel_in_range c)) channels.now }
        requires room { length (flat_map (channel_links self.now.nodes.now layer) channels.now) ≤ length edges.old }
        ensures count { result ≡ length (flat_map (channel_links self.now.nodes.now layer) channels.now) }
        ensures row { edges.new ≡ written (flat_map (channel_links self.now.nodes.now layer) channels.now) edges.old }
    {
        let mut count = 0;
        for channel in channels {
            count += self.write_channel(layer, channel, &mut edges[count..]);
        }
        count
    }
}
