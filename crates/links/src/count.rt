//! How many links a net has, from the table alone: before anything is written.
ghost use Rattle.std.specs.Prelude.{ℕ, ◌≡◌, ◌+◌, ◌*◌, ◌<◌, ◌≤◌, min, max};
ghost use Rattle.std.specs.Prelude.{length, nat_le, List, Float, false, slice_index_or, IsTrue, int_lt, pos};
ghost use Rattle.std.specs.List.{sum_by};
ghost use Rattle.refusals.specs.Limits.{max_polygons, max_slots};
ghost use Rattle.table.specs.Mesh.{at};
ghost use Rattle.table.specs.Tables.{cells};
ghost use Rattle.net.specs.Net.{has, same_node};
ghost use Rattle.places.specs.Leaves.{AreKnown};
ghost use Rattle.links.specs.Made.{has_area};
ghost use Rattle.links.specs.Count.{edge_room, edge_count, most, has_leaf, is_class, has_class, corners_below};
ghost use Rattle.links.specs.Count.{node, is_leaf_of, has_corner, meets, is_new_inside, leaf_adds};
ghost use Rattle.links.specs.Listed.{listed, IsListed, AreListed};
ghost use Rattle.links.specs.Windows.{Reaches, IsInside, IsWindow, misses};
ghost use Rattle.links.specs.Count.{one_if, covered_count, via_count, contact_count, channel_count, IsCount, IsTotal};

use crate::rows::{Channel, Contact, Footprint, Links, Via};
use cell::ticks::offset;
use net_rows::{MeshNode, Polygons};
use refusals::limits;
use table::view::Table;

/// How many edges each leaf has room for, without the links.
pub const EDGES_A_LEAF: usize = 8;

// How corners inside a footprint are counted.
#[derive(Clone, Copy, Debug, PartialEq, Eq)]
enum Counting {
    // As often as they stand: no less than there are nodes.
    EachCorner,
    // Each node once.
    EachNode,
}

impl Via {
    // A place as a node of a layer and the via's component.
    fn node(&self, layer: u16, x: u64, y: u64) -> MeshNode
        ensures { result ≡ node layer self.now.component x y }
    {
        MeshNode {
            layer,
            component: self.component,
            x,
            y,
        }
    }
}

// All that a footprint covers, cut to the board, in the coordinates of a table's cells.
#[derive(Clone, Copy, Debug, PartialEq, Eq)]
struct Window {
    x0: u64,
    y0: u64,
    x1: u64,
    y1: u64,
}

// The first and the last coordinate of a table's cells that are at most so far from a centre in ticks, or more.
fn reach(centre: i64, half: i64) -> (u64, u64)
    requires some { IsTrue (int_lt (pos 0) half) }
    ensures { Reaches centre half result.0 result.1 }
{
    let middle = offset(centre);
    (
        middle.saturating_sub(half as u64),
        middle.saturating_add(half as u64),
    )
}

impl Window {
    fn of(footprint: Footprint) -> Window
        requires area { IsTrue (has_area footprint) }
        ensures { IsWindow footprint result }
    {
        let (x0, x1) = reach(footprint.x, footprint.half_width);
        let (y0, y1) = reach(footprint.y, footprint.half_height);
        Window { x0, y0, x1, y1 }
    }
}

// How many cells near a via are listed. Where there are more, corners are looked for in all cells.
const LISTED: usize = 256;

// The cells so far that are not outside a via's window, by id.
#[derive(Clone, Copy)]
struct Near {
    window: Window,
    ids: [usize; LISTED],
    count: usize,
}

impl Near {
    fn of(window: Window) -> Near
        ensures window { result.window ≡ window }
        ensures none { result.count ≡ 0 }
        ensures room { length result.ids ≡ listed }
    {
        Near {
            window,
            ids: [0; LISTED],
            count: 0,
        }
    }

    // Lists one cell more, while there is room.
    fn add(&mut self, id: usize)
        ensures window { self.new.window ≡ self.old.window }
        ensures listed { IsListed self.old id self.new }
    {
        if self.count < LISTED {
            self.ids[self.count] = id;
            self.count += 1;
        }
    }
}

// The leaves of a net's polygons, by whose corners links are counted.
#[derive(Clone, Copy)]
struct Corners<'a> {
    table: Table<'a>,
    polygons: Polygons<'a>,
    // Whether each polygon has a leaf.
    used: [bool; limits::POLYGONS],
    ghost known: { AreKnown polygons (cells table) },
    ghost few_polygons: { length polygons.layers.now ≤ max_polygons },
    ghost a_component_each: { length polygons.components.now ≡ length polygons.layers.now },
    ghost marked: { (k : ℕ) → k < max_polygons → slice_index_or used k false ≡ has_leaf (cells table) k },
}

// Whether each polygon has a leaf.
fn used(table: &Table) -> [bool; limits::POLYGONS]
    ensures { (k : ℕ) → k < max_polygons → slice_index_or result k false ≡ has_leaf (cells table.now) k }
{
    let mut used = [false; limits::POLYGONS];
    for id in 0..table.head.count {
        if table.is_leaf(id) {
            used[table.polygon(id) as usize] = true;
        }
    }
    used
}

impl<'a> Corners<'a> {
    fn of(table: &Table<'a>, polygons: Polygons<'a>) -> Corners<'a>
        requires known { AreKnown polygons (cells table.now) }
        requires few_polygons { length polygons.layers.now ≤ max_polygons }
        requires a_component_each { length polygons.components.now ≡ length polygons.layers.now }
        ensures table { result.table ≡ table.now }
        ensures polygons { result.polygons ≡ polygons.entry }
    {
        Corners {
            table: *table,
            polygons,
            used: used(table),
        }
    }

    // The sides of a cell, each read by itself, as most cells are told by one or two.
    #[tactic(auto, using(crate::proofs::Marks::sides_read))]
    fn west(&self, id: usize) -> u64
        requires { id < self.now.table.head.count }
        ensures { result ≡ (at (cells self.now.table) id).box.x0 }
    {
        offset(self.table.row[id * 8])
    }

    #[tactic(auto, using(crate::proofs::Marks::sides_read))]
    fn south(&self, id: usize) -> u64
        requires { id < self.now.table.head.count }
        ensures { result ≡ (at (cells self.now.table) id).box.y0 }
    {
        offset(self.table.row[id * 8 + 1])
    }

    #[tactic(auto, using(crate::proofs::Marks::sides_read))]
    fn east(&self, id: usize) -> u64
        requires { id < self.now.table.head.count }
        ensures { result ≡ (at (cells self.now.table) id).box.x1 }
    {
        offset(self.table.row[id * 8 + 2])
    }

    #[tactic(auto, using(crate::proofs::Marks::sides_read))]
    fn north(&self, id: usize) -> u64
        requires { id < self.now.table.head.count }
        ensures { result ≡ (at (cells self.now.table) id).box.y1 }
    {
        offset(self.table.row[id * 8 + 3])
    }

    // Whether a cell has a corner where a node stands.
    fn has_corner(&self, id: usize, node: MeshNode) -> bool
        requires { id < self.now.table.head.count }
        ensures { result ≡ has_corner (at (cells self.now.table) id).box node }
    {
        (self.west(id) == node.x || self.east(id) == node.x)
            && (self.south(id) == node.y || self.north(id) == node.y)
    }

    // Whether a cell lies outside a window, so that no corner of it is covered.
    fn is_outside(&self, id: usize, window: Window) -> bool
        requires { id < self.now.table.head.count }
        ensures { result ≡ misses window (at (cells self.now.table) id).box }
    {
        self.east(id) < window.x0
            || window.x1 < self.west(id)
            || self.north(id) < window.y0
            || window.y1 < self.south(id)
    }

    // Whether a polygon has a leaf. None past the last polygon has.
    fn has_leaf(&self, polygon: usize) -> bool
        ensures { result ≡ has_leaf (cells self.now.table) polygon }
    {
        polygon < limits::POLYGONS && self.used[polygon]
    }

    // Whether a polygon is of a layer and component.
    fn is_class(&self, polygon: usize, layer: u16, component: u32) -> bool
        requires { polygon < length self.now.polygons.layers.now }
        ensures { result ≡ is_class self.now.polygons layer component polygon }
    {
        self.polygons.layers[polygon] == layer && self.polygons.components[polygon] == component
    }

    // Whether a layer and component has a node: one of its polygons has a leaf.
    fn has_class(&self, layer: u16, component: u32) -> bool
        ensures { result ≡ has_class (cells self.now.table) self.now.polygons layer component }
    {
        for polygon in 0..self.polygons.layers.len() {
            if self.is_class(polygon, layer, component) && self.has_leaf(polygon) {
                return true;
            }
        }
        false
    }

    // Whether a leaf is one of a layer and component.
    fn is_of(&self, id: usize, layer: u16, component: u32) -> bool
        requires { id < self.now.table.head.count }
        ensures { result ≡ is_leaf_of (cells self.now.table) self.now.polygons layer component id }
    {
        self.table.is_leaf(id) && self.is_class(self.table.polygon(id) as usize, layer, component)
    }

    // Whether a leaf has a corner at a node, and is of its layer and component.
    fn meets(&self, id: usize, node: MeshNode) -> bool
        requires { id < self.now.table.head.count }
        ensures { result ≡ meets (cells self.now.table) self.now.polygons node id }
    {
        self.has_corner(id, node) && self.is_of(id, node.layer, node.component)
    }

    // Whether a leaf before this one has a corner at a node inside the window, where all cells so far are listed.
    fn is_listed(&self, id: usize, node: MeshNode, near: &Near) -> bool
        requires there { id < self.now.table.head.count }
        requires listed { AreListed (cells self.now.table) near.now id }
        requires room { near.now.count < listed }
        requires inside { IsInside near.now.window node }
        ensures { result ≡ has same_node (corners_below (cells self.now.table) self.now.polygons id) node }
    {
        for place in 0..near.count {
            if self.meets(near.ids[place], node) {
                return true;
            }
        }
        false
    }

    // Whether a leaf before this one has a corner at a node. From the last, as a leaf's neighbours are mostly near it.
    fn is_anywhere(&self, id: usize, node: MeshNode) -> bool
        requires { id < self.now.table.head.count }
        ensures { result ≡ has same_node (corners_below (cells self.now.table) self.now.polygons id) node }
    {
        let mut earlier = id;
        while earlier > 0 {
            earlier -= 1;
            if self.meets(earlier, node) {
                return true;
            }
        }
        false
    }

    // Whether a leaf before this one has a corner at a node inside the window.
    fn is_met(&self, id: usize, node: MeshNode, near: &Near) -> bool
        requires there { id < self.now.table.head.count }
        requires listed { AreListed (cells self.now.table) near.now id }
        requires inside { IsInside near.now.window node }
        ensures { result ≡ has same_node (corners_below (cells self.now.table) self.now.polygons id) node }
    {
        if near.count < LISTED {
            self.is_listed(id, node, near)
        } else {
            self.is_anywhere(id, node)
        }
    }

    // Whether a corner of a leaf counts, as 1 or 0.
    fn count_corner(
        &self,
        id: usize,
        via: &Via,
        node: MeshNode,
        near: &Near,
        counting: Counting,
    ) -> usize
        requires there { id < self.now.table.head.count }
        requires listed { AreListed (cells self.now.table) near.now id }
        requires window { IsWindow via.now.footprint near.now.window }
        requires corner { IsTrue (has_corner (at (cells self.now.table) id).box node) }
        requires area { IsTrue (has_area via.now.footprint) }
        ensures counted { IsCount counting
            (one_if (is_new_inside (cells self.now.table) self.now.polygons via.now.footprint id node)) result }
        ensures one { result ≤ 1 }
    {
        let counts = via.footprint.covers(node.in_ticks())
            && (counting == Counting::EachCorner || !self.is_met(id, node, near));
        usize::from(counts)
    }

    // How many corners of a cell count, where it is a leaf of a via's layer.
    fn count_leaf(&self, id: usize, via: &Via, layer: u16, near: &Near, counting: Counting) -> usize
        requires there { id < self.now.table.head.count }
        requires listed { AreListed (cells self.now.table) near.now id }
        requires window { IsWindow via.now.footprint near.now.window }
        requires area { IsTrue (has_area via.now.footprint) }
        ensures counted { IsCount counting (leaf_adds (cells self.now.table) self.now.polygons
            via.now.footprint layer via.now.component id) result }
        ensures few { result ≤ 4 }
    {
        if !self.is_of(id, layer, via.component) {
            return 0;
        }
        let (west, south) = (self.west(id), self.south(id));
        let (east, north) = (self.east(id), self.north(id));
        self.count_corner(id, via, via.node(layer, west, south), near, counting)
            + self.count_corner(id, via, via.node(layer, east, south), near, counting)
            + self.count_corner(id, via, via.node(layer, east, north), near, counting)
            + self.count_corner(id, via, via.node(layer, west, north), near, counting)
    }

    // How many corners of a cell count, where it is a leaf of a via's two layers. Most cells are far from the via.
    fn count_cell(
        &self,
        id: usize,
        via: &Via,
        near: &mut Near,
        counting: Counting,
    ) -> (usize, usize)
        requires there { id < self.now.table.head.count }
        requires area { IsTrue (has_area via.now.footprint) }
        requires listed { AreListed (cells self.now.table) near.old id }
        requires window { IsWindow via.now.footprint near.old.window }
        ensures same_window { near.new.window ≡ near.old.window }
        ensures listed { AreListed (cells self.now.table) near.new (id + 1) }
        ensures bottom { IsCount counting (leaf_adds (cells self.now.table) self.now.polygons
            via.now.footprint via.now.bottom via.now.component id) result.0 }
        ensures top { IsCount counting (leaf_adds (cells self.now.table) self.now.polygons
            via.now.footprint via.now.top via.now.component id) result.1 }
        ensures few_below { result.0 ≤ 4 }
        ensures few_above { result.1 ≤ 4 }
    {
        if self.is_outside(id, near.window) {
            return (0, 0);
        }
        let below = self.count_leaf(id, via, via.bottom, near, counting);
        let above = self.count_leaf(id, via, via.top, near, counting);
        near.add(id);
        (below, above)
    }

    // How many corners count on the two layers of a via, in one walk: none where its footprint is a point.
    fn count_covered(&self, via: &Via, counting: Counting) -> (usize, usize)
        ensures bottom { IsCount counting
            (covered_count (cells self.now.table) self.now.polygons via.now via.now.bottom) result.0 }
        ensures top { IsCount counting
            (covered_count (cells self.now.table) self.now.polygons via.now via.now.top) result.1 }
        ensures few_below { result.0 ≤ 4 * max_slots }
        ensures few_above { result.1 ≤ 4 * max_slots }
    {
        if !via.footprint.has_area() {
            return (0, 0);
        }
        let mut near = Near::of(Window::of(via.footprint));
        let mut below = 0;
        let mut above = 0;
        for id in 0..self.table.head.count {
            let (bottom, top) = self.count_cell(id, via, &mut near, counting);
            below += bottom;
            above += top;
        }
        (below, above)
    }

    // How many nodes a via joins on a layer: those inside its footprint, or else the nearest if there is one.
    fn or_nearest(&self, layer: u16, component: u32, inside: usize) -> usize
        ensures { result ≡ max inside (one_if (has_class (cells self.now.table) self.now.polygons layer component)) }
    {
        inside.max(usize::from(self.has_class(layer, component)))
    }

    // How many links a via makes: one for each pair of nodes.
    fn count_pairs(&self, via: &Via, counting: Counting) -> usize
        ensures { IsCount counting (via_count (cells self.now.table) self.now.polygons via.now) result }
    {
        let (below, above) = self.count_covered(via, counting);
        self.or_nearest(via.bottom, via.component, below)
            * self.or_nearest(via.top, via.component, above)
    }

    fn count_contact(&self, contact: &Contact) -> usize
        ensures { result ≡ contact_count (cells self.now.table) contact.now }
    {
        usize::from(self.has_leaf(contact.from) && self.has_leaf(contact.to))
    }

    fn count_channel(&self, layer: u16, channel: &Channel) -> usize
        ensures { result ≡ channel_count (cells self.now.table) self.now.polygons layer channel.now }
    {
        usize::from(
            self.has_class(layer, channel.drain.component)
                && self.has_class(layer, channel.source.component),
        )
    }

    fn count_contacts(&self, contacts: &[Contact]) -> usize
        ensures { result ≡ min (sum_by (contact_count (cells self.now.table)) contacts.now) most }
    {
        let mut sum: usize = 0;
        for contact in contacts {
            sum = sum.saturating_add(self.count_contact(contact));
        }
        sum
    }

    fn count_vias(&self, vias: &[Via], counting: Counting) -> usize
        ensures { IsTotal counting (sum_by (via_count (cells self.now.table) self.now.polygons) vias.now) result }
    {
        let mut sum: usize = 0;
        for via in vias {
            sum = sum.saturating_add(self.count_pairs(via, counting));
        }
        sum
    }

    fn count_channels(&self, layer: u16, channels: &[Channel]) -> usize
        ensures { result
            ≡ min (sum_by (channel_count (cells self.now.table) self.now.polygons layer) channels.now) most }
    {
        let mut sum: usize = 0;
        for channel in channels {
            sum = sum.saturating_add(self.count_channel(layer, channel));
        }
        sum
    }

    // How many edges there is to be room for: so many a leaf, and one for each link.
    fn count_edges(&self, links: &Links, counting: Counting) -> usize
        ensures { IsTotal counting (edge_count self.now.table self.now.polygons links.now) result }
    {
        (EDGES_A_LEAF * self.table.leaf_count())
            .saturating_add(self.count_contacts(links.contacts))
            .saturating_add(self.count_vias(links.vias, counting))
            .saturating_add(self.count_channels(links.channel_layer, links.channels))
    }
}

/// Whether there is room for the edges of a net with its links: 8 a leaf, and one for each link. Corners are told apart
/// only where there may be too few rows.
pub fn edges_fit(table: &Table, polygons: Polygons, links: &Links, room: usize) -> bool
    requires known { AreKnown polygons (cells table.now) }
    requires few_polygons { length polygons.layers.now ≤ max_polygons }
    requires a_component_each { length polygons.components.now ≡ length polygons.layers.now }
    requires rows { room < most }
    ensures { (sheets : List Float) → result ≡ nat_le (edge_room table.now polygons.entry sheets links.now) room }
{
    let corners = Corners::of(table, polygons);
    corners.count_edges(links, Counting::EachCorner) <= room
        || corners.count_edges(links, Counting::EachNode) <= room
}

/// How many rows of edges a net with its links asks for: 8 a leaf, and one for each link.
pub fn edge_rows(table: &Table, polygons: Polygons, links: &Links) -> usize
    requires known { AreKnown polygons (cells table.now) }
    requires few_polygons { length polygons.layers.now ≤ max_polygons }
    requires a_component_each { length polygons.components.now ≡ length polygons.layers.now }
    ensures { (sheets : List Float) → result ≡ min (edge_room table.now polygons.entry sheets links.now) most }
{
    let corners = Corners::of(table, polygons);
    corners.count_edges(links, Counting::EachNode)
}
