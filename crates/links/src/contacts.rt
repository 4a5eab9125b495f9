//! The links of contacts.
ghost use Rattle.std.specs.Prelude.{◌≡◌, ◌<◌, ◌≤◌, [], length, slice_get, slice_index_or, flat_map, IfSome};
ghost use Rattle.refusals.specs.Said.{written};
ghost use Rattle.net_rows.specs.Nets.{nth_node};
ghost use Rattle.links.specs.Made.{nearest, contact_links};
ghost use Rattle.links.specs.Nets.{lists_of};

use crate::by_polygon::NetByPolygon;
use crate::link::Link;
use crate::nearest::{first, nearest};
use crate::put::put_link;
use crate::rows::Contact;
use net_rows::Edge;

impl NetByPolygon<'_> {
    // A polygon's first node.
    fn first_node(&self, polygon: usize) -> Option<usize>
        ensures known { IfSome result (λ i. i < length self.now.nodes.now) }
        ensures first { result ≡ slice_get (slice_index_or (lists_of self.now) polygon []) 0 }
    {
        first(&self.corners_of(polygon))
    }

    // A polygon's node that is nearest to a node.
    fn nearest_node(&self, polygon: usize, from: usize) -> Option<usize>
        requires { from < length self.now.nodes.now }
        ensures { let nodes = self.now.nodes.now in
            result ≡ nearest nodes (nth_node nodes from).x (nth_node nodes from).y
            (slice_index_or (lists_of self.now) polygon []) }
    {
        let node = self.nodes[from];
        nearest(self.nodes, node.x, node.y, &self.corners_of(polygon))
    }

    // The link of a contact, where both polygons have a node. Returns how many that is.
    #[tactic(auto, unfolding(crate::specs::Made::contact_links))]
    fn write_contact(&self, contact: Contact, edges: &mut [Edge]) -> usize
        requires room { length (contact_links self.now.nodes.now (lists_of self.now) contact) ≤ length edges.old }
        ensures count { result ≡ length (contact_links self.now.nodes.now (lists_of self.now) contact) }
        ensures row { edges.new ≡ written (contact_links self.now.nodes.now (lists_of self.now) contact) edges.old }
    {
        let Some(from) = self.first_node(contact.from) else {
            return 0;
        };
        let to = self.nearest_node(contact.to, from);
        put_link(Link::Contact.conductance(1), from, to, edges)
    }

    /// The links of contacts, in order. Returns how many there are.
    pub fn write_contacts(&self, contacts: &[Contact], edges: &mut [Edge]) -> usize
        requires room { length (flat_map (contact_links self.now.nodes.now (lists_of self.now)) contacts.now)
            ≤ length edges.old }
        ensures count { result ≡ length (flat_map (contact_links self.now.nodes.now (lists_of self.now)) contacts.now) }
        ensures row { edges.new
            ≡ written (flat_map (contact_links self.now.nodes.now (lists_of self.now)) contacts.now) edges.old }
    {
        let mut count = 0;
        for contact in contacts {
            count += self.write_contact(*contact, &mut edges[count..]);
        }
        count
    }
}
