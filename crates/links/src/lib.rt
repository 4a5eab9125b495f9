//! The links of a net: contacts, vias and channels, which join polygons and layers behind the mesh edges.
#![tactic(auto)]

pub mod by_layer;
pub mod by_polygon;
mod contacts;
pub mod count;
pub mod entries;
mod footprint;
mod judge;
pub mod laws;
pub mod link;
pub mod nearest;
mod put;
pub mod rows;
pub mod write;

pub use by_polygon::{MeshNet, NetByPolygon};
pub use count::{edge_rows, edges_fit};
pub use link::Link;
pub use rows::{Channel, Contact, Footprint, Links, Terminal, Via};
pub use write::write_links;
