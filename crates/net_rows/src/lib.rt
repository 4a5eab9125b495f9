//! The rows of a net as a caller lends them (`NetRows`), and the net that they make where they are sound (`SoundNet`):
//! judged once, in one walk over each row.
#![tactic(auto)]

pub mod axis;
pub mod judge;
pub mod polygons;
pub mod rows;
pub mod view;

pub use axis::Axis;
pub use polygons::polygons_below;
pub use rows::{Corners, Edge, MeshNode, NetCell, NetRows, Node, Polygons};
pub use view::SoundNet;
