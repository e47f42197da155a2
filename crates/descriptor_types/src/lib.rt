//! Layouts, descriptors and operator trees.
#![tactic(auto)]

mod desc;
mod laws;
mod layout;
mod mask;
mod tree;

pub use desc::Desc;
pub use laws::{descriptor_laws, place_laws};
pub use layout::Layout;
pub use mask::Mask;
pub use pr_value::Property;
pub use tree::{Tree, push_views};
