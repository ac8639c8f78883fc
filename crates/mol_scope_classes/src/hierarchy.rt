//! Which classes of a table are ancestors of which, asked of a forest that is made once.

mod forest;
mod hierarchy;
mod line;
mod parents;
mod paths;
mod place;
mod position;
mod weights;

pub use hierarchy::Hierarchy;
pub use parents::living_parent;
pub use paths::Paths;
pub use position::Position;
