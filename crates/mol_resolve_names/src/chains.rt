//! What names with dots between them begin with, in a member of a source file (JLS 6.5.2).

mod chains;
mod parameter;
mod spelled;

pub use chains::chain_of;
pub use parameter::{Parameter, place_of};
