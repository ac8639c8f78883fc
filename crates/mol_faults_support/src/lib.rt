//! The cells that a fault of a program rests on.
#![tactic(auto)]

mod addresses;
mod calls;
mod clashes;
mod declaration_index;
mod headers;
mod identities;
mod life;
mod link;
mod links;
mod methods;
mod misread;
mod missing;
mod pairs;
mod slots;
mod supports;
mod ways;

pub use declaration_index::DeclarationIndex;
pub use supports::support;
