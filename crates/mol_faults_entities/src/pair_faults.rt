//! Faults of pairs of entities: those that a source names alike. And the addresses by which it names them.

mod address;
mod address_faults;
mod address_kind;
mod addressed;
mod addresses;
mod pair;
mod sharing;

pub use address::Address;
pub use address_faults::same_address;
pub use address_kind::AddressKind;
pub use addresses::entity_address;
pub use pair::{Pair, add_pair, ordered};
