//! Faults of entities: pairs that a source names alike, declarations that would override one another, packages, and methods as wholes.
//! And the addresses of entities: where a source names them.
#![tactic(auto)]

mod method_faults;
mod override_faults;
mod package_faults;
mod pair_faults;

pub use method_faults::{apart, outside_name};
pub use override_faults::false_override;
pub use package_faults::package_is_class;
pub use pair_faults::{
    Address, AddressKind, Pair, add_pair, entity_address, ordered, same_address,
};
