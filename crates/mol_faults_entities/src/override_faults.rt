//! Faults of declarations that would override one another.

mod declaration;
mod key;
mod orders;
mod overridden;
mod override_faults;
mod rivals;
mod rows;
mod runs;

pub use override_faults::false_override;
