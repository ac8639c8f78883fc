//! Faults of methods as wholes: methods without a topmost declaration, and names of methods of `Object`.

mod apart_methods;
mod outside_names;

pub use apart_methods::apart;
pub use outside_names::outside_name;
