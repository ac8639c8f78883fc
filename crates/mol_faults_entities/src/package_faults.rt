//! Faults of packages: full names of classes that are packages, or that packages are in.

mod inside;
mod package_classes;
mod package_rows;

pub use package_classes::package_is_class;
