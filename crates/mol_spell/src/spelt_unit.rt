//! Source files of classes.
use jav_tree::Unit;
use mol_base::{Id, Text};

/// The source file of a class.
#[derive(Drop)]
pub struct SpeltUnit {
    /// The class that the file holds.
    pub class: Id,
    /// The path of the file, relative to the folder of the sources.
    pub path: Text,
    /// The tree. As it comes from no source, each `at` in it is 0.
    pub unit: Unit,
}
