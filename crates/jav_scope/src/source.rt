//! Source files by their paths.
use jav_tree::Unit;
use mol_base::Text;

/// A source file: where it stands, and what it says.
#[derive(Drop)]
pub struct SourceUnit {
    /// Its path, whose parts are separated by `/`.
    pub path: Text,
    pub unit: Unit,
}
