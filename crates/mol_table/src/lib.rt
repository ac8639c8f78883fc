//! Whole programs as tables: what each class, method, declaration, field and parameter is, cell by cell. The values of
//! the cells and their trees are those of `mol_values_types`.
#![tactic(auto)]

mod maps;
mod table;
mod tidy;

pub use maps::Maps;
pub use table::Table;
