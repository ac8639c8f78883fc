//! Laws of tables, as definitions: values that are tidied by two lists of parameters.
//!
//! The call here computes nothing: it carries the law of the definitions of `mol_table_rules`.
#![tactic(auto)]

ghost use Rattle.mol_table_laws.specs.Laws.{TidiedAlike};

/// The law of tidying: where two lists of parameters agree on what a tidied value mentions, it is tidied alike by both.
#[tactic(auto, using(crate::proofs::Values::tidied_alike))]
pub fn tidied_alike()
    ensures { TidiedAlike }
{}
