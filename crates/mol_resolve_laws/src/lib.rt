//! What source files without a fault add to a table, and that it makes a program in plain form.
//!
//! The definitions stand in `specs/`, and the contracts of the crates above cite them. The call here computes nothing: it carries the
//! laws of the definitions.
#![tactic(auto)]

ghost use Rattle.mol_resolve_laws.specs.Laws.{EntitiesPlain};

/// The law of entities: what files without a fault add makes a program, which is theirs in plain form, and as which
/// they read.
#[tactic(auto, using(crate::proofs::EntitiesPlain::entities_plain))]
pub fn entities_plain()
    ensures { EntitiesPlain }
{}
