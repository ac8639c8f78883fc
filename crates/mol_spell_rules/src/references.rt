//! The references of a value: the names that it prints by what they are the names of, in the order in which they print.
//!
//! They are a definition in `specs/references/`, which the contracts of the crates above cite. The calls here compute nothing: each
//! carries laws of the references.

ghost use Rattle.mol_spell_rules.specs.references.InOrder.{ExpressionsInOrder, StatementsInOrder};
ghost use Rattle.mol_spell_rules.specs.references.Named.{ReferencesName};

/// The law of references: those of a type, an expression, a body or the value of a cell name exactly the identities that it mentions,
/// each as often, but for identities that no source prints.
#[tactic(auto, using(crate::proofs::references_lemmas::NamedBlocks::references_name))]
pub fn references_name()
    ensures { ReferencesName }
{}

/// The order of references: those of the parts of an expression or a statement stand as the parts print, with the name of a member, a
/// call or a creation in its place between them.
#[tactic(auto, using(crate::proofs::references_lemmas::PartsInOrder::expressions_in_order, crate::proofs::references_lemmas::PartsInOrder::statements_in_order))]
pub fn references_in_order()
    ensures of_expressions { ExpressionsInOrder }
    ensures of_statements { StatementsInOrder }
{}
