//! Source files of a scope, as the definitions of programs look at them: the definitions stand in `specs/`, and the call here carries
//! their law.

ghost use Rattle.mol_resolve_members.specs.sources.Sources.{SourcesViewed};

/// The law of source files as files with their paths: their view is that of the scope.
#[tactic(auto, using(crate::proofs::sources_lemmas::Sourced::sources_viewed))]
pub fn sources_viewed()
    ensures { SourcesViewed }
{}
