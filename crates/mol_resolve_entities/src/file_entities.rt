//! Classes and members of source files as they are read, beside the entities and the faults that the definitions list.
//!
//! The definitions stand in `specs/file_entities/`, and the contracts of the crates above cite them. The call here computes nothing:
//! it carries the law of the definitions.

ghost use Rattle.mol_resolve_entities.specs.file_entities.EntitiesRead.{EntitiesRead};

/// The law of what is read: the entities that are made of a class, a field, a method and a constructor are those of the files, and its
/// faults are those that are listed of it.
#[tactic(auto, using(crate::proofs::file_entities_lemmas::ReadAtKeys::entities_read))]
pub fn entities_read()
    ensures { EntitiesRead }
{}
