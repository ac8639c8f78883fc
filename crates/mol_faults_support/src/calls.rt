//! What a value calls and creates.
ghost use Rattle.std.specs.Prelude.{◌≡◌, ◌↔◌, Contains, IfOk};
ghost use Rattle.std.specs.List.{filter_map};
ghost use Rattle.mol_base.specs.declared.ident.Id.{Id as Identity};
ghost use Rattle.mol_faults_mentions.specs.mentions.Kept.{kept_mention};
ghost use Rattle.mol_spell_rules.specs.Support.{Calls};
ghost use Rattle.mol_faults_support.specs.Calls.{called_by, AreConstructors};

use crate::declaration_index::DeclarationIndex;
use crate::identities::{add_some, set_of};
use mol_base::{Id, OutOfMemory};
use mol_faults_mentions::{Mention, Role, default_creations, mentions_of};
use mol_values_types::Value;
use std::alloc::Global;

/// The methods and constructors that a value calls.
pub(crate) fn called_methods(alloc: Global, value: &Value) -> Result<Vec<Id>, OutOfMemory>
    ensures { IfOk result (λ methods. (method : Identity) → Contains methods.items method ↔ Calls value.now method) }
{
    let mentioned = mentions_of(alloc, value)?;
    let mentions = mentioned.items();
    called_among(alloc, mentions)
}

/// The methods and constructors that are called, of all that is mentioned.
fn called_among(alloc: Global, mentions: &[Mention]) -> Result<Vec<Id>, OutOfMemory>
    ensures { IfOk result (λ methods. methods.items ≡ filter_map (λ mention. called_by (kept_mention mention)) mentions.now) }
{
    let mut methods = Vec::new(alloc);
    for mention in mentions {
        add_some(&mut methods, called_by(mention))?;
    }
    Ok(methods)
}

/// The method or constructor, if this is a call of one.
fn called_by(mention: &Mention) -> Option<Id>
    ensures { result ≡ called_by (kept_mention mention.now) }
{
    match mention.role {
        Role::CalledMethod => Some(mention.id),
        Role::StaticMethod => Some(mention.id),
        Role::Constructor => Some(mention.id),
        _ => None,
    }
}

/// The declarations of the constructors of those classes that a value creates by their default constructors.
pub(crate) fn created_constructors(
    alloc: Global,
    index: &DeclarationIndex<'_>,
    value: &Value,
) -> Result<Vec<Id>, OutOfMemory>
    ensures { IfOk result (λ found. AreConstructors index.now value.now found.items) }
{
    let created = default_creations(alloc, value)?;
    let classes = set_of(alloc, created.as_slice())?;
    index.constructors_of(alloc, classes.as_slice())
}
