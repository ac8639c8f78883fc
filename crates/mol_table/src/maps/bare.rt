//! Of each class, the least living constructor without parameters.
ghost use Rattle.std.specs.Prelude.{◌≡◌, ◌++◌, ◌∷◌, [], List, IfOk, OnOk, Some, cond};
ghost use Rattle.mol_table.specs.Bare.{bare_of, bare_by, lesser};
ghost use Rattle.mol_table.specs.Maps.{program_in};
ghost use Rattle.mol_table_rules.specs.Program.{owner_at, same_id};
ghost use Rattle.mol_table_rules.specs.Tidy.{bare_constructor};
ghost use Rattle.mol_table.specs.Tidying.{bare_in};

use crate::maps::Maps;
use indexmap::IndexMap;
use mol_base::{Id, OutOfMemory};
use mol_values_types::{Cell, Known, MethodKind, Slot, Value};
use std::alloc::Global;

impl Maps {
    /// The constructor without parameters of which an identity is a living declaration, if it is one.
    fn bare_of(&self, id: &Id) -> Option<Id>
        ensures { result ≡ bare_of (program_in self.now) id.now }
    {
        match self.living_of(id) {
            Some(method) => match self.find(&method) {
                Some(Known::Method(MethodKind::Constructor)) => {
                    if self.params(&method).is_empty() {
                        Some(method)
                    } else {
                        None
                    }
                },
                _ => None,
            },
            None => None,
        }
    }

    /// The class in which an identity stands.
    pub fn owner(&self, id: &Id) -> Option<Id>
        ensures { result ≡ owner_at (program_in self.now) id.now }
    {
        let cell = Cell {
            id: *id,
            slot: Slot::Owner,
        };
        match self.value(&cell) {
            Some(Value::Owner(owner)) => Some(*owner),
            _ => None,
        }
    }

    /// Gives the class of a living declaration the constructor without parameters that it declares, if it
    /// declares one and the class has no lesser one.
    fn note_bare(&self, index: &mut IndexMap<Id, Id>, decl: &Id) -> Result<(), OutOfMemory>
        ensures { OnOk result ((class : Id) (decls : List Id) →
            bare_in index.old.entries class ≡ bare_by (program_in self.now) class decls →
            bare_in index.new.entries class ≡ bare_by (program_in self.now) class (decls ++ decl.now ∷ [])) }
    {
        let Some(constructor) = self.bare_of(decl) else {
            return Ok(());
        };
        let Some(class) = self.owner(decl) else {
            return Ok(());
        };
        put_lesser(index, class, constructor)
    }

    /// Of each class that has one, its least living constructor without parameters. The time is that of
    /// some look-ups for each identity.
    pub(crate) fn bare_constructors(&self, alloc: Global) -> Result<IndexMap<Id, Id>, OutOfMemory>
        ensures { IfOk result (λ index. (class : Id) →
            bare_in index.entries class ≡ bare_constructor (program_in self.now) class) }
    {
        let mut index = IndexMap::new(alloc);
        for id in self.known.keys().as_slice() {
            self.note_bare(&mut index, id)?;
        }
        Ok(index)
    }
}

/// Gives a class a constructor, unless it has a lesser one.
fn put_lesser(index: &mut IndexMap<Id, Id>, class: Id, constructor: Id) -> Result<(), OutOfMemory>
    ensures { OnOk result ((at : Id) → bare_in index.new.entries at
        ≡ cond (same_id at class) (Some (lesser (bare_in index.old.entries class) constructor)) (bare_in index.old.entries at)) }
{
    let least = match index.get(&class) {
        Some(least) => lesser(least, constructor),
        None => constructor,
    };
    let _ = index.insert(class, least)?;
    Ok(())
}

/// The lesser of two identities.
fn lesser(least: &Id, id: Id) -> Id
    ensures { result ≡ lesser (Some least.now) id }
{
    if id < *least { id } else { *least }
}
