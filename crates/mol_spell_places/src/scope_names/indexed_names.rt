//! Any number of names in scope, each found by one look-up.
ghost use Rattle.std.specs.Prelude.{◌≡◌, ◌++◌, ◌∷◌, ◌<◌, ◌^◌, [], IfSome, OnOk, OnErr, length, take};
ghost use Rattle.jav_names.specs.LookUps.{last_place};

use crate::scope_names::nearest::found_at;
use crate::scope_names::scope::{InScope, enter, leave_from};
use indexmap::IndexMap;
use mol_base::OutOfMemory;
use std::alloc::Global;
use std::marker::Model;

/// Names in scope. Contracts see them in the order in which they came into scope, the nearest last.
#[derive(Drop)]
pub(crate) struct IndexedNames<'a> {
    in_scope: Vec<InScope<'a>>,
    /// The place of the nearest in scope of each name; `None` where those of the name are out of scope.
    nearest: IndexMap<&'a str, Option<usize>>,
}

impl<'a> Model for IndexedNames<'a> {
    ghost use Rattle.std.specs.Coded.{coded_list, coded_ℕ};
    ghost use Rattle.jav_names.specs.DottedNames.{Names};
    ghost use Rattle.mol_spell_places.specs.scope_names.Scopes.{names_in, AreNearest};

    ghost Value = { Names };

    ghost coded = { coded_list (coded_list coded_ℕ) };

    ghost view = { λ names. names_in names.in_scope.items };

    ghost invariant = { λ names. AreNearest names.in_scope.items names.nearest.entries };
}

impl<'a> IndexedNames<'a> {
    /// No names. It takes no memory.
    pub fn new(alloc: Global) -> IndexedNames<'a>
        ensures { result ≡ [] }
    {
        IndexedNames {
            in_scope: Vec::new(alloc),
            nearest: IndexMap::new(alloc),
        }
    }

    /// The place of the nearest of a name, from 0. It takes no memory, and about the same time however many there are.
    pub fn place_of(&self, name: &str) -> Option<usize>
        ensures is { result ≡ last_place name.now self.now }
        ensures small { IfSome result (λ place. place < 2 ^ 63) }
    {
        if self.in_scope.len() == 0 {
            return None;
        }
        found_at(&self.nearest, name)
    }

    /// A name comes into scope. For want of memory nothing changes.
    pub fn enter(&mut self, name: &'a str) -> Result<(), OutOfMemory>
        ensures ok { OnOk result (self.new ≡ self.old ++ name.now ∷ []) }
        ensures err { OnErr result (self.new ≡ self.old) }
    {
        enter(&mut self.in_scope, &mut self.nearest, name)
    }

    /// How many are in scope, which is far from the greatest number. It takes no memory.
    pub fn len(&self) -> usize
        ensures count { result ≡ length self.now }
        ensures small { length self.now < 2 ^ 63 }
    {
        self.in_scope.len()
    }

    /// This many stay in scope, those that came into it first. It takes no memory.
    pub fn truncate(&mut self, mark: usize)
        ensures { self.new ≡ take mark self.old }
    {
        leave_from(&mut self.in_scope, &mut self.nearest, mark);
    }
}
