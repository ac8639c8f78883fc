//! The names of locals in scope.
ghost use Rattle.std.specs.Prelude.{◌≡◌, ◌++◌, ◌∷◌, [], OnOk, OnErr, length, take};
ghost use Rattle.jav_names.specs.LookUps.{last_place};

use crate::scope_names::few::{FEW, last_of};
use crate::scope_names::indexed_names::IndexedNames;
use mol_base::OutOfMemory;
use std::alloc::Global;
use std::marker::Model;

/// The names of the locals in scope at a place in a body. Contracts see them in the order in which they came into scope, the nearest last.
#[derive(Drop)]
pub struct ScopeNames<'a> {
    /// The first names in scope, which are gone through.
    few: Vec<&'a str>,
    /// Those after them. There are none before a few are there.
    more: IndexedNames<'a>,
}

impl<'a> Model for ScopeNames<'a> {
    ghost use Rattle.std.specs.Coded.{coded_list, coded_ℕ};
    ghost use Rattle.std.specs.Prelude.{◌++◌};
    ghost use Rattle.jav_names.specs.DottedNames.{Names};
    ghost use Rattle.mol_spell_places.specs.scope_names.Few.{names_of, AreFewFirst};

    ghost Value = { Names };

    ghost coded = { coded_list (coded_list coded_ℕ) };

    ghost view = { λ names. names_of names.few.items ++ names.more };

    ghost invariant = { λ names. AreFewFirst names.few.items names.more };
}

impl<'a> ScopeNames<'a> {
    /// The names at the beginning of a body: none. It takes no memory.
    pub fn new(alloc: Global) -> ScopeNames<'a>
        ensures { result ≡ [] }
    {
        ScopeNames {
            few: Vec::new(alloc),
            more: IndexedNames::new(alloc),
        }
    }

    /// The place of the nearest local of a name (JLS 6.4.1), from 0. It takes no memory, and about the same time however many there are.
    pub fn place_of(&self, name: &str) -> Option<usize>
        ensures { result ≡ last_place name.now self.now }
    {
        match self.more.place_of(name) {
            Some(place) => Some(self.few.len() + place),
            None => last_of(self.few.as_slice(), name),
        }
    }

    /// A local of this name comes into scope (JLS 6.3). For want of memory nothing changes.
    pub fn enter(&mut self, name: &'a str) -> Result<(), OutOfMemory>
        ensures ok { OnOk result (self.new ≡ self.old ++ name.now ∷ []) }
        ensures err { OnErr result (self.new ≡ self.old) }
    {
        if self.few.len() < FEW {
            self.few.push(name)?;
            Ok(())
        } else {
            self.more.enter(name)
        }
    }

    /// How many are in scope: at the beginning of a block, what `end_block` is to be given at its end. It takes no memory.
    pub fn mark(&self) -> usize
        ensures { result ≡ length self.now }
    {
        self.few.len() + self.more.len()
    }

    /// The end of a block: in scope stay the locals that were so at its beginning, as many as `mark` answered there (JLS 6.3). It takes no
    /// memory.
    pub fn end_block(&mut self, mark: usize)
        ensures { self.new ≡ take mark self.old }
    {
        self.more.truncate(mark.saturating_sub(self.few.len()));
        self.few.truncate(mark);
    }
}
