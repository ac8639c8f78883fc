//! Names in scope, and those that clash.
ghost use Rattle.std.specs.Prelude.{◌≡◌, ℕ, [], OnOk, length, take, map};
ghost use Rattle.std.specs.Borrow.{Bor};
ghost use Rattle.jav_names.specs.DottedNames.{Name};
ghost use Rattle.mol_spell_rules.specs.LocalClashes.{declaring, then_next, unscoped};

use mol_base::OutOfMemory;
use mol_spell_places::ScopeNames;
use std::alloc::Global;
use std::marker::Model;

/// The names of the parameters and locals in scope at a place in a body, and those with which one was declared where they were in scope
/// already, in the order of declaration.
#[derive(Drop)]
pub(crate) struct Scope<'a> {
    names: ScopeNames<'a>,
    clashes: Vec<&'a str>,
}

impl<'a> Model for Scope<'a> {
    ghost use Rattle.std.specs.Borrow.{Bor};
    ghost use Rattle.std.specs.Prelude.{map};
    ghost use Rattle.jav_names.specs.DottedNames.{Name};
    ghost use Rattle.mol_spell_rules.specs.LocalClashes.{Scoped};

    ghost Value = { Scoped };

    ghost view = { λ scope. record { in_scope = scope.names; clashes = map (λ (name : Bor Name). name.now) scope.clashes.items } };
}

impl<'a> Scope<'a> {
    /// Nothing is in scope. It takes no memory.
    pub fn new(alloc: Global) -> Scope<'a>
        ensures { result ≡ unscoped [] }
    {
        Scope {
            names: ScopeNames::new(alloc),
            clashes: Vec::new(alloc),
        }
    }

    /// A parameter or local of this name is declared. `Err` is want of memory.
    pub fn declare(&mut self, name: &'a str) -> Result<(), OutOfMemory>
        ensures { OnOk result (self.new ≡ then_next self.old (declaring name.now)) }
    {
        match self.names.place_of(name) {
            Some(_) => {
                self.clashes.push(name)?;
                self.names.enter(name)
            },
            None => self.names.enter(name),
        }
    }

    /// How many names are in scope: at the beginning of a block, what `end_block` is to be given at its end. It takes no memory.
    pub fn mark(&self) -> usize
        ensures { result ≡ length self.now.in_scope }
    {
        self.names.mark()
    }

    /// The end of a block: in scope stays what was so at its beginning (JLS 6.3). It takes no memory.
    pub fn end_block(&mut self, mark: usize)
        ensures { self.new ≡ record { in_scope = take mark self.old.in_scope; clashes = self.old.clashes } }
    {
        self.names.end_block(mark);
    }

    /// The names that clash. It takes no memory.
    pub fn into_clashes(self) -> Vec<&'a str>
        ensures { map (λ (name : Bor Name). name.now) result.items ≡ self.entry.clashes }
    {
        let Scope { names: _, clashes } = self;
        clashes
    }
}
