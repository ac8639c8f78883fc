//! The locals up to a place in a body.
ghost use Rattle.std.specs.Prelude.{◌≡◌, OnOk, OnErr, length, slice_get, take};
ghost use Rattle.mol_spell_places.specs.body_locals.Kept.{locals_of};
ghost use Rattle.mol_resolve_rules.specs.Locals.{declare, names_in_scope, no_locals};
ghost use Rattle.mol_resolve_rules.specs.ProgramViews.{seen};

use crate::body_locals::body_local::BodyLocal;
use crate::body_locals::entering::enter;
use crate::scope_names::ScopeNames;
use mol_base::{OutOfMemory, Text};
use mol_values_types::IType;
use std::alloc::Global;
use std::marker::Model;

/// The locals up to a place in a body of a program. Each goes by its number, which is its place in the order of declaration, from 0.
/// Contracts see all that were declared, and the numbers of those in scope, the nearest last.
#[derive(Drop)]
pub struct BodyLocals<'a> {
    declared: Vec<BodyLocal<'a>>,
    in_scope: Vec<usize>,
    /// The names of those in scope.
    names: ScopeNames<'a>,
}

impl<'a> Model for BodyLocals<'a> {
    ghost use Rattle.mol_spell_places.specs.body_locals.Kept.{AreNamed, Kept, kept_code};
    ghost use Rattle.mol_spell_places.specs.contracts.body_locals.body_local.BodyLocal as local;
    ghost use Rattle.std.specs.Prelude.{[]};
    ghost use mir.Syntax.{named};

    ghost Value = { Kept };

    ghost coded = { kept_code (local.the_row (record { mir = named 0; lft = [] })).coded };

    ghost view = { λ locals. record { declared = locals.declared.items; in_scope = locals.in_scope.items } };

    ghost invariant = { λ locals. AreNamed locals.declared.items locals.in_scope.items locals.names };
}

impl<'a> BodyLocals<'a> {
    /// The locals at the beginning of a body: none. It takes no memory.
    pub fn new(alloc: Global) -> BodyLocals<'a>
        ensures { locals_of result ≡ no_locals }
    {
        BodyLocals {
            declared: Vec::new(alloc),
            in_scope: Vec::new(alloc),
            names: ScopeNames::new(alloc),
        }
    }

    /// The local of a number, if one was declared. It takes no memory.
    pub fn local(&self, number: u32) -> Option<BodyLocal<'a>>
        ensures { result ≡ slice_get self.now.declared number }
    {
        self.declared.get(number as usize).copied()
    }

    /// The numbers of those in scope, the nearest last. It takes no memory.
    pub fn in_scope(&self) -> &[usize]
        ensures { result.now ≡ self.now.in_scope }
    {
        self.in_scope.as_slice()
    }

    /// The names of those in scope. It takes no memory.
    pub fn names(&self) -> &ScopeNames<'a>
        ensures { result.now ≡ names_in_scope (locals_of self.now) }
    {
        &self.names
    }

    /// A local is declared: it has the next number, and is in scope from here on (JLS 6.3). For want of memory nothing changes.
    pub fn declare(&mut self, name: &'a Text, ty: &'a IType) -> Result<(), OutOfMemory>
        ensures ok { OnOk result (locals_of self.new
            ≡ declare (record { name = name.now; type = seen ty.now }) (locals_of self.old)) }
        ensures err { OnErr result (self.new ≡ self.old) }
    {
        let local = BodyLocal { name, ty };
        enter(
            &mut self.declared,
            &mut self.in_scope,
            &mut self.names,
            local,
        )
    }

    /// How many are in scope: at the beginning of a block, what `end_block` is to be given at its end. It takes no memory.
    pub fn mark(&self) -> usize
        ensures { result ≡ length self.now.in_scope }
    {
        self.in_scope.len()
    }

    /// The end of a block: in scope stay the locals that were so at its beginning, as many as `mark` answered there (JLS 6.3). It takes no
    /// memory.
    pub fn end_block(&mut self, mark: usize)
        ensures { self.new ≡ record self.old { in_scope = take mark self.old.in_scope } }
    {
        self.in_scope.truncate(mark);
        self.names.end_block(mark);
    }
}
