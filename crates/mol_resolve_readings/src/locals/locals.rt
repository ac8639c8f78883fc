//! The locals up to a place in a body.
ghost use Rattle.std.specs.Prelude.{◌≡◌, ◌<◌, ℕ, Some, OnOk, OnErr, length, take};
ghost use Rattle.jav_names.specs.seen.Kept.{view_type};
ghost use Rattle.mol_resolve_readings.specs.locals.Scoped.{locals_of, nearest_local};
ghost use Rattle.mol_resolve_rules.specs.Locals.{declare, no_locals};

use crate::locals::local::{InScope, Local};
use crate::locals::nearest::found_at;
use crate::locals::scope::{enter, leave_from};
use indexmap::IndexMap;
use jav_names::SeenType;
use mol_base::{OutOfMemory, Text};
use std::alloc::Global;
use std::marker::Model;

/// The locals up to a place in a body. Each goes by its number, which is its place in the order of declaration, from 0. Contracts see
/// all that were declared, and the numbers of those in scope, the nearest last.
#[derive(Drop)]
pub struct Locals {
    declared: Vec<Local>,
    in_scope: Vec<InScope>,
    /// The nearest local in scope of each name that was declared; `None` where those of the name are out of scope.
    nearest: IndexMap<Text, Option<u32>>,
}

impl Model for Locals {
    ghost use Rattle.std.specs.Prelude.{map};
    ghost use Rattle.mol_resolve_readings.specs.locals.Scoped.{Scoped, scoped_code, Stands};
    ghost use Rattle.mol_resolve_readings.specs.contracts.locals.local.Local as local;

    ghost Value = { Scoped };

    ghost coded = { scoped_code local.the_row.coded };

    ghost view = { λ locals. record { declared = locals.declared.items; in_scope = map (λ local. local.number) locals.in_scope.items } };

    ghost invariant = { λ locals. Stands locals.declared.items locals.in_scope.items locals.nearest.entries };
}

impl Locals {
    /// The locals at the beginning of a body: none. It takes no memory.
    pub fn new(alloc: Global) -> Locals
        ensures { locals_of result ≡ no_locals }
    {
        Locals {
            declared: Vec::new(alloc),
            in_scope: Vec::new(alloc),
            nearest: IndexMap::new(alloc),
        }
    }

    /// All locals that were declared, in this order: a local stands at its number. It takes no memory.
    pub fn declared(&self) -> &[Local]
        ensures { result.now ≡ self.now.declared }
    {
        self.declared.as_slice()
    }

    /// The number of the nearest local in scope of a name (JLS 6.4.1): one of those that were declared. `None` where no local in scope
    /// has it. It takes no memory, and about the same time however many there are.
    pub fn find(&self, name: &Text) -> Option<u32>
        ensures is { result ≡ nearest_local (locals_of self.now) name.now }
        ensures inside { (n : ℕ) → result ≡ Some n → n < length self.now.declared }
    {
        found_at(&self.nearest, name)
    }

    /// A local is declared: it has the next number, and is in scope from here on (JLS 6.3). For want of memory, or of a number
    /// below 2^32, nothing changes.
    pub fn declare(&mut self, alloc: Global, name: &Text, ty: SeenType) -> Result<(), OutOfMemory>
        ensures ok { OnOk result (locals_of self.new
            ≡ declare (record { name = name.now; type = view_type ty }) (locals_of self.old)) }
        ensures err { OnErr result (self.new ≡ self.old) }
    {
        let local = Local {
            name: name.copy(alloc)?,
            ty,
        };
        enter(
            alloc,
            &mut self.declared,
            &mut self.in_scope,
            &mut self.nearest,
            local,
        )
    }

    /// How many are in scope: at the beginning of a block, what `end_block` is to be given at its end. It takes no memory.
    pub fn mark(&self) -> usize
        ensures { result ≡ length self.now.in_scope }
    {
        self.in_scope.len()
    }

    /// The end of a block: in scope stay the locals that were so at its beginning, as many as `mark` answered there (JLS 6.3). It takes no
    /// memory.
    pub fn end_block(&mut self, mark: usize)
        ensures { self.new ≡ record self.old { in_scope = take mark self.old.in_scope } }
    {
        leave_from(
            self.declared.as_slice(),
            &mut self.in_scope,
            &mut self.nearest,
            mark,
        );
    }
}
