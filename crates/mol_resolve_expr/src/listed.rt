//! Expressions over any number of others: calls, creations and arrays (JLS 15.9, 15.10.1, 15.12, 10.6).
ghost use Rattle.std.specs.Prelude.{◌≡◌, ℕ, IfOk, List as Items, Option, length, map};
ghost use Rattle.jav_tree.specs.declared.expr.ExprNode.TheOpen.{ExprNode-F};
ghost use Rattle.mol_resolve_expr.specs.Parts.{node_of, over_list};
ghost use Rattle.mol_resolve_readings.specs.locals.Scoped.{locals_of};
ghost use Rattle.mol_resolve_readings.specs.meant.Kept.{view_part, view_reading};
ghost use Rattle.mol_resolve_readings.specs.reads.Reads.{Reads};
ghost use Rattle.mol_resolve_rules.specs.Outcomes.{Outcome, TreeFault, over};
ghost use Rattle.mol_resolve_rules.specs.ReadTrees.{Reading, created, reading, values_of};
ghost use Rattle.mol_resolve_rules.specs.ReadTypes as types;

use crate::expr_reader::ExprReader;
use jav_tree::{Expr, TypeName};
use mol_base::{List, OutOfMemory, Text};
use mol_resolve_faults::FirstFault;
use mol_resolve_readings::meant::arrays;
use mol_resolve_readings::{Meant, Names, ReadType};
use mol_values_types::IExpr;

/// What stands over any number of expressions.
#[derive(Clone, Copy)]
pub(crate) enum Listed<'a> {
    /// A call without anything before it, by the method's name.
    Call(&'a Text),
    /// A call through the name of a class: the number of its file, and the method's name.
    Through(u32, &'a Text),
    /// A call after `super.`, by the method's name.
    SuperCall(&'a Text),
    /// A creation of an object.
    New(&'a TypeName),
    /// A new array with sizes, and so many pairs of empty brackets after these.
    NewArray(&'a TypeName, u32),
    /// A new array with its items.
    ArrayLit(&'a TypeName),
    /// Items in braces.
    Braces,
}

impl<N: Names> ExprReader<'_, N> {
    /// An expression over others, which are read one after the other.
    #[cycle(read_expr)]
    pub(crate) fn listed(
        &self,
        faults: &mut FirstFault,
        at: u32,
        kind: Listed<'_>,
        items: &[Expr],
    ) -> Result<Option<Meant>, OutOfMemory>
        ensures { let reader = N.reader self.now.names.now in
            IfOk result (λ value. Reads
            (over_list reader (locals_of self.now.locals.now) kind.entry (map (reading reader) items.now) at)
            (view_part value) faults.old faults.new) }
    {
        let values = self.all(faults, items)?;
        self.over_list(faults, at, kind, items.len(), values)
    }

    /// What stands over so many expressions, once these are read.
    fn over_list(
        &self,
        faults: &mut FirstFault,
        at: u32,
        kind: Listed<'_>,
        arity: usize,
        values: Option<List<IExpr>>,
    ) -> Result<Option<Meant>, OutOfMemory>
        ensures { let reader = N.reader self.now.names.now in
            let locals = locals_of self.now.locals.now in
            IfOk result (λ value. (parts : Items (Reading ℕ)) (first : Option TreeFault) → arity ≡ length parts
            → Reads (values_of reader locals parts) values first faults.old
            → Reads (over_list reader locals kind.entry parts at) (view_part value) first faults.new) }
    {
        match kind {
            Listed::Call(name) => self
                .names
                .call_here(self.alloc, faults, at, name, arity, values),
            Listed::Through(class, name) => self
                .names
                .call_through(self.alloc, faults, at, class, name, arity, values),
            Listed::SuperCall(name) => self
                .names
                .super_call(self.alloc, faults, at, name, arity, values),
            Listed::New(ty) => self.creation(faults, at, ty, arity, values),
            Listed::NewArray(ty, pairs) => self.new_array(faults, at, ty, values, pairs),
            Listed::ArrayLit(ty) => self.array_of(faults, at, ty, values),
            Listed::Braces => arrays::braces(self.alloc, values),
        }
    }

    /// A creation of an object. Its arguments are read before its type.
    fn creation(
        &self,
        faults: &mut FirstFault,
        at: u32,
        ty: &TypeName,
        arity: usize,
        values: Option<List<IExpr>>,
    ) -> Result<Option<Meant>, OutOfMemory>
        ensures { let reader = N.reader self.now.names.now in
            let locals = locals_of self.now.locals.now in
            IfOk result (λ value. (parts : Items (Reading ℕ)) (first : Option TreeFault) → arity ≡ length parts
            → Reads (values_of reader locals parts) values first faults.old
            → Reads (node_of reader locals (ExprNode-F.New ty.now parts) at) (view_part value) first faults.new) }
    {
        let ty = self.names.read_type(self.alloc, faults, at, ty)?;
        self.object(faults, at, arity, ty, values)
    }

    /// An object of a type that is read.
    fn object(
        &self,
        faults: &mut FirstFault,
        at: u32,
        arity: usize,
        ty: Option<ReadType>,
        values: Option<List<IExpr>>,
    ) -> Result<Option<Meant>, OutOfMemory>
        ensures { let reader = N.reader self.now.names.now in
            IfOk result (λ value. (read : Outcome (types.ReadType ℕ)) (first : Option TreeFault)
            → Reads read (view_reading ty) first faults.old
            → Reads (over read (λ read. created reader at arity read values read.type)) (view_part value) first faults.new) }
    {
        match ty {
            Some(ty) => self
                .names
                .created(self.alloc, faults, at, arity, ty, values),
            None => Ok(None),
        }
    }

    /// A new array with sizes.
    fn new_array(
        &self,
        faults: &mut FirstFault,
        at: u32,
        ty: &TypeName,
        sizes: Option<List<IExpr>>,
        pairs: u32,
    ) -> Result<Option<Meant>, OutOfMemory>
        ensures { let reader = N.reader self.now.names.now in
            let locals = locals_of self.now.locals.now in
            IfOk result (λ value. (parts : Items (Reading ℕ)) (first : Option TreeFault)
            → Reads (values_of reader locals parts) sizes first faults.old
            → Reads (node_of reader locals (ExprNode-F.NewArray ty.now parts pairs) at) (view_part value) first faults.new) }
    {
        let item = self.names.read_type(self.alloc, faults, at, ty)?;
        arrays::new_array(self.alloc, item, sizes, pairs)
    }

    /// A new array with its items.
    fn array_of(
        &self,
        faults: &mut FirstFault,
        at: u32,
        ty: &TypeName,
        items: Option<List<IExpr>>,
    ) -> Result<Option<Meant>, OutOfMemory>
        ensures { let reader = N.reader self.now.names.now in
            let locals = locals_of self.now.locals.now in
            IfOk result (λ value. (parts : Items (Reading ℕ)) (first : Option TreeFault)
            → Reads (values_of reader locals parts) items first faults.old
            → Reads (node_of reader locals (ExprNode-F.ArrayLit ty.now parts) at) (view_part value) first faults.new) }
    {
        let ty = self.names.read_type(self.alloc, faults, at, ty)?;
        arrays::array_of(self.alloc, ty, items)
    }
}
