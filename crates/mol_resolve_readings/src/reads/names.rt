//! What names mean at a place in source files.
ghost use Rattle.std.specs.Prelude.{◌≡◌, ℕ, [], None, Some, IfOk};
ghost use Rattle.std.specs.List.{list_any};
ghost use Rattle.std.specs.Str.{bytes_eq};
ghost use Rattle.jav_names.specs.seen.Kept.{view_type, view_value};
ghost use Rattle.jav_names.specs.DottedNames.{Names as NameList};
ghost use Rattle.jav_names.specs.LookUps.{leftmost, field_on, field_through, method_from, method_on, method_through};
ghost use Rattle.jav_names.specs.LookUps.{super_constructor, super_method};
ghost use Rattle.jav_names.specs.StaticTypes.{common};
ghost use Rattle.jav_names.specs.UnitViews.{MemberKey};
ghost use Rattle.mol_resolve_readings.specs.reads.Chains.{chain_by, chain_of};
ghost use Rattle.mol_resolve_readings.specs.reads.Reads.{Reads, names_of};
ghost use Rattle.mol_resolve_readings.specs.declared.reads.chain.Chain.TheVariants.{NoClass};
ghost use Rattle.mol_resolve_readings.specs.locals.Scoped.{locals_of};
ghost use Rattle.mol_resolve_readings.specs.meant.Kept.{view_meant, view_part, view_read, view_reading};
ghost use Rattle.mol_resolve_rules.specs.Readers.{Reader, param_names, place_of};
ghost use Rattle.mol_resolve_rules.specs.ReadStatements.{super_if};
ghost use Rattle.mol_resolve_rules.specs.ReadTrees as trees;
ghost use Rattle.mol_resolve_rules.specs.ReadTypes as types;

use crate::locals::Locals;
use crate::meant::{Meant, ReadType};
use crate::reads::chain::Chain;
use jav_names::{SeenType, StaticType};
use jav_tree::{Expr, TypeName};
use mol_base::{List, OutOfMemory, Text};
use mol_resolve_faults::FirstFault;
use mol_values_types::{IExpr, IStmtNode};
use std::alloc::Global;

/// What names mean at a place: in a class, with parameters in scope. Each call answers what an expression or a type means whose parts
/// are read, or none where it means nothing, and notes its own fault at the place that it is given. `Err` is want of memory.
pub trait Names {
    /// The place, as the rules on names look at it.
    ghost reader: { Self → Reader ℕ MemberKey };

    /// The number of the file of the class. It takes no memory.
    fn class(&self) -> u32
        ensures { result ≡ (reader self.now).class };

    /// A type. Its name may read as nothing.
    fn read_type(
        &self,
        alloc: Global,
        faults: &mut FirstFault,
        at: u32,
        ty: &TypeName,
    ) -> Result<Option<ReadType>, OutOfMemory>
        ensures { IfOk result (λ read. Reads (types.read_type (reader self.now) at ty.now) (view_reading read) faults.old faults.new) };

    // ---- names

    /// The names that an expression is, where no more follow after a dot.
    fn chain(&self, alloc: Global, locals: &Locals, e: &Expr) -> Result<Chain, OutOfMemory>
        ensures { IfOk result (λ chain. chain
            ≡ chain_of (reader self.now) (locals_of locals.now) (names_of (reader self.now) e.now) []) };

    /// A name that stands alone.
    fn name_alone(
        &self,
        alloc: Global,
        locals: &Locals,
        faults: &mut FirstFault,
        at: u32,
        name: &Text,
    ) -> Result<Option<Meant>, OutOfMemory>
        ensures { IfOk result (λ value. Reads (trees.name_meant (reader self.now) at name.now (locals_of locals.now) None)
            (view_part value) faults.old faults.new) };

    /// The first of several names with dots between them, which do not begin with the name of a class.
    fn name_before(
        &self,
        alloc: Global,
        locals: &Locals,
        name: &Text,
    ) -> Result<Option<Meant>, OutOfMemory>
        ensures { IfOk result (λ value. (follow : NameList)
            → chain_by 1 (leftmost (reader self.now).view (place_of (reader self.now) (locals_of locals.now)) name.now follow) ≡ NoClass
            → view_part value ≡ (trees.name_meant (reader self.now) 0 name.now (locals_of locals.now) (Some follow)).value) };

    // ---- fields

    /// A field through the name of a class, by the number of its file.
    fn static_field(
        &self,
        alloc: Global,
        faults: &mut FirstFault,
        at: u32,
        class: u32,
        name: &Text,
    ) -> Result<Option<Meant>, OutOfMemory>
        ensures { IfOk result (λ value. Reads (trees.static_field_meant (reader self.now) at
            (field_through (reader self.now).view class name.now))
            (view_part value) faults.old faults.new) };

    /// A field of a value.
    fn field_on(
        &self,
        alloc: Global,
        faults: &mut FirstFault,
        at: u32,
        name: &Text,
        value: Meant,
    ) -> Result<Option<Meant>, OutOfMemory>
        ensures { IfOk result (λ field. Reads (trees.field_meant (reader self.now) at name.now (view_meant value)
            (field_on (reader self.now).view name.now (view_value value.ty))) (view_part field) faults.old faults.new) };

    // ---- calls

    /// A call without anything before it, with so many arguments.
    fn call_here(
        &self,
        alloc: Global,
        faults: &mut FirstFault,
        at: u32,
        name: &Text,
        arity: usize,
        args: Option<List<IExpr>>,
    ) -> Result<Option<Meant>, OutOfMemory>
        ensures { IfOk result (λ value. Reads (trees.call_here (reader self.now) at name.now args
            (method_from (reader self.now).view (reader self.now).class name.now arity)) (view_part value) faults.old faults.new) };

    /// A call through the name of a class, by the number of its file.
    fn call_through(
        &self,
        alloc: Global,
        faults: &mut FirstFault,
        at: u32,
        class: u32,
        name: &Text,
        arity: usize,
        args: Option<List<IExpr>>,
    ) -> Result<Option<Meant>, OutOfMemory>
        ensures { IfOk result (λ value. Reads (trees.call_through (reader self.now) at args
            (method_through (reader self.now).view class name.now arity)) (view_part value) faults.old faults.new) };

    /// A call on a value.
    fn call_on(
        &self,
        alloc: Global,
        faults: &mut FirstFault,
        at: u32,
        name: &Text,
        arity: usize,
        value: Meant,
        args: Option<List<IExpr>>,
    ) -> Result<Option<Meant>, OutOfMemory>
        ensures { IfOk result (λ call. Reads (trees.call_on (reader self.now) at name.now (view_meant value) args
            (method_on (reader self.now).view name.now arity (view_value value.ty))) (view_part call) faults.old faults.new) };

    /// A call after `super.`.
    fn super_call(
        &self,
        alloc: Global,
        faults: &mut FirstFault,
        at: u32,
        name: &Text,
        arity: usize,
        args: Option<List<IExpr>>,
    ) -> Result<Option<Meant>, OutOfMemory>
        ensures { IfOk result (λ value. Reads (trees.super_call (reader self.now) at name.now args
            (super_method (reader self.now).view (reader self.now).class name.now arity)) (view_part value) faults.old faults.new) };

    /// A creation of an object of a type.
    fn created(
        &self,
        alloc: Global,
        faults: &mut FirstFault,
        at: u32,
        arity: usize,
        ty: ReadType,
        args: Option<List<IExpr>>,
    ) -> Result<Option<Meant>, OutOfMemory>
        ensures { IfOk result (λ value. Reads (trees.created (reader self.now) at arity (view_read ty) args (view_read ty).type)
            (view_part value) faults.old faults.new) };

    // ---- choices

    /// The static type that two values have in common.
    fn common(
        &self,
        alloc: Global,
        first: &StaticType,
        second: &StaticType,
    ) -> Result<StaticType, OutOfMemory>
        ensures { IfOk result (λ ty. view_value ty ≡ common (reader self.now).view (view_value first.now) (view_value second.now)) };

    // ---- statements

    /// A type as the rules on names look at it, whether or not its name reads as something.
    fn seen_type(&self, alloc: Global, ty: &TypeName) -> Result<SeenType, OutOfMemory>
        ensures { IfOk result (λ seen. view_type seen ≡ types.seen_type (reader self.now) ty.now) };

    /// Whether a parameter in scope has this name. It takes no memory.
    fn is_param(&self, name: &Text) -> bool
        ensures { result ≡ list_any (bytes_eq name.now) (param_names (reader self.now)) };

    /// `super(..)` with so many arguments.
    fn super_init(
        &self,
        alloc: Global,
        faults: &mut FirstFault,
        at: u32,
        arity: usize,
        args: Option<List<IExpr>>,
    ) -> Result<Option<IStmtNode>, OutOfMemory>
        ensures { IfOk result (λ node. Reads (super_if (reader self.now) (reader self.now).in_constructor at args
            (super_constructor (reader self.now).view (reader self.now).class arity)) node faults.old faults.new) };
}
