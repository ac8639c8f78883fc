//! What names mean in a member.
use crate::accesses::{
    call_here, call_of, call_through, created, field_of, static_field, super_call, super_init,
};
use crate::chains::chain_of;
use crate::lone_names::{name_alone, name_before};
use crate::names::member_names::MemberNames;
use crate::names::params::is_named;
use crate::type_trees::read_type;
use jav_names::{SeenType, StaticType};
use jav_scope::{common, seen_type};
use jav_tree::{Expr, TypeName};
use mol_base::{List, OutOfMemory, Text};
use mol_resolve_faults::{FaultKind, FirstFault};
use mol_resolve_readings::{Chain, Locals, Meant, Names, ReadType};
use mol_values_types::{IExpr, IStmtNode};
use std::alloc::Global;

impl Names for MemberNames<'_> {
    ghost use Rattle.mol_resolve_names.specs.names.InMember.{reader_of};

    ghost reader = { reader_of };

    fn class(&self) -> u32 {
        self.unit
    }

    fn read_type(
        &self,
        alloc: Global,
        faults: &mut FirstFault,
        at: u32,
        ty: &TypeName,
    ) -> Result<Option<ReadType>, OutOfMemory> {
        read_type(
            alloc,
            self.finder.scope(),
            self.numbers,
            self.unit,
            faults,
            at,
            ty,
        )
    }

    fn chain(&self, alloc: Global, locals: &Locals, e: &Expr) -> Result<Chain, OutOfMemory> {
        let params = self.params.as_slice();
        chain_of(alloc, self.finder.scope(), self.unit, params, locals, e)
    }

    fn name_alone(
        &self,
        alloc: Global,
        locals: &Locals,
        faults: &mut FirstFault,
        at: u32,
        name: &Text,
    ) -> Result<Option<Meant>, OutOfMemory> {
        let params = self.params.as_slice();
        name_alone(
            alloc,
            self.finder,
            self.unit,
            params,
            locals,
            faults,
            at,
            name,
        )
    }

    fn name_before(
        &self,
        alloc: Global,
        locals: &Locals,
        name: &Text,
    ) -> Result<Option<Meant>, OutOfMemory> {
        let params = self.params.as_slice();
        name_before(alloc, self.finder, self.unit, params, locals, name)
    }

    fn static_field(
        &self,
        alloc: Global,
        faults: &mut FirstFault,
        at: u32,
        class: u32,
        name: &Text,
    ) -> Result<Option<Meant>, OutOfMemory> {
        static_field(alloc, self.finder, faults, at, class, name)
    }

    fn field_on(
        &self,
        alloc: Global,
        faults: &mut FirstFault,
        at: u32,
        name: &Text,
        value: Meant,
    ) -> Result<Option<Meant>, OutOfMemory> {
        field_of(alloc, self.finder, faults, at, name, value)
    }

    fn call_here(
        &self,
        alloc: Global,
        faults: &mut FirstFault,
        at: u32,
        name: &Text,
        arity: usize,
        args: Option<List<IExpr>>,
    ) -> Result<Option<Meant>, OutOfMemory> {
        call_here(alloc, self.finder, faults, at, self.unit, name, arity, args)
    }

    fn call_through(
        &self,
        alloc: Global,
        faults: &mut FirstFault,
        at: u32,
        class: u32,
        name: &Text,
        arity: usize,
        args: Option<List<IExpr>>,
    ) -> Result<Option<Meant>, OutOfMemory> {
        call_through(alloc, self.finder, faults, at, class, name, arity, args)
    }

    fn call_on(
        &self,
        alloc: Global,
        faults: &mut FirstFault,
        at: u32,
        name: &Text,
        arity: usize,
        value: Meant,
        args: Option<List<IExpr>>,
    ) -> Result<Option<Meant>, OutOfMemory> {
        call_of(alloc, self.finder, faults, at, name, arity, value, args)
    }

    fn super_call(
        &self,
        alloc: Global,
        faults: &mut FirstFault,
        at: u32,
        name: &Text,
        arity: usize,
        args: Option<List<IExpr>>,
    ) -> Result<Option<Meant>, OutOfMemory> {
        super_call(alloc, self.finder, faults, at, self.unit, name, arity, args)
    }

    fn created(
        &self,
        alloc: Global,
        faults: &mut FirstFault,
        at: u32,
        arity: usize,
        ty: ReadType,
        args: Option<List<IExpr>>,
    ) -> Result<Option<Meant>, OutOfMemory> {
        created(alloc, self.finder, faults, at, arity, ty, args)
    }

    fn common(
        &self,
        alloc: Global,
        first: &StaticType,
        second: &StaticType,
    ) -> Result<StaticType, OutOfMemory> {
        common(alloc, self.finder.scope(), self.count, first, second)
    }

    fn seen_type(&self, alloc: Global, ty: &TypeName) -> Result<SeenType, OutOfMemory> {
        seen_type(alloc, self.finder.scope(), self.unit, ty)
    }

    fn is_param(&self, name: &Text) -> bool {
        is_named(self.params.as_slice(), name)
    }

    fn super_init(
        &self,
        alloc: Global,
        faults: &mut FirstFault,
        at: u32,
        arity: usize,
        args: Option<List<IExpr>>,
    ) -> Result<Option<IStmtNode>, OutOfMemory> {
        if self.in_constructor {
            return super_init(alloc, self.finder, faults, at, self.unit, arity, args);
        }
        faults.note(FaultKind::UnknownMember, at);
        Ok(None)
    }
}
