//! Fields, methods and constructors.
ghost use Rattle.std.specs.Prelude.{◌≡◌, IfOk, Some, option_map};
ghost use Rattle.mol_resolve_entities.specs.member_entities.Outcomes.{constructor_read, field_read, method_read};
ghost use Rattle.mol_resolve_readings.specs.reads.Reads.{Reads};
ghost use Rattle.mol_resolve_rules.specs.ReadFiles.{read_block};
ghost use Rattle.mol_resolve_rules.specs.ReadStatements.{read_body, read_initial};

use crate::member_headers::{read_params, read_tree};
use jav_tree::{Block, Ctor, Expr, Field, Method};
use mol_base::OutOfMemory;
use mol_resolve_entities::{
    MemberEntities, MemberIds, MethodIds, constructor_made, field_made, method_made,
};
use mol_resolve_faults::FirstFault;
use mol_resolve_readings::Names;
use mol_resolve_stmt::StmtReader;
use mol_values_types::{IBody, IExpr};
use std::alloc::Global;

/// A member at its place in source files, with its identities. Each call answers the entities that it is, or none where a name in it has no
/// meaning; what is met in it is noted. `Err` is want of memory. The time is linear in the size of the member, but for what names cost.
#[derive(Clone, Copy)]
pub struct MemberReader<'a, N> {
    pub alloc: Global,
    pub names: &'a N,
    pub ids: MemberIds,
}

impl<N: Names> MemberReader<'_, N> {
    /// A field (JLS 8.3).
    pub fn field(
        &self,
        faults: &mut FirstFault,
        field: &Field,
    ) -> Result<Option<MemberEntities>, OutOfMemory>
        ensures { IfOk result (λ made. Reads (field_read (N.reader self.now.names.now) self.now.ids field.now)
            made faults.old faults.new) }
    {
        let ty = read_tree(self.alloc, self.names, faults, field.at, &field.ty)?;
        let init = self.initial(faults, &field.init)?;
        field_made(self.alloc, self.ids, field, ty, init)
    }

    /// A method with the identities of it (JLS 8.4).
    pub fn method(
        &self,
        faults: &mut FirstFault,
        ids: &MethodIds,
        method: &Method,
    ) -> Result<Option<MemberEntities>, OutOfMemory>
        ensures { IfOk result (λ made. Reads (method_read (N.reader self.now.names.now) self.now.ids ids.now method.now)
            made faults.old faults.new) }
    {
        let params = method.params.items();
        let gives = read_tree(self.alloc, self.names, faults, method.at, &method.result)?;
        let listed = read_params(
            self.alloc,
            self.names,
            faults,
            method.at,
            ids.params.as_slice(),
            params,
        )?;
        let body = self.block(faults, &method.block)?;
        method_made(self.alloc, self.ids, ids, method, gives, listed, body)
    }

    /// A constructor with the identities of it (JLS 8.8).
    pub fn constructor(
        &self,
        faults: &mut FirstFault,
        ids: &MethodIds,
        ctor: &Ctor,
    ) -> Result<Option<MemberEntities>, OutOfMemory>
        ensures { IfOk result (λ made. Reads (constructor_read (N.reader self.now.names.now) self.now.ids ids.now ctor.now)
            made faults.old faults.new) }
    {
        let params = ctor.params.items();
        let listed = read_params(
            self.alloc,
            self.names,
            faults,
            ctor.at,
            ids.params.as_slice(),
            params,
        )?;
        let body = self.body(faults, &ctor.block)?;
        constructor_made(self.alloc, self.ids, ids, ctor, listed, body)
    }

    /// The first value of a field, if it has one. Outer `None`: it has no meaning.
    fn initial(
        &self,
        faults: &mut FirstFault,
        init: &Option<Expr>,
    ) -> Result<Option<Option<IExpr>>, OutOfMemory>
        ensures { IfOk result (λ value. Reads (read_initial (N.reader self.now.names.now) init.now) value faults.old faults.new) }
    {
        let reader = StmtReader {
            alloc: self.alloc,
            names: self.names,
        };
        reader.initial(faults, init)
    }

    /// The body of a method, which an abstract one does not have. Outer `None`: it has no meaning.
    fn block(
        &self,
        faults: &mut FirstFault,
        block: &Option<Block>,
    ) -> Result<Option<Option<IBody>>, OutOfMemory>
        ensures { IfOk result (λ body. Reads (read_block (N.reader self.now.names.now) block.now) body faults.old faults.new) }
    {
        match block {
            None => Ok(Some(None)),
            Some(block) => {
                let body = self.body(faults, block)?;
                Ok(present(body))
            },
        }
    }

    /// A body that is there.
    fn body(&self, faults: &mut FirstFault, block: &Block) -> Result<Option<IBody>, OutOfMemory>
        ensures { IfOk result (λ body. Reads (read_body (N.reader self.now.names.now) block.now) body faults.old faults.new) }
    {
        let reader = StmtReader {
            alloc: self.alloc,
            names: self.names,
        };
        reader.body(faults, block)
    }
}

/// The body of a method that has one.
fn present(body: Option<IBody>) -> Option<Option<IBody>>
    ensures { result ≡ option_map (λ body. Some body) body }
{
    match body {
        Some(body) => Some(Some(body)),
        None => None,
    }
}
