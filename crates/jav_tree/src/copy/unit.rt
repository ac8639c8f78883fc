ghost use Rattle.std.specs.Prelude.{◌≡◌, IfOk};

use crate::copy::{copy_maybe, copy_texts};
use crate::stmt::Block;
use crate::types::TypeName;
use crate::unit::{ClassDecl, Ctor, Field, Member, Method, Param, Unit};
use mol_base::{List, OutOfMemory};
use std::alloc::Global;

impl Unit {
    /// A unit that equals this one.
    pub fn copy(&self, alloc: Global) -> Result<Unit, OutOfMemory>
        ensures { IfOk result (λ copy. copy ≡ self.now) }
    {
        Ok(Unit {
            head: copy_texts(alloc, self.head.items())?,
            package: self.package.copy(alloc)?,
            imports: copy_texts(alloc, self.imports.items())?,
            class: self.class.copy(alloc)?,
        })
    }
}

impl ClassDecl {
    /// A class that equals this one.
    pub fn copy(&self, alloc: Global) -> Result<ClassDecl, OutOfMemory>
        ensures { IfOk result (λ copy. copy ≡ self.now) }
    {
        Ok(ClassDecl {
            front: copy_texts(alloc, self.front.items())?,
            words: copy_texts(alloc, self.words.items())?,
            name: self.name.copy(alloc)?,
            parent: copy_parent(alloc, &self.parent)?,
            members: copy_members(alloc, self.members.items())?,
            tail: copy_texts(alloc, self.tail.items())?,
        })
    }
}

/// The superclass there is, copied.
pub fn copy_parent(
    alloc: Global,
    parent: &Option<TypeName>,
) -> Result<Option<TypeName>, OutOfMemory>
    ensures { IfOk result (λ copy. copy ≡ parent.now) }
{
    match parent {
        Some(ty) => Ok(Some(ty.copy(alloc)?)),
        None => Ok(None),
    }
}

fn copy_members(alloc: Global, members: &[Member]) -> Result<List<Member>, OutOfMemory>
    ensures { IfOk result (λ all. all ≡ members.now) }
{
    let mut all = List::new(alloc);
    for member in members {
        all.add(member.copy(alloc)?)?;
    }
    Ok(all)
}

impl Member {
    /// A member that equals this one.
    pub fn copy(&self, alloc: Global) -> Result<Member, OutOfMemory>
        ensures { IfOk result (λ copy. copy ≡ self.now) }
    {
        match self {
            Member::Field(field) => Ok(Member::Field(field.copy(alloc)?)),
            Member::Method(method) => Ok(Member::Method(method.copy(alloc)?)),
            Member::Ctor(ctor) => Ok(Member::Ctor(ctor.copy(alloc)?)),
        }
    }
}

impl Field {
    /// A field that equals this one.
    pub fn copy(&self, alloc: Global) -> Result<Field, OutOfMemory>
        ensures { IfOk result (λ copy. copy ≡ self.now) }
    {
        Ok(Field {
            front: copy_texts(alloc, self.front.items())?,
            at: self.at,
            words: copy_texts(alloc, self.words.items())?,
            ty: self.ty.copy(alloc)?,
            name: self.name.copy(alloc)?,
            init: copy_maybe(alloc, &self.init)?,
        })
    }
}

impl Method {
    /// A method that equals this one.
    pub fn copy(&self, alloc: Global) -> Result<Method, OutOfMemory>
        ensures { IfOk result (λ copy. copy ≡ self.now) }
    {
        Ok(Method {
            front: copy_texts(alloc, self.front.items())?,
            at: self.at,
            words: copy_texts(alloc, self.words.items())?,
            is_static: self.is_static,
            result: self.result.copy(alloc)?,
            name: self.name.copy(alloc)?,
            params: copy_params(alloc, self.params.items())?,
            block: copy_block(alloc, &self.block)?,
        })
    }
}

/// Parameters that equal these.
pub fn copy_params(alloc: Global, params: &[Param]) -> Result<List<Param>, OutOfMemory>
    ensures { IfOk result (λ all. all ≡ params.now) }
{
    let mut all = List::new(alloc);
    for param in params {
        all.add(param.copy(alloc)?)?;
    }
    Ok(all)
}

fn copy_block(alloc: Global, block: &Option<Block>) -> Result<Option<Block>, OutOfMemory>
    ensures { IfOk result (λ copy. copy ≡ block.now) }
{
    match block {
        Some(block) => Ok(Some(block.copy(alloc)?)),
        None => Ok(None),
    }
}

impl Ctor {
    /// A constructor that equals this one.
    pub fn copy(&self, alloc: Global) -> Result<Ctor, OutOfMemory>
        ensures { IfOk result (λ copy. copy ≡ self.now) }
    {
        Ok(Ctor {
            front: copy_texts(alloc, self.front.items())?,
            at: self.at,
            words: copy_texts(alloc, self.words.items())?,
            params: copy_params(alloc, self.params.items())?,
            block: self.block.copy(alloc)?,
        })
    }
}

impl Param {
    /// A parameter that equals this one.
    pub fn copy(&self, alloc: Global) -> Result<Param, OutOfMemory>
        ensures { IfOk result (λ copy. copy ≡ self.now) }
    {
        Ok(Param {
            ty: self.ty.copy(alloc)?,
            name: self.name.copy(alloc)?,
        })
    }
}
