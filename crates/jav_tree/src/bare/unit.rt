ghost use Rattle.std.specs.Prelude.{◌≡◌, IfOk, map, option_map};
ghost use Rattle.jav_tree.specs.Layout.{unit_text};
ghost use Rattle.jav_tree.specs.EachExpression.{map_class, map_ctor, map_field, map_method};
ghost use Rattle.jav_tree.specs.Parens as spec;
ghost use Rattle.jav_tree.specs.Parens.{expr_without_parens};

use crate::bare::bare_maybe;
use crate::copy::{copy_params, copy_parent, copy_texts};
use crate::stmt::Block;
use crate::unit::{ClassDecl, Ctor, Field, Member, Method, Unit};
use mol_base::{List, OutOfMemory};
use std::alloc::Global;

impl Unit {
    /// The unit without parentheses: what stands in a `Paren` stands in its place. All else stays, offsets too. `Err` is want of memory.
    pub fn drop_parens(&self, alloc: Global) -> Result<Unit, OutOfMemory>
        ensures value { IfOk result (λ bare. bare ≡ spec.unit_without_parens self.now) }
        // Dropping parentheses again changes nothing.
        ensures settled { IfOk result (λ bare. spec.unit_without_parens bare ≡ bare) }
        // The layout does not see parentheses.
        ensures layout { IfOk result (λ bare. unit_text bare ≡ unit_text self.now) }
    {
        self.without_parens(alloc)
    }

    fn without_parens(&self, alloc: Global) -> Result<Unit, OutOfMemory>
        ensures { IfOk result (λ bare. bare ≡ spec.unit_without_parens self.now) }
    {
        Ok(Unit {
            head: copy_texts(alloc, self.head.items())?,
            package: self.package.copy(alloc)?,
            imports: copy_texts(alloc, self.imports.items())?,
            class: self.class.drop_parens(alloc)?,
        })
    }
}

impl ClassDecl {
    fn drop_parens(&self, alloc: Global) -> Result<ClassDecl, OutOfMemory>
        ensures { IfOk result (λ bare. bare ≡ map_class expr_without_parens self.now) }
    {
        Ok(ClassDecl {
            front: copy_texts(alloc, self.front.items())?,
            words: copy_texts(alloc, self.words.items())?,
            name: self.name.copy(alloc)?,
            parent: copy_parent(alloc, &self.parent)?,
            members: bare_members(alloc, self.members.items())?,
            tail: copy_texts(alloc, self.tail.items())?,
        })
    }
}

fn bare_members(alloc: Global, members: &[Member]) -> Result<List<Member>, OutOfMemory>
    ensures { IfOk result (λ all. all ≡ map spec.member_without_parens members.now) }
{
    let mut all = List::new(alloc);
    for member in members {
        all.add(member.drop_parens(alloc)?)?;
    }
    Ok(all)
}

impl Member {
    fn drop_parens(&self, alloc: Global) -> Result<Member, OutOfMemory>
        ensures { IfOk result (λ bare. bare ≡ spec.member_without_parens self.now) }
    {
        match self {
            Member::Field(field) => Ok(Member::Field(field.drop_parens(alloc)?)),
            Member::Method(method) => Ok(Member::Method(method.drop_parens(alloc)?)),
            Member::Ctor(ctor) => Ok(Member::Ctor(ctor.drop_parens(alloc)?)),
        }
    }
}

impl Field {
    fn drop_parens(&self, alloc: Global) -> Result<Field, OutOfMemory>
        ensures { IfOk result (λ bare. bare ≡ map_field expr_without_parens self.now) }
    {
        Ok(Field {
            front: copy_texts(alloc, self.front.items())?,
            at: self.at,
            words: copy_texts(alloc, self.words.items())?,
            ty: self.ty.copy(alloc)?,
            name: self.name.copy(alloc)?,
            init: bare_maybe(alloc, &self.init)?,
        })
    }
}

impl Method {
    fn drop_parens(&self, alloc: Global) -> Result<Method, OutOfMemory>
        ensures { IfOk result (λ bare. bare ≡ map_method expr_without_parens self.now) }
    {
        Ok(Method {
            front: copy_texts(alloc, self.front.items())?,
            at: self.at,
            words: copy_texts(alloc, self.words.items())?,
            is_static: self.is_static,
            result: self.result.copy(alloc)?,
            name: self.name.copy(alloc)?,
            params: copy_params(alloc, self.params.items())?,
            block: bare_body(alloc, &self.block)?,
        })
    }
}

fn bare_body(alloc: Global, block: &Option<Block>) -> Result<Option<Block>, OutOfMemory>
    ensures { IfOk result (λ bare. bare ≡ option_map spec.block_without_parens block.now) }
{
    match block {
        Some(block) => Ok(Some(block.drop_parens(alloc)?)),
        None => Ok(None),
    }
}

impl Ctor {
    fn drop_parens(&self, alloc: Global) -> Result<Ctor, OutOfMemory>
        ensures { IfOk result (λ bare. bare ≡ map_ctor expr_without_parens self.now) }
    {
        Ok(Ctor {
            front: copy_texts(alloc, self.front.items())?,
            at: self.at,
            words: copy_texts(alloc, self.words.items())?,
            params: copy_params(alloc, self.params.items())?,
            block: self.block.drop_parens(alloc)?,
        })
    }
}
