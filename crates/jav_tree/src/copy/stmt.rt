ghost use Rattle.std.specs.Prelude.{◌≡◌, IfOk};

use crate::copy::{copy_all, copy_maybe, copy_texts};
use crate::stmt::{Block, Declarator, Else, ForStart, Let, Stmt, StmtNode};
use mol_base::{Boxed, List, OutOfMemory, both};
use std::alloc::Global;

impl Declarator {
    fn copy(&self, alloc: Global) -> Result<Declarator, OutOfMemory>
        ensures { IfOk result (λ copy. copy ≡ self.now) }
    {
        Ok(Declarator {
            name: self.name.copy(alloc)?,
            init: copy_maybe(alloc, &self.init)?,
        })
    }
}

fn copy_names(alloc: Global, items: &[Declarator]) -> Result<List<Declarator>, OutOfMemory>
    ensures { IfOk result (λ all. all ≡ items.now) }
{
    let mut all = List::new(alloc);
    for item in items {
        all.add(item.copy(alloc)?)?;
    }
    Ok(all)
}

impl Let {
    fn copy(&self, alloc: Global) -> Result<Let, OutOfMemory>
        ensures { IfOk result (λ copy. copy ≡ self.now) }
    {
        Ok(Let {
            is_final: self.is_final,
            ty: self.ty.copy(alloc)?,
            names: copy_names(alloc, self.names.items())?,
        })
    }
}

impl ForStart {
    fn copy(&self, alloc: Global) -> Result<ForStart, OutOfMemory>
        ensures { IfOk result (λ copy. copy ≡ self.now) }
    {
        match self {
            ForStart::None => Ok(ForStart::None),
            ForStart::Let(decl) => Ok(ForStart::Let(decl.copy(alloc)?)),
            ForStart::Do(all) => Ok(ForStart::Do(copy_all(alloc, all.items())?)),
        }
    }
}

impl Block {
    /// A block that equals this one.
    #[cycle(copy_stmt)]
    pub fn copy(&self, alloc: Global) -> Result<Block, OutOfMemory>
        ensures { IfOk result (λ copy. copy ≡ self.now) }
    {
        Ok(Block {
            items: copy_stmts(alloc, self.items.items())?,
            tail: copy_texts(alloc, self.tail.items())?,
        })
    }
}

impl Stmt {
    /// A statement that equals this one.
    #[cycle(copy_stmt)]
    pub fn copy(&self, alloc: Global) -> Result<Stmt, OutOfMemory>
        ensures { IfOk result (λ copy. copy ≡ self.now) }
    {
        Ok(Stmt {
            notes: copy_texts(alloc, self.notes.items())?,
            at: self.at,
            node: self.node.copy(alloc)?,
        })
    }
}

impl Else {
    #[cycle(copy_stmt)]
    fn copy(&self, alloc: Global) -> Result<Else, OutOfMemory>
        ensures { IfOk result (λ copy. copy ≡ self.now) }
    {
        match self {
            Else::None => Ok(Else::None),
            Else::Block(block) => Ok(Else::Block(block.copy(alloc)?)),
            Else::If(stmt) => Ok(Else::If(Boxed::new(alloc, stmt.get().copy(alloc)?)?)),
        }
    }
}

impl StmtNode {
    #[cycle(copy_stmt)]
    fn copy(&self, alloc: Global) -> Result<StmtNode, OutOfMemory>
        ensures { IfOk result (λ copy. copy ≡ self.now) }
    {
        match self {
            StmtNode::Block(block) => match block.copy(alloc) {
                Ok(block) => Ok(StmtNode::Block(block)),
                Err(want) => Err(want),
            },
            StmtNode::Let(decl) => match decl.copy(alloc) {
                Ok(decl) => Ok(StmtNode::Let(decl)),
                Err(want) => Err(want),
            },
            StmtNode::Do(e) => match e.copy(alloc) {
                Ok(e) => Ok(StmtNode::Do(e)),
                Err(want) => Err(want),
            },
            StmtNode::If(e, then, other) => match both(
                e.copy(alloc),
                both(then.copy(alloc), other.copy(alloc)),
            ) {
                Ok((e, (then, other))) => Ok(StmtNode::If(e, then, other)),
                Err(want) => Err(want),
            },
            StmtNode::While(e, body) => match both(e.copy(alloc), body.copy(alloc)) {
                Ok((e, body)) => Ok(StmtNode::While(e, body)),
                Err(want) => Err(want),
            },
            StmtNode::For(start, test, steps, body) => match both(
                both(start.copy(alloc), copy_maybe(alloc, test)),
                both(copy_all(alloc, steps.items()), body.copy(alloc)),
            ) {
                Ok(((start, test), (steps, body))) => Ok(StmtNode::For(start, test, steps, body)),
                Err(want) => Err(want),
            },
            StmtNode::Each(is_final, ty, name, e, body) => match both(
                both(ty.copy(alloc), name.copy(alloc)),
                both(e.copy(alloc), body.copy(alloc)),
            ) {
                Ok(((ty, name), (e, body))) => Ok(StmtNode::Each(*is_final, ty, name, e, body)),
                Err(want) => Err(want),
            },
            StmtNode::Return(e) => match copy_maybe(alloc, e) {
                Ok(e) => Ok(StmtNode::Return(e)),
                Err(want) => Err(want),
            },
            StmtNode::Throw(e) => match e.copy(alloc) {
                Ok(e) => Ok(StmtNode::Throw(e)),
                Err(want) => Err(want),
            },
            StmtNode::Break => Ok(StmtNode::Break),
            StmtNode::Continue => Ok(StmtNode::Continue),
            StmtNode::Empty => Ok(StmtNode::Empty),
            StmtNode::SuperInit(args) => match copy_all(alloc, args.items()) {
                Ok(args) => Ok(StmtNode::SuperInit(args)),
                Err(want) => Err(want),
            },
        }
    }
}

#[cycle(copy_stmt)]
fn copy_stmts(alloc: Global, items: &[Stmt]) -> Result<List<Stmt>, OutOfMemory>
    ensures { IfOk result (λ all. all ≡ items.now) }
{
    let mut all = List::new(alloc);
    for item in items {
        all.add(item.copy(alloc)?)?;
    }
    Ok(all)
}
