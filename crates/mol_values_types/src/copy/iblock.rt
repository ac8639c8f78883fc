ghost use Rattle.std.specs.Prelude.{◌≡◌, IfOk};
ghost use Rattle.mol_values_types.specs.Blocks.{branch_of};

use crate::copy::{copy_all, copy_arguments, copy_maybe, copy_texts};
use crate::{IBlock, IBody, IDeclarator, IElse, IExpr, IForStart, IIf, ILet, IStmt, IStmtNode};
use mol_base::{Boxed, List, OutOfMemory, both};
use std::alloc::Global;

impl IBody {
    /// A body that equals this one.
    pub fn copy(&self, alloc: Global) -> Result<IBody, OutOfMemory>
        ensures { IfOk result (λ copy. copy ≡ self.now) }
    {
        Ok(IBody {
            block: self.block.copy(alloc)?,
        })
    }
}

impl IDeclarator {
    /// A variable and first value that equal these.
    pub fn copy(&self, alloc: Global) -> Result<IDeclarator, OutOfMemory>
        ensures { IfOk result (λ copy. copy ≡ self.now) }
    {
        Ok(IDeclarator {
            name: self.name.copy(alloc)?,
            init: copy_maybe(alloc, &self.init)?,
        })
    }
}

fn copy_names(alloc: Global, items: &[IDeclarator]) -> Result<List<IDeclarator>, OutOfMemory>
    ensures { IfOk result (λ all. all ≡ items.now) }
{
    let mut all = List::new(alloc);
    for item in items {
        all.add(item.copy(alloc)?)?;
    }
    Ok(all)
}

impl ILet {
    /// A declaration that equals this one.
    pub fn copy(&self, alloc: Global) -> Result<ILet, OutOfMemory>
        ensures { IfOk result (λ copy. copy ≡ self.now) }
    {
        Ok(ILet {
            is_final: self.is_final,
            ty: self.ty.copy(alloc)?,
            names: copy_names(alloc, self.names.items())?,
        })
    }
}

impl IForStart {
    /// A start that equals this one.
    pub fn copy(&self, alloc: Global) -> Result<IForStart, OutOfMemory>
        ensures { IfOk result (λ copy. copy ≡ self.now) }
    {
        match self {
            IForStart::None => Ok(IForStart::None),
            IForStart::Let(decl) => Ok(IForStart::Let(decl.copy(alloc)?)),
            IForStart::Do(all) => Ok(IForStart::Do(copy_all(alloc, all.items())?)),
        }
    }
}

impl IBlock {
    /// A block that equals this one.
    #[cycle(copy_istmt)]
    pub fn copy(&self, alloc: Global) -> Result<IBlock, OutOfMemory>
        ensures { IfOk result (λ copy. copy ≡ self.now) }
    {
        Ok(IBlock {
            items: copy_stmts(alloc, self.items.items())?,
            tail: copy_texts(alloc, self.tail.items())?,
        })
    }
}

impl IStmt {
    /// A statement that equals this one.
    #[cycle(copy_istmt)]
    pub fn copy(&self, alloc: Global) -> Result<IStmt, OutOfMemory>
        ensures { IfOk result (λ copy. copy ≡ self.now) }
    {
        Ok(IStmt {
            notes: copy_texts(alloc, self.notes.items())?,
            node: self.node.copy(alloc)?,
        })
    }
}

impl IElse {
    /// What follows `else`, equal to this.
    #[cycle(copy_istmt)]
    pub fn copy(&self, alloc: Global) -> Result<IElse, OutOfMemory>
        ensures { IfOk result (λ copy. copy ≡ self.now) }
    {
        match self {
            IElse::None => Ok(IElse::None),
            IElse::Block(block) => Ok(IElse::Block(block.copy(alloc)?)),
            IElse::If(branch) => Ok(IElse::If(Boxed::new(alloc, branch.get().copy(alloc)?)?)),
        }
    }
}

impl IIf {
    /// An `if` that equals this one.
    #[cycle(copy_istmt)]
    pub fn copy(&self, alloc: Global) -> Result<IIf, OutOfMemory>
        ensures { IfOk result (λ copy. copy ≡ self.now) }
    {
        let then = self.then.copy(alloc)?;
        let rest = self.rest.copy(alloc)?;
        branch_of(alloc, &self.test, then, rest)
    }
}

/// An `if` of these branches, whose test equals this one.
fn branch_of(alloc: Global, test: &IExpr, then: IBlock, rest: IElse) -> Result<IIf, OutOfMemory>
    ensures { IfOk result (λ branch. branch ≡ branch_of test.now then rest) }
{
    Ok(IIf {
        test: test.copy(alloc)?,
        then,
        rest,
    })
}

impl IStmtNode {
    /// A statement without its comments, equal to this one.
    #[cycle(copy_istmt)]
    pub fn copy(&self, alloc: Global) -> Result<IStmtNode, OutOfMemory>
        ensures { IfOk result (λ copy. copy ≡ self.now) }
    {
        match self {
            IStmtNode::Block(block) => match block.copy(alloc) {
                Ok(block) => Ok(IStmtNode::Block(block)),
                Err(want) => Err(want),
            },
            IStmtNode::Let(decl) => match decl.copy(alloc) {
                Ok(decl) => Ok(IStmtNode::Let(decl)),
                Err(want) => Err(want),
            },
            IStmtNode::Do(e) => match e.copy(alloc) {
                Ok(e) => Ok(IStmtNode::Do(e)),
                Err(want) => Err(want),
            },
            IStmtNode::If(branch) => match branch.copy(alloc) {
                Ok(branch) => Ok(IStmtNode::If(branch)),
                Err(want) => Err(want),
            },
            IStmtNode::While(e, body) => match both(e.copy(alloc), body.copy(alloc)) {
                Ok((e, body)) => Ok(IStmtNode::While(e, body)),
                Err(want) => Err(want),
            },
            IStmtNode::For(start, test, steps, body) => match both(
                start.copy(alloc),
                both(
                    copy_maybe(alloc, test),
                    both(copy_all(alloc, steps.items()), body.copy(alloc)),
                ),
            ) {
                Ok((start, (test, (steps, body)))) => Ok(IStmtNode::For(start, test, steps, body)),
                Err(want) => Err(want),
            },
            IStmtNode::Each(is_final, ty, name, e, body) => match both(
                ty.copy(alloc),
                both(name.copy(alloc), both(e.copy(alloc), body.copy(alloc))),
            ) {
                Ok((ty, (name, (e, body)))) => Ok(IStmtNode::Each(*is_final, ty, name, e, body)),
                Err(want) => Err(want),
            },
            IStmtNode::Return(e) => match copy_maybe(alloc, e) {
                Ok(e) => Ok(IStmtNode::Return(e)),
                Err(want) => Err(want),
            },
            IStmtNode::Throw(e) => match e.copy(alloc) {
                Ok(e) => Ok(IStmtNode::Throw(e)),
                Err(want) => Err(want),
            },
            IStmtNode::Break => Ok(IStmtNode::Break),
            IStmtNode::Continue => Ok(IStmtNode::Continue),
            IStmtNode::Empty => Ok(IStmtNode::Empty),
            IStmtNode::Super(constructor, args) => match copy_arguments(alloc, args.items()) {
                Ok(args) => Ok(IStmtNode::Super(*constructor, args)),
                Err(want) => Err(want),
            },
            IStmtNode::SuperDefault(class) => Ok(IStmtNode::SuperDefault(*class)),
            IStmtNode::SuperOutside(args) => match copy_all(alloc, args.items()) {
                Ok(args) => Ok(IStmtNode::SuperOutside(args)),
                Err(want) => Err(want),
            },
        }
    }
}

#[cycle(copy_istmt)]
fn copy_stmts(alloc: Global, items: &[IStmt]) -> Result<List<IStmt>, OutOfMemory>
    ensures { IfOk result (λ all. all ≡ items.now) }
{
    let mut all = List::new(alloc);
    for item in items {
        all.add(item.copy(alloc)?)?;
    }
    Ok(all)
}
