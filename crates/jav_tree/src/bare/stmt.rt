ghost use Rattle.std.specs.Prelude.{◌≡◌, IfOk, map};
ghost use Rattle.jav_tree.specs.EachExpression.{map_block, map_declarator, map_else, map_let, map_start, map_stmt, map_stmt_node};
ghost use Rattle.jav_tree.specs.Parens.{expr_without_parens};

use crate::bare::{bare_all, bare_maybe};
use crate::copy::copy_texts;
use crate::stmt::{Block, Declarator, Else, ForStart, Let, Stmt, StmtNode};
use mol_base::{Boxed, List, OutOfMemory, both};
use std::alloc::Global;

impl Declarator {
    fn drop_parens(&self, alloc: Global) -> Result<Declarator, OutOfMemory>
        ensures { IfOk result (λ bare. bare ≡ map_declarator expr_without_parens self.now) }
    {
        Ok(Declarator {
            name: self.name.copy(alloc)?,
            init: bare_maybe(alloc, &self.init)?,
        })
    }
}

fn bare_names(alloc: Global, items: &[Declarator]) -> Result<List<Declarator>, OutOfMemory>
    ensures { IfOk result (λ all. all ≡ map (map_declarator expr_without_parens) items.now) }
{
    let mut all = List::new(alloc);
    for item in items {
        all.add(item.drop_parens(alloc)?)?;
    }
    Ok(all)
}

impl Let {
    fn drop_parens(&self, alloc: Global) -> Result<Let, OutOfMemory>
        ensures { IfOk result (λ bare. bare ≡ map_let expr_without_parens self.now) }
    {
        Ok(Let {
            is_final: self.is_final,
            ty: self.ty.copy(alloc)?,
            names: bare_names(alloc, self.names.items())?,
        })
    }
}

impl ForStart {
    fn drop_parens(&self, alloc: Global) -> Result<ForStart, OutOfMemory>
        ensures { IfOk result (λ bare. bare ≡ map_start expr_without_parens self.now) }
    {
        match self {
            ForStart::None => Ok(ForStart::None),
            ForStart::Let(decl) => Ok(ForStart::Let(decl.drop_parens(alloc)?)),
            ForStart::Do(all) => Ok(ForStart::Do(bare_all(alloc, all.items())?)),
        }
    }
}

impl Block {
    /// The block with each `Paren` replaced by what it holds. `Err` is want of memory.
    #[cycle(bare_stmt)]
    pub fn drop_parens(&self, alloc: Global) -> Result<Block, OutOfMemory>
        ensures { IfOk result (λ bare. bare ≡ map_block expr_without_parens self.now) }
    {
        Ok(Block {
            items: bare_stmts(alloc, self.items.items())?,
            tail: copy_texts(alloc, self.tail.items())?,
        })
    }
}

impl Stmt {
    #[cycle(bare_stmt)]
    fn drop_parens(&self, alloc: Global) -> Result<Stmt, OutOfMemory>
        ensures { IfOk result (λ bare. bare ≡ map_stmt expr_without_parens self.now) }
    {
        Ok(Stmt {
            notes: copy_texts(alloc, self.notes.items())?,
            at: self.at,
            node: self.node.drop_parens(alloc)?,
        })
    }
}

impl Else {
    #[cycle(bare_stmt)]
    fn drop_parens(&self, alloc: Global) -> Result<Else, OutOfMemory>
        ensures { IfOk result (λ bare. bare ≡ map_else expr_without_parens self.now) }
    {
        match self {
            Else::None => Ok(Else::None),
            Else::Block(block) => Ok(Else::Block(block.drop_parens(alloc)?)),
            Else::If(stmt) => Ok(Else::If(Boxed::new(alloc, stmt.get().drop_parens(alloc)?)?)),
        }
    }
}

impl StmtNode {
    #[cycle(bare_stmt)]
    fn drop_parens(&self, alloc: Global) -> Result<StmtNode, OutOfMemory>
        ensures { IfOk result (λ bare. bare ≡ map_stmt_node expr_without_parens self.now) }
    {
        match self {
            StmtNode::Block(block) => match block.drop_parens(alloc) {
                Ok(block) => Ok(StmtNode::Block(block)),
                Err(want) => Err(want),
            },
            StmtNode::Let(decl) => match decl.drop_parens(alloc) {
                Ok(decl) => Ok(StmtNode::Let(decl)),
                Err(want) => Err(want),
            },
            StmtNode::Do(e) => match e.drop_parens(alloc) {
                Ok(e) => Ok(StmtNode::Do(e)),
                Err(want) => Err(want),
            },
            StmtNode::If(e, then, other) => match both(
                e.drop_parens(alloc),
                both(then.drop_parens(alloc), other.drop_parens(alloc)),
            ) {
                Ok((e, (then, other))) => Ok(StmtNode::If(e, then, other)),
                Err(want) => Err(want),
            },
            StmtNode::While(e, body) => match both(e.drop_parens(alloc), body.drop_parens(alloc)) {
                Ok((e, body)) => Ok(StmtNode::While(e, body)),
                Err(want) => Err(want),
            },
            StmtNode::For(start, test, steps, body) => match both(
                both(start.drop_parens(alloc), bare_maybe(alloc, test)),
                both(bare_all(alloc, steps.items()), body.drop_parens(alloc)),
            ) {
                Ok(((start, test), (steps, body))) => Ok(StmtNode::For(start, test, steps, body)),
                Err(want) => Err(want),
            },
            StmtNode::Each(is_final, ty, name, e, body) => match both(
                both(ty.copy(alloc), name.copy(alloc)),
                both(e.drop_parens(alloc), body.drop_parens(alloc)),
            ) {
                Ok(((ty, name), (e, body))) => Ok(StmtNode::Each(*is_final, ty, name, e, body)),
                Err(want) => Err(want),
            },
            StmtNode::Return(e) => match bare_maybe(alloc, e) {
                Ok(e) => Ok(StmtNode::Return(e)),
                Err(want) => Err(want),
            },
            StmtNode::Throw(e) => match e.drop_parens(alloc) {
                Ok(e) => Ok(StmtNode::Throw(e)),
                Err(want) => Err(want),
            },
            StmtNode::Break => Ok(StmtNode::Break),
            StmtNode::Continue => Ok(StmtNode::Continue),
            StmtNode::Empty => Ok(StmtNode::Empty),
            StmtNode::SuperInit(args) => match bare_all(alloc, args.items()) {
                Ok(args) => Ok(StmtNode::SuperInit(args)),
                Err(want) => Err(want),
            },
        }
    }
}

#[cycle(bare_stmt)]
fn bare_stmts(alloc: Global, items: &[Stmt]) -> Result<List<Stmt>, OutOfMemory>
    ensures { IfOk result (λ all. all ≡ map (map_stmt expr_without_parens) items.now) }
{
    let mut all = List::new(alloc);
    for item in items {
        all.add(item.drop_parens(alloc)?)?;
    }
    Ok(all)
}
