//! Blocks and statements (JLS 14).
ghost use Rattle.std.specs.Prelude.{◌≡◌, ◌++◌, OnOk, map};
ghost use Rattle.mol_spell_rules.specs.DefaultCreations.{block_creations, expr_creations, exprs_creations, joined, let_creations, maybe_creations, start_creations};
ghost use Rattle.mol_faults_mentions.specs.creations.Parts.{else_creations, if_creations, names_creations, node_creations, statement_creations};

use crate::creations::exprs::{add_expr, add_exprs, add_maybe, add_values};
use mol_base::{Id, OutOfMemory};
use mol_values_types::{IBlock, IDeclarator, IElse, IExpr, IForStart, IIf, ILet, IStmt, IStmtNode};

/// Adds what the statements of a block create by default constructors.
#[cycle(block_creations)]
pub(crate) fn add_block(classes: &mut Vec<Id>, block: &IBlock) -> Result<(), OutOfMemory>
    ensures { OnOk result (classes.new.items ≡ classes.old.items ++ block_creations block.now) }
{
    add_statements(classes, block.items.items())
}

#[cycle(block_creations)]
fn add_statements(classes: &mut Vec<Id>, items: &[IStmt]) -> Result<(), OutOfMemory>
    ensures { OnOk result (classes.new.items ≡ classes.old.items ++ joined (map statement_creations items.now)) }
{
    for item in items {
        add_statement(classes, item)?;
    }
    Ok(())
}

#[cycle(block_creations)]
fn add_statement(classes: &mut Vec<Id>, statement: &IStmt) -> Result<(), OutOfMemory>
    ensures { OnOk result (classes.new.items ≡ classes.old.items ++ statement_creations statement.now) }
{
    add_node(classes, &statement.node)
}

#[cycle(block_creations)]
fn add_node(classes: &mut Vec<Id>, node: &IStmtNode) -> Result<(), OutOfMemory>
    ensures { OnOk result (classes.new.items ≡ classes.old.items ++ node_creations node.now) }
{
    match node {
        IStmtNode::Block(block) => add_block(classes, block),
        IStmtNode::Let(declared) => add_let(classes, declared),
        IStmtNode::Do(e) | IStmtNode::Throw(e) => add_expr(classes, e),
        IStmtNode::If(branch) => add_if(classes, branch),
        IStmtNode::While(test, block) => {
            add_expr(classes, test)?;
            add_block(classes, block)
        },
        IStmtNode::For(start, test, steps, block) => {
            add_header(classes, start, test, steps.items())?;
            add_block(classes, block)
        },
        IStmtNode::Each(_, _, _, e, block) => {
            add_expr(classes, e)?;
            add_block(classes, block)
        },
        IStmtNode::Return(e) => add_maybe(classes, e),
        IStmtNode::Break | IStmtNode::Continue | IStmtNode::Empty => Ok(()),
        IStmtNode::Super(_, args) => add_values(classes, args.items()),
        IStmtNode::SuperDefault(_) => Ok(()),
        IStmtNode::SuperOutside(args) => add_exprs(classes, args.items()),
    }
}

#[cycle(block_creations)]
fn add_if(classes: &mut Vec<Id>, branch: &IIf) -> Result<(), OutOfMemory>
    ensures { OnOk result (classes.new.items ≡ classes.old.items ++ if_creations branch.now) }
{
    add_expr(classes, &branch.test)?;
    add_block(classes, &branch.then)?;
    add_else(classes, &branch.rest)
}

#[cycle(block_creations)]
fn add_else(classes: &mut Vec<Id>, rest: &IElse) -> Result<(), OutOfMemory>
    ensures { OnOk result (classes.new.items ≡ classes.old.items ++ else_creations rest.now) }
{
    match rest {
        IElse::None => Ok(()),
        IElse::Block(block) => add_block(classes, block),
        IElse::If(branch) => add_if(classes, branch.get()),
    }
}

/// Adds what the header of a `for` creates.
fn add_header(
    classes: &mut Vec<Id>,
    start: &IForStart,
    test: &Option<IExpr>,
    steps: &[IExpr],
) -> Result<(), OutOfMemory>
    ensures { OnOk result (classes.new.items
        ≡ classes.old.items ++ ((start_creations start.now ++ maybe_creations test.now) ++ exprs_creations steps.now)) }
{
    add_start(classes, start)?;
    add_maybe(classes, test)?;
    add_exprs(classes, steps)
}

fn add_start(classes: &mut Vec<Id>, start: &IForStart) -> Result<(), OutOfMemory>
    ensures { OnOk result (classes.new.items ≡ classes.old.items ++ start_creations start.now) }
{
    match start {
        IForStart::None => Ok(()),
        IForStart::Let(declared) => add_let(classes, declared),
        IForStart::Do(es) => add_exprs(classes, es.items()),
    }
}

fn add_let(classes: &mut Vec<Id>, declared: &ILet) -> Result<(), OutOfMemory>
    ensures { OnOk result (classes.new.items ≡ classes.old.items ++ let_creations declared.now) }
{
    add_names(classes, declared.names.items())
}

/// Adds what the first values of variables create.
fn add_names(classes: &mut Vec<Id>, names: &[IDeclarator]) -> Result<(), OutOfMemory>
    ensures { OnOk result (classes.new.items ≡ classes.old.items ++ names_creations names.now) }
{
    for name in names {
        add_maybe(classes, &name.init)?;
    }
    Ok(())
}
