//! What bodies, blocks and statements mention.
ghost use Rattle.std.specs.Prelude.{◌≡◌, ◌++◌, OnOk};
ghost use Rattle.mol_faults_mentions.specs.mentions.Parts.{each_expr, else_mentions, if_mentions, names_mentions, node_mentions, statement_mentions, statements_mentions};
ghost use Rattle.mol_table_rules.specs.Mentions.{block_mentions, body_mentions, expr_mentions, let_mentions, maybe_mentions, start_mentions, type_mentions};

use crate::mentions::expressions::{add_all, add_call, add_expr, add_maybe, add_type};
use crate::mentions::mention::Role;
use crate::mentions::mentions::Mentions;
use mol_base::OutOfMemory;
use mol_values_types::{
    IBlock, IBody, IDeclarator, IElse, IExpr, IForStart, IIf, ILet, IStmt, IStmtNode, IType,
};

/// Adds what the body mentions, where there is one.
pub(crate) fn add_body(mentions: &mut Mentions, body: &Option<IBody>) -> Result<(), OutOfMemory>
    ensures { OnOk result (mentions.new ≡ mentions.old ++ body_mentions body.now) }
{
    match body {
        Some(body) => add_block(mentions, &body.block),
        None => Ok(()),
    }
}

/// Adds what the first values of variables mention.
fn add_names(mentions: &mut Mentions, names: &[IDeclarator]) -> Result<(), OutOfMemory>
    ensures { OnOk result (mentions.new ≡ mentions.old ++ names_mentions names.now) }
{
    for name in names {
        add_maybe(mentions, &name.init)?;
    }
    Ok(())
}

/// Adds what a declaration of variables mentions.
fn add_let(mentions: &mut Mentions, declared: &ILet) -> Result<(), OutOfMemory>
    ensures { OnOk result (mentions.new ≡ mentions.old ++ let_mentions declared.now) }
{
    add_type(mentions, &declared.ty)?;
    add_names(mentions, declared.names.items())
}

/// Adds what the start of a `for` mentions.
fn add_start(mentions: &mut Mentions, start: &IForStart) -> Result<(), OutOfMemory>
    ensures { OnOk result (mentions.new ≡ mentions.old ++ start_mentions start.now) }
{
    match start {
        IForStart::None => Ok(()),
        IForStart::Let(declared) => add_let(mentions, declared),
        IForStart::Do(items) => add_all(mentions, items.items()),
    }
}

/// Adds what the start and the test of a `for` mention.
fn add_tested(
    mentions: &mut Mentions,
    start: &IForStart,
    test: &Option<IExpr>,
) -> Result<(), OutOfMemory>
    ensures { OnOk result (mentions.new ≡ mentions.old ++ (start_mentions start.now ++ maybe_mentions test.now)) }
{
    add_start(mentions, start)?;
    add_maybe(mentions, test)
}

/// Adds what the header of a `for` mentions.
fn add_header(
    mentions: &mut Mentions,
    start: &IForStart,
    test: &Option<IExpr>,
    steps: &[IExpr],
) -> Result<(), OutOfMemory>
    ensures { OnOk result (mentions.new ≡ mentions.old
        ++ (start_mentions start.now ++ maybe_mentions test.now ++ each_expr steps.now)) }
{
    add_tested(mentions, start, test)?;
    add_all(mentions, steps)
}

/// Adds what the type of a variable mentions and what it goes over.
fn add_items(mentions: &mut Mentions, ty: &IType, e: &IExpr) -> Result<(), OutOfMemory>
    ensures { OnOk result (mentions.new ≡ mentions.old ++ (type_mentions ty.now ++ expr_mentions e.now)) }
{
    add_type(mentions, ty)?;
    add_expr(mentions, e)
}

/// Adds what a block mentions.
#[cycle(statement)]
fn add_block(mentions: &mut Mentions, block: &IBlock) -> Result<(), OutOfMemory>
    ensures { OnOk result (mentions.new ≡ mentions.old ++ block_mentions block.now) }
{
    add_statements(mentions, block.items.items())
}

/// Adds what statements mention, one after the other.
#[cycle(statement)]
fn add_statements(mentions: &mut Mentions, items: &[IStmt]) -> Result<(), OutOfMemory>
    ensures { OnOk result (mentions.new ≡ mentions.old ++ statements_mentions items.now) }
{
    for item in items {
        add_statement(mentions, item)?;
    }
    Ok(())
}

/// Adds what a statement mentions.
#[cycle(statement)]
fn add_statement(mentions: &mut Mentions, statement: &IStmt) -> Result<(), OutOfMemory>
    ensures { OnOk result (mentions.new ≡ mentions.old ++ statement_mentions statement.now) }
{
    add_node(mentions, &statement.node)
}

/// Adds what a statement without its comments mentions.
#[cycle(statement)]
fn add_node(mentions: &mut Mentions, node: &IStmtNode) -> Result<(), OutOfMemory>
    ensures { OnOk result (mentions.new ≡ mentions.old ++ node_mentions node.now) }
{
    match node {
        IStmtNode::Block(block) => add_block(mentions, block),
        IStmtNode::Let(declared) => add_let(mentions, declared),
        IStmtNode::Do(e) => add_expr(mentions, e),
        IStmtNode::If(branch) => add_if(mentions, branch),
        IStmtNode::While(test, block) => add_tested_block(mentions, test, block),
        IStmtNode::For(start, test, steps, block) => {
            add_for(mentions, start, test, steps.items(), block)
        },
        IStmtNode::Each(_, ty, _, e, block) => add_each(mentions, ty, e, block),
        IStmtNode::Return(e) => add_maybe(mentions, e),
        IStmtNode::Throw(e) => add_expr(mentions, e),
        IStmtNode::Break => Ok(()),
        IStmtNode::Continue => Ok(()),
        IStmtNode::Empty => Ok(()),
        IStmtNode::Super(constructor, args) => {
            add_call(mentions, Role::Constructor, constructor, args.items())
        },
        IStmtNode::SuperDefault(class) => mentions.add(Role::Class, class),
        IStmtNode::SuperOutside(args) => add_all(mentions, args.items()),
    }
}

/// Adds what a test and the block that it guards mention.
#[cycle(statement)]
fn add_tested_block(
    mentions: &mut Mentions,
    test: &IExpr,
    block: &IBlock,
) -> Result<(), OutOfMemory>
    ensures { OnOk result (mentions.new ≡ mentions.old ++ (expr_mentions test.now ++ block_mentions block.now)) }
{
    add_expr(mentions, test)?;
    add_block(mentions, block)
}

/// Adds what a `for` mentions.
#[cycle(statement)]
fn add_for(
    mentions: &mut Mentions,
    start: &IForStart,
    test: &Option<IExpr>,
    steps: &[IExpr],
    block: &IBlock,
) -> Result<(), OutOfMemory>
    ensures { OnOk result (mentions.new ≡ mentions.old
        ++ (start_mentions start.now ++ maybe_mentions test.now ++ each_expr steps.now ++ block_mentions block.now)) }
{
    add_header(mentions, start, test, steps)?;
    add_block(mentions, block)
}

/// Adds what a `for` over items mentions.
#[cycle(statement)]
fn add_each(
    mentions: &mut Mentions,
    ty: &IType,
    e: &IExpr,
    block: &IBlock,
) -> Result<(), OutOfMemory>
    ensures { OnOk result (mentions.new ≡ mentions.old
        ++ (type_mentions ty.now ++ expr_mentions e.now ++ block_mentions block.now)) }
{
    add_items(mentions, ty, e)?;
    add_block(mentions, block)
}

/// Adds what an `if` mentions.
#[cycle(statement)]
fn add_if(mentions: &mut Mentions, branch: &IIf) -> Result<(), OutOfMemory>
    ensures { OnOk result (mentions.new ≡ mentions.old ++ if_mentions branch.now) }
{
    add_tested_block(mentions, &branch.test, &branch.then)?;
    add_else(mentions, &branch.rest)
}

/// Adds what follows `else` mentions.
#[cycle(statement)]
fn add_else(mentions: &mut Mentions, rest: &IElse) -> Result<(), OutOfMemory>
    ensures { OnOk result (mentions.new ≡ mentions.old ++ else_mentions rest.now) }
{
    match rest {
        IElse::None => Ok(()),
        IElse::Block(block) => add_block(mentions, block),
        IElse::If(branch) => add_if(mentions, branch.get()),
    }
}
