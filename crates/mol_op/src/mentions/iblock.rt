//! Bodies, blocks and statements.
ghost use Rattle.std.specs.Prelude.{map};
ghost use Rattle.std.specs.List.{flat_map};
ghost use Rattle.mol_table_rules.specs.Mentions.{body_mentions, block_mentions, let_mentions, start_mentions};
ghost use Rattle.mol_op.specs.Seen.{seen_by};
ghost use Rattle.mol_op.specs.Statements.{statement_mentions, statements_mentions, node_mentions, if_mentions, else_mentions, names_mentions};
ghost use Rattle.mol_op.specs.Tests.{IsVerdict, mentions_fault};

use crate::OpFault;
use crate::mentions::Seen;
use crate::mentions::iexpr::{check_all, check_arguments, check_expr, check_maybe, check_type};
use mol_values_types::{IBlock, IBody, IDeclarator, IElse, IForStart, IIf, ILet, IStmt, IStmtNode};

/// What the body mentions may be mentioned, where there is one.
pub(crate) fn check_body(seen: &Seen<'_>, body: &Option<IBody>) -> Result<(), OpFault>
    ensures { IsVerdict (mentions_fault (seen_by seen.now) (body_mentions body.now)) result }
{
    match body {
        Some(body) => check_block(seen, &body.block),
        None => Ok(()),
    }
}

/// What the first values of the variables mention may be mentioned.
fn check_names(seen: &Seen<'_>, names: &[IDeclarator]) -> Result<(), OpFault>
    ensures { IsVerdict (mentions_fault (seen_by seen.now) (names_mentions names.now)) result }
{
    for name in names {
        check_maybe(seen, &name.init)?;
    }
    Ok(())
}

/// What the declaration mentions may be mentioned.
#[tactic(auto, using(crate::proofs::Mentioned::faults_append))]
fn check_let(seen: &Seen<'_>, declared: &ILet) -> Result<(), OpFault>
    ensures { IsVerdict (mentions_fault (seen_by seen.now) (let_mentions declared.now)) result }
{
    check_type(seen, &declared.ty)?;
    check_names(seen, declared.names.items())
}

/// What the start of a `for` mentions may be mentioned.
fn check_start(seen: &Seen<'_>, start: &IForStart) -> Result<(), OpFault>
    ensures { IsVerdict (mentions_fault (seen_by seen.now) (start_mentions start.now)) result }
{
    match start {
        IForStart::None => Ok(()),
        IForStart::Let(declared) => check_let(seen, declared),
        IForStart::Do(items) => check_all(seen, items.items()),
    }
}

/// What the block mentions may be mentioned.
#[cycle(check_istmt)]
fn check_block(seen: &Seen<'_>, block: &IBlock) -> Result<(), OpFault>
    ensures { IsVerdict (mentions_fault (seen_by seen.now) (block_mentions block.now)) result }
{
    check_statements(seen, block.items.items())
}

/// What the statements mention may be mentioned.
#[cycle(check_istmt)]
fn check_statements(seen: &Seen<'_>, items: &[IStmt]) -> Result<(), OpFault>
    ensures { IsVerdict (mentions_fault (seen_by seen.now) (statements_mentions items.now)) result }
{
    for item in items {
        check_node(seen, &item.node)?;
    }
    Ok(())
}

/// What the `if` mentions may be mentioned.
#[cycle(check_istmt)]
#[tactic(auto, using(crate::proofs::StatementFaults::statement_faults))]
fn check_if(seen: &Seen<'_>, branch: &IIf) -> Result<(), OpFault>
    ensures { IsVerdict (mentions_fault (seen_by seen.now) (if_mentions branch.now)) result }
{
    check_expr(seen, &branch.test)?;
    check_block(seen, &branch.then)?;
    check_else(seen, &branch.rest)
}

/// What follows `else` mentions what may be mentioned.
#[cycle(check_istmt)]
fn check_else(seen: &Seen<'_>, rest: &IElse) -> Result<(), OpFault>
    ensures { IsVerdict (mentions_fault (seen_by seen.now) (else_mentions rest.now)) result }
{
    match rest {
        IElse::None => Ok(()),
        IElse::Block(block) => check_block(seen, block),
        IElse::If(branch) => check_if(seen, branch.get()),
    }
}

/// What the statement without its comments mentions may be mentioned.
#[cycle(check_istmt)]
#[tactic(auto, using(crate::proofs::StatementFaults::statement_faults))]
fn check_node(seen: &Seen<'_>, node: &IStmtNode) -> Result<(), OpFault>
    ensures { IsVerdict (mentions_fault (seen_by seen.now) (node_mentions node.now)) result }
{
    match node {
        IStmtNode::Block(block) => check_block(seen, block),
        IStmtNode::Let(declared) => check_let(seen, declared),
        IStmtNode::Do(e) | IStmtNode::Throw(e) => check_expr(seen, e),
        IStmtNode::If(branch) => check_if(seen, branch),
        IStmtNode::While(test, block) => {
            check_expr(seen, test)?;
            check_block(seen, block)
        }
        IStmtNode::For(start, test, steps, block) => {
            check_start(seen, start)?;
            check_maybe(seen, test)?;
            check_all(seen, steps.items())?;
            check_block(seen, block)
        }
        IStmtNode::Each(_, ty, _, e, block) => {
            check_type(seen, ty)?;
            check_expr(seen, e)?;
            check_block(seen, block)
        }
        IStmtNode::Return(e) => check_maybe(seen, e),
        IStmtNode::Break | IStmtNode::Continue | IStmtNode::Empty => Ok(()),
        IStmtNode::Super(constructor, args) => {
            seen.constructor(constructor)?;
            check_arguments(seen, args.items())
        }
        IStmtNode::SuperDefault(class) => seen.class(class),
        IStmtNode::SuperOutside(args) => check_all(seen, args.items()),
    }
}
