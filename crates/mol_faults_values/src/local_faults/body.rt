//! Bodies, by the names that they declare.
ghost use Rattle.std.specs.Prelude.{◌≡◌, OnOk, length, take};
ghost use Rattle.mol_faults_values.specs.local_faults.PartScopes.{each_scopes, else_scopes, for_scopes, if_scopes, names_scopes, node_scopes, params_scopes, statement_scopes, statements_scopes};
ghost use Rattle.mol_spell_rules.specs.LocalClashes.{block_scopes, start_scopes, then_next};

use crate::local_faults::scope::Scope;
use mol_base::{OutOfMemory, Text};
use mol_values_types::{IBlock, IDeclarator, IElse, IForStart, IIf, ILet, IStmt, IStmtNode, Param};

/// Parameters are declared, one after the other.
pub(crate) fn declare_params<'a>(
    scope: &mut Scope<'a>,
    params: &'a [Param],
) -> Result<(), OutOfMemory>
    ensures { OnOk result (scope.new ≡ then_next scope.old (params_scopes params.now)) }
{
    for param in params {
        scope.declare(param.name.as_str())?;
    }
    Ok(())
}

/// The variables of a declaration are declared, one after the other.
fn declare_names<'a>(scope: &mut Scope<'a>, names: &'a [IDeclarator]) -> Result<(), OutOfMemory>
    ensures scope { OnOk result (scope.new ≡ then_next scope.old (names_scopes names.now)) }
    ensures kept { OnOk result (take (length scope.old.in_scope) scope.new.in_scope ≡ scope.old.in_scope) }
{
    for declarator in names {
        scope.declare(declarator.name.as_str())?;
    }
    Ok(())
}

/// What the start of a `for` declares.
fn declare_start<'a>(scope: &mut Scope<'a>, start: &'a IForStart) -> Result<(), OutOfMemory>
    ensures scope { OnOk result (scope.new ≡ then_next scope.old (start_scopes start.now)) }
    ensures kept { OnOk result (take (length scope.old.in_scope) scope.new.in_scope ≡ scope.old.in_scope) }
{
    match start {
        IForStart::None => Ok(()),
        IForStart::Let(declared) => declare_names(scope, declared.names.items()),
        IForStart::Do(_) => Ok(()),
    }
}

/// What a block declares, which is in scope up to its end (JLS 6.3).
#[cycle(declared)]
pub(crate) fn declare_block<'a>(scope: &mut Scope<'a>, block: &'a IBlock) -> Result<(), OutOfMemory>
    ensures scope { OnOk result (scope.new ≡ then_next scope.old (block_scopes block.now)) }
    ensures kept { OnOk result (scope.new.in_scope ≡ scope.old.in_scope) }
{
    let mark = scope.mark();
    declare_statements(scope, block.items.items())?;
    scope.end_block(mark);
    Ok(())
}

/// What statements declare, one after the other.
#[cycle(declared)]
fn declare_statements<'a>(scope: &mut Scope<'a>, items: &'a [IStmt]) -> Result<(), OutOfMemory>
    ensures scope { OnOk result (scope.new ≡ then_next scope.old (statements_scopes items.now)) }
    ensures kept { OnOk result (take (length scope.old.in_scope) scope.new.in_scope ≡ scope.old.in_scope) }
{
    for statement in items {
        declare_statement(scope, statement)?;
    }
    Ok(())
}

/// What a statement declares.
#[cycle(declared)]
fn declare_statement<'a>(scope: &mut Scope<'a>, statement: &'a IStmt) -> Result<(), OutOfMemory>
    ensures scope { OnOk result (scope.new ≡ then_next scope.old (statement_scopes statement.now)) }
    ensures kept { OnOk result (take (length scope.old.in_scope) scope.new.in_scope ≡ scope.old.in_scope) }
{
    declare_node(scope, &statement.node)
}

/// What a statement without its comments declares.
#[cycle(declared)]
fn declare_node<'a>(scope: &mut Scope<'a>, node: &'a IStmtNode) -> Result<(), OutOfMemory>
    ensures scope { OnOk result (scope.new ≡ then_next scope.old (node_scopes node.now)) }
    ensures kept { OnOk result (take (length scope.old.in_scope) scope.new.in_scope ≡ scope.old.in_scope) }
{
    match node {
        IStmtNode::Block(block) => declare_block(scope, block),
        IStmtNode::Let(declared) => declare_names(scope, declared.names.items()),
        IStmtNode::Do(_) => Ok(()),
        IStmtNode::If(branch) => declare_if(scope, branch),
        IStmtNode::While(_, block) => declare_block(scope, block),
        IStmtNode::For(start, _, _, block) => declare_for(scope, start, block),
        IStmtNode::Each(_, _, name, _, block) => declare_each(scope, name, block),
        IStmtNode::Return(_) => Ok(()),
        IStmtNode::Throw(_) => Ok(()),
        IStmtNode::Break => Ok(()),
        IStmtNode::Continue => Ok(()),
        IStmtNode::Empty => Ok(()),
        IStmtNode::Super(_, _) => Ok(()),
        IStmtNode::SuperDefault(_) => Ok(()),
        IStmtNode::SuperOutside(_) => Ok(()),
    }
}

/// What a `for` declares, in scope up to its end.
#[cycle(declared)]
fn declare_for<'a>(
    scope: &mut Scope<'a>,
    start: &'a IForStart,
    block: &'a IBlock,
) -> Result<(), OutOfMemory>
    ensures scope { OnOk result (scope.new ≡ then_next scope.old (for_scopes start.now block.now)) }
    ensures kept { OnOk result (scope.new.in_scope ≡ scope.old.in_scope) }
{
    let mark = scope.mark();
    declare_start(scope, start)?;
    declare_block(scope, block)?;
    scope.end_block(mark);
    Ok(())
}

/// What a `for` over items declares, in scope up to its end.
#[cycle(declared)]
fn declare_each<'a>(
    scope: &mut Scope<'a>,
    name: &'a Text,
    block: &'a IBlock,
) -> Result<(), OutOfMemory>
    ensures scope { OnOk result (scope.new ≡ then_next scope.old (each_scopes name.now block.now)) }
    ensures kept { OnOk result (scope.new.in_scope ≡ scope.old.in_scope) }
{
    let mark = scope.mark();
    scope.declare(name.as_str())?;
    declare_block(scope, block)?;
    scope.end_block(mark);
    Ok(())
}

/// What the branches of an `if` declare.
#[cycle(declared)]
fn declare_if<'a>(scope: &mut Scope<'a>, branch: &'a IIf) -> Result<(), OutOfMemory>
    ensures scope { OnOk result (scope.new ≡ then_next scope.old (if_scopes branch.now)) }
    ensures kept { OnOk result (scope.new.in_scope ≡ scope.old.in_scope) }
{
    declare_block(scope, &branch.then)?;
    declare_else(scope, &branch.rest)
}

/// What is declared after `else`.
#[cycle(declared)]
fn declare_else<'a>(scope: &mut Scope<'a>, rest: &'a IElse) -> Result<(), OutOfMemory>
    ensures scope { OnOk result (scope.new ≡ then_next scope.old (else_scopes rest.now)) }
    ensures kept { OnOk result (scope.new.in_scope ≡ scope.old.in_scope) }
{
    match rest {
        IElse::None => Ok(()),
        IElse::Block(block) => declare_block(scope, block),
        IElse::If(branch) => declare_if(scope, branch.get()),
    }
}
