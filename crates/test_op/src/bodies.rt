//! Bodies, statement by statement.
ghost use Rattle.std.specs.Prelude.{◌≡◌, true, IsTrue, IfOk};
ghost use Rattle.std.specs.Option.{option_map_or};
ghost use Rattle.mol_table_rules.specs.StatementForms.{is_body, is_declarator, ordinary};
ghost use Rattle.mol_table_rules.specs.TypeForms.{is_type};
ghost use Rattle.test_op.specs.Given.{are_a_body, is_first, is_later, node_shape};

use crate::exprs::{read_action, read_arguments, read_expr, read_init};
use crate::fault::CaseFault;
use crate::line::Line;
use crate::texts::name_of;
use crate::types::read_type;
use mol_base::{Id, List};
use mol_values_types::{IBlock, IBody, IDeclarator, ILet, IStmt, IStmtNode, IType};
use std::alloc::Global;

/// The next body: `block`, a number, so many statements, and `0`, since no comment stands at the end; or `null` where
/// there is no body.
pub fn read_body(alloc: Global, line: &mut Line<'_>) -> Result<Option<IBody>, CaseFault>
    ensures { IfOk result (λ body. IsTrue (option_map_or is_body body true)) }
{
    match line.word() {
        "null" => Ok(None),
        "block" => Ok(Some(block_body(alloc, line)?)),
        _ => Err(CaseFault::Unread),
    }
}

/// The body whose words follow `block`.
#[tactic(auto, using(crate::proofs::Statements::body_formed))]
fn block_body(alloc: Global, line: &mut Line<'_>) -> Result<IBody, CaseFault>
    ensures { IfOk result (λ body. IsTrue (is_body body)) }
{
    let items = read_statements(alloc, line)?;
    line.take("0");
    Ok(IBody {
        block: IBlock {
            items,
            tail: List::new(alloc),
        },
    })
}

/// A number, and so many statements.
#[tactic(auto, using(crate::proofs::Statements::body_and_later))]
fn read_statements(alloc: Global, line: &mut Line<'_>) -> Result<List<IStmt>, CaseFault>
    ensures { IfOk result (λ items. IsTrue (are_a_body items)) }
{
    let count = line.number();
    let mut items = first_of(alloc, line, count)?;
    for _statement in 1..count {
        items.add(later_statement(alloc, line)?)?;
    }
    Ok(items)
}

/// The first one of so many statements, as a list.
#[tactic(auto, using(crate::proofs::Statements::body_of_first))]
fn first_of(alloc: Global, line: &mut Line<'_>, count: u32) -> Result<List<IStmt>, CaseFault>
    ensures { IfOk result (λ items. IsTrue (are_a_body items)) }
{
    let mut items = List::new(alloc);
    if count > 0 {
        items.add(first_statement(alloc, line)?)?;
    }
    Ok(items)
}

/// The first statement of a body; here alone it may be `super(..)`.
fn first_statement(alloc: Global, line: &mut Line<'_>) -> Result<IStmt, CaseFault>
    ensures { IfOk result (λ statement. IsTrue (is_first statement)) }
{
    match line.word() {
        "superc" => read_super(alloc, line),
        "superd" => Ok(super_of_class(alloc, line.id())),
        word => statement_of(alloc, line, word),
    }
}

/// `super(..)` by a constructor and the arguments, without comments.
#[tactic(auto, using(crate::proofs::Statements::super_is_first))]
fn read_super(alloc: Global, line: &mut Line<'_>) -> Result<IStmt, CaseFault>
    ensures { IfOk result (λ statement. IsTrue (is_first statement)) }
{
    let constructor = line.id();
    let arguments = read_arguments(alloc, line)?;
    Ok(IStmt {
        notes: List::new(alloc),
        node: IStmtNode::Super(constructor, arguments),
    })
}

/// `super()` by the default constructor of a class, without comments.
#[tactic(auto, using(crate::proofs::Statements::super_default_is_first))]
fn super_of_class(alloc: Global, class: Id) -> IStmt
    ensures { IsTrue (is_first result) }
{
    IStmt {
        notes: List::new(alloc),
        node: IStmtNode::SuperDefault(class),
    }
}

/// A statement of a body that is not its first one.
fn later_statement(alloc: Global, line: &mut Line<'_>) -> Result<IStmt, CaseFault>
    ensures { IfOk result (λ statement. IsTrue (is_later statement)) }
{
    let word = line.word();
    statement_of(alloc, line, word)
}

/// The statement that begins with this word, without comments.
#[tactic(auto, using(crate::proofs::Statements::stated_first, crate::proofs::Statements::stated_later))]
fn statement_of(alloc: Global, line: &mut Line<'_>, word: &str) -> Result<IStmt, CaseFault>
    ensures first { IfOk result (λ statement. IsTrue (is_first statement)) }
    ensures later { IfOk result (λ statement. IsTrue (is_later statement)) }
{
    let node = node_of(alloc, line, word)?;
    Ok(IStmt {
        notes: List::new(alloc),
        node,
    })
}

/// What the statement is that begins with this word.
fn node_of(alloc: Global, line: &mut Line<'_>, word: &str) -> Result<IStmtNode, CaseFault>
    ensures { IfOk result (λ node. node_shape node ≡ ordinary true) }
{
    match word {
        "do" => read_do(alloc, line),
        "let" => read_let(alloc, line),
        "return" => read_return(alloc, line),
        _ => Err(CaseFault::Unread),
    }
}

/// An expression as a statement.
#[tactic(auto, using(crate::proofs::Statements::do_ordinary))]
fn read_do(alloc: Global, line: &mut Line<'_>) -> Result<IStmtNode, CaseFault>
    ensures { IfOk result (λ node. node_shape node ≡ ordinary true) }
{
    Ok(IStmtNode::Do(read_action(alloc, line)?))
}

/// `some`, and the value that is returned.
#[tactic(auto, using(crate::proofs::Statements::return_ordinary))]
fn read_return(alloc: Global, line: &mut Line<'_>) -> Result<IStmtNode, CaseFault>
    ensures { IfOk result (λ node. node_shape node ≡ ordinary true) }
{
    line.take("some");
    Ok(IStmtNode::Return(Some(read_expr(alloc, line)?)))
}

/// A declaration of one local variable that is not final: `plain`, its type, `1`, its name, and its first value.
fn read_let(alloc: Global, line: &mut Line<'_>) -> Result<IStmtNode, CaseFault>
    ensures { IfOk result (λ node. node_shape node ≡ ordinary true) }
{
    line.take("plain");
    let ty = read_type(alloc, line)?;
    line.take("1");
    let declarator = read_declarator(alloc, line)?;
    plain_let(alloc, ty, declarator)
}

/// The name of a variable, and its first value.
fn read_declarator(alloc: Global, line: &mut Line<'_>) -> Result<IDeclarator, CaseFault>
    ensures { IfOk result (λ declarator. IsTrue (is_declarator declarator)) }
{
    let name = name_of(alloc, line.word())?;
    let init = read_init(alloc, line)?;
    Ok(IDeclarator { name, init })
}

/// The declaration of one local variable that is not final.
#[tactic(auto, using(crate::proofs::Statements::let_ordinary))]
fn plain_let(alloc: Global, ty: IType, declarator: IDeclarator) -> Result<IStmtNode, CaseFault>
    requires ty { IsTrue (is_type ty) }
    requires declarator { IsTrue (is_declarator declarator) }
    ensures { IfOk result (λ node. node_shape node ≡ ordinary true) }
{
    let mut names = List::new(alloc);
    names.add(declarator)?;
    Ok(IStmtNode::Let(ILet {
        is_final: false,
        ty,
        names,
    }))
}
