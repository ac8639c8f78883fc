//! Bodies as words.
ghost use Rattle.std.specs.Prelude.{◌≡◌, ℕ, ◌++◌, ◌∷◌, [], List as Items, IfOk, OnOk, map, codes, length};
ghost use Rattle.mol_log_body.specs.Bodies.{IsBody, noted};
ghost use Rattle.mol_log_body.specs.StatementHeads.{choice_spelled};
ghost use Rattle.mol_log_words.specs.Words.{numeral};
ghost use Rattle.mol_log_expr.specs.ExpressionWords.{argument_words, counted, expr_words};
ghost use Rattle.mol_base.specs.Identity.{spelled_id};
ghost use Rattle.mol_log_words.specs.TypeWords.{type_words};
ghost use Rattle.mol_log_body.specs.BodyWords as spec;

use crate::stmt_head::{Choice, choice_word};
use mol_base::{Id, List, OutOfMemory, Text};
use mol_log_expr::{add_arguments, add_expr, add_exprs};
use mol_log_words::Written;
use mol_values_types::{
    Argument, IBlock, IBody, IDeclarator, IElse, IExpr, IForStart, IIf, ILet, IStmt, IStmtNode,
    IType,
};
use std::alloc::Global;

/// The words of a body, as a log has them. They are in the form wherever any words of the body are.
/// `Err` is want of memory.
pub fn write_body(alloc: Global, body: &IBody) -> Result<List<Text>, OutOfMemory>
    ensures words { IfOk result (λ words. words ≡ spec.body_words body.now) }
    ensures form { IfOk result (λ words. (d : ℕ) (ts : Items (Items ℕ)) → IsBody d body.now ts → IsBody d body.now words) }
{
    let mut words = Written::new(alloc);
    add_block(&mut words, &body.block)?;
    Ok(words.into_list())
}

fn add_maybe(words: &mut Written, choice: Choice, e: &Option<IExpr>) -> Result<(), OutOfMemory>
    ensures { OnOk result (words.new ≡ words.old ++ spec.maybe_words choice e.now) }
{
    match e {
        None => words.word(choice_word(choice, false)),
        Some(e) => {
            words.word(choice_word(choice, true))?;
            add_expr(words, e)
        }
    }
}

fn add_declarator(words: &mut Written, declarator: &IDeclarator) -> Result<(), OutOfMemory>
    ensures { OnOk result (words.new ≡ words.old ++ spec.declarator_words declarator.now) }
{
    words.text(&declarator.name)?;
    add_maybe(words, Choice::Init, &declarator.init)
}

fn add_declarators(words: &mut Written, names: &[IDeclarator]) -> Result<(), OutOfMemory>
    ensures { OnOk result (words.new ≡ words.old ++ counted (map spec.declarator_words names.now)) }
{
    words.number(names.len() as u64)?;
    for name in names {
        add_declarator(words, name)?;
    }
    Ok(())
}

fn add_variables(words: &mut Written, declared: &ILet) -> Result<(), OutOfMemory>
    ensures { OnOk result (words.new ≡ words.old ++ spec.let_words declared.now) }
{
    words.word(choice_word(Choice::Final, declared.is_final))?;
    words.ty(&declared.ty)?;
    add_declarators(words, declared.names.items())
}

fn add_start(words: &mut Written, start: &IForStart) -> Result<(), OutOfMemory>
    ensures { OnOk result (words.new ≡ words.old ++ spec.start_words start.now) }
{
    match start {
        IForStart::None => words.word("none"),
        IForStart::Let(declared) => {
            words.word("let")?;
            add_variables(words, declared)
        }
        IForStart::Do(es) => {
            words.word("do")?;
            add_exprs(words, es.items())
        }
    }
}

fn add_comments(words: &mut Written, comments: &[Text]) -> Result<(), OutOfMemory>
    ensures { OnOk result (words.new ≡ words.old ++ numeral (length comments.now) ∷ comments.now) }
{
    words.number(comments.len() as u64)?;
    for comment in comments {
        words.text(comment)?;
    }
    Ok(())
}

fn add_notes(words: &mut Written, notes: &[Text]) -> Result<(), OutOfMemory>
    ensures { OnOk result (words.new ≡ words.old ++ noted notes.now []) }
{
    for note in notes {
        words.word("note")?;
        words.text(note)?;
    }
    Ok(())
}

#[cycle(write_body)]
fn add_stmt(words: &mut Written, stmt: &IStmt) -> Result<(), OutOfMemory>
    ensures { OnOk result (words.new ≡ words.old ++ spec.statement_words stmt.now) }
{
    add_notes(words, stmt.notes.items())?;
    add_node(words, &stmt.node)
}

/// Adds the words of a statement without the comments before it.
#[cycle(write_body)]
fn add_node(words: &mut Written, node: &IStmtNode) -> Result<(), OutOfMemory>
    ensures { OnOk result (words.new ≡ words.old ++ spec.node_words node.now) }
{
    match node {
        IStmtNode::Block(block) => add_block(words, block),
        IStmtNode::Let(declared) => {
            words.word("let")?;
            add_variables(words, declared)
        }
        IStmtNode::Do(e) => after(words, "do", e),
        IStmtNode::If(branches) => {
            words.word("if")?;
            add_branches(words, branches)
        }
        IStmtNode::While(test, block) => {
            after(words, "while", test)?;
            add_block(words, block)
        }
        IStmtNode::For(start, test, steps, block) => {
            for_header(words, start, test, steps.items())?;
            add_block(words, block)
        }
        IStmtNode::Each(is_final, ty, name, e, block) => {
            each(words, *is_final, ty, name)?;
            add_expr(words, e)?;
            add_block(words, block)
        }
        IStmtNode::Return(value) => returned(words, value),
        IStmtNode::Throw(e) => after(words, "throw", e),
        IStmtNode::Break => words.word("break"),
        IStmtNode::Continue => words.word("continue"),
        IStmtNode::Empty => words.word("empty"),
        IStmtNode::Super(id, args) => super_call(words, id, args.items()),
        IStmtNode::SuperDefault(id) => words.id_after("superd", id),
        IStmtNode::SuperOutside(args) => super_outside(words, args.items()),
    }
}

fn after(words: &mut Written, word: &str, e: &IExpr) -> Result<(), OutOfMemory>
    ensures { OnOk result (words.new ≡ words.old ++ (word.now ∷ expr_words e.now)) }
{
    words.word(word)?;
    add_expr(words, e)
}

fn returned(words: &mut Written, value: &Option<IExpr>) -> Result<(), OutOfMemory>
    ensures { OnOk result (words.new ≡ words.old ++ (codes "return" ∷ spec.maybe_words Choice.Some value.now)) }
{
    words.word("return")?;
    add_maybe(words, Choice::Some, value)
}

fn super_call(words: &mut Written, id: &Id, args: &[Argument]) -> Result<(), OutOfMemory>
    ensures { OnOk result (words.new ≡ words.old ++ (codes "superc" ∷ spelled_id id.now ∷ counted (map argument_words args.now))) }
{
    words.id_after("superc", id)?;
    add_arguments(words, args)
}

fn super_outside(words: &mut Written, args: &[IExpr]) -> Result<(), OutOfMemory>
    ensures { OnOk result (words.new ≡ words.old ++ (codes "superout" ∷ counted (map expr_words args.now))) }
{
    words.word("superout")?;
    add_exprs(words, args)
}

fn each(words: &mut Written, is_final: bool, ty: &IType, name: &Text) -> Result<(), OutOfMemory>
    ensures { OnOk result (words.new ≡ words.old
        ++ (codes "each" ∷ choice_spelled Choice.Final is_final ∷ (type_words ty.now ++ name.now ∷ []))) }
{
    words.word("each")?;
    words.word(choice_word(Choice::Final, is_final))?;
    words.ty(ty)?;
    words.text(name)
}

fn for_header(
    words: &mut Written,
    start: &IForStart,
    test: &Option<IExpr>,
    steps: &[IExpr],
) -> Result<(), OutOfMemory>
    ensures { OnOk result (words.new ≡ words.old ++ (codes "for" ∷ (spec.start_words start.now
        ++ (spec.maybe_words Choice.Some test.now ++ spec.exprs_words steps.now)))) }
{
    words.word("for")?;
    add_start(words, start)?;
    add_maybe(words, Choice::Some, test)?;
    add_exprs(words, steps)
}

#[cycle(write_body)]
fn add_block(words: &mut Written, block: &IBlock) -> Result<(), OutOfMemory>
    ensures { OnOk result (words.new ≡ words.old ++ spec.block_words block.now) }
{
    words.word("block")?;
    add_stmts(words, block.items.items())?;
    add_comments(words, block.tail.items())
}

#[cycle(write_body)]
fn add_stmts(words: &mut Written, stmts: &[IStmt]) -> Result<(), OutOfMemory>
    ensures { OnOk result (words.new ≡ words.old ++ counted (map spec.statement_words stmts.now)) }
{
    words.number(stmts.len() as u64)?;
    for stmt in stmts {
        add_stmt(words, stmt)?;
    }
    Ok(())
}

#[cycle(write_body)]
fn add_branches(words: &mut Written, branches: &IIf) -> Result<(), OutOfMemory>
    ensures { OnOk result (words.new ≡ words.old ++ spec.if_words branches.now) }
{
    add_expr(words, &branches.test)?;
    add_block(words, &branches.then)?;
    add_else(words, &branches.rest)
}

#[cycle(write_body)]
fn add_else(words: &mut Written, rest: &IElse) -> Result<(), OutOfMemory>
    ensures { OnOk result (words.new ≡ words.old ++ spec.else_words rest.now) }
{
    match rest {
        IElse::None => words.word("none"),
        IElse::Block(block) => {
            words.word("else")?;
            add_block(words, block)
        }
        IElse::If(branches) => {
            words.word("elif")?;
            add_branches(words, branches.get())
        }
    }
}
