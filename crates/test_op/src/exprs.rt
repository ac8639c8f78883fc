//! Expressions, each by its word and what follows it.
ghost use Rattle.std.specs.Prelude.{true, IsTrue, IfOk};
ghost use Rattle.std.specs.Option.{option_map_or};
ghost use Rattle.mol_table_rules.specs.ExpressionForms.{is_binary, is_expression, is_initial, is_statement};
ghost use Rattle.mol_table_rules.specs.TypeForms.{is_type};
ghost use Rattle.test_op.specs.Given.{are_given};

use crate::calls::{Called, assignment, binary, boxed, call, call_on};
use crate::fault::CaseFault;
use crate::line::Line;
use crate::texts::literal_of;
use crate::types::read_type;
use mol_base::{Boxed, List, MAX_ITEMS, Text, binary_level};
use mol_values_types::{Argument, IExpr, IType};
use std::alloc::Global;

/// How many expressions may stand inside each other.
const DEEPEST: u32 = 8;

/// What the first word of an expression says.
#[derive(Clone, Copy)]
enum Word {
    Leaf(Leaf),
    Call(Called),
    CallOn,
    Binary,
    /// It begins no expression.
    Unread,
}

/// An expression that has no other inside.
#[derive(Clone, Copy)]
enum Leaf {
    Literal,
    Local,
    Param,
    Own,
    StaticField,
    NewDefault,
}

impl Word {
    /// What a word says.
    fn of(word: &str) -> Word {
        match word {
            "lit" => Word::Leaf(Leaf::Literal),
            "local" => Word::Leaf(Leaf::Local),
            "param" => Word::Leaf(Leaf::Param),
            "own" => Word::Leaf(Leaf::Own),
            "sfield" => Word::Leaf(Leaf::StaticField),
            "newd" => Word::Leaf(Leaf::NewDefault),
            "call" => Word::Call(Called::Method),
            "scall" => Word::Call(Called::StaticMethod),
            "super" => Word::Call(Called::SuperMethod),
            "newc" => Word::Call(Called::Constructor),
            "callon" => Word::CallOn,
            "binary" => Word::Binary,
            _ => Word::Unread,
        }
    }
}

/// The next expression.
pub fn read_expr(alloc: Global, line: &mut Line<'_>) -> Result<IExpr, CaseFault>
    ensures { IfOk result (λ e. IsTrue (is_expression e)) }
{
    let word = Word::of(line.word());
    expr_of(alloc, line, word, DEEPEST)
}

/// The next first value of a field, or `null` where there is none.
fn read_value(alloc: Global, line: &mut Line<'_>) -> Result<Option<IExpr>, CaseFault>
    ensures { IfOk result (λ value. IsTrue (option_map_or is_initial value true)) }
{
    match line.word() {
        "null" => Ok(None),
        word => Ok(Some(expr_of(alloc, line, Word::of(word), DEEPEST)?)),
    }
}

/// The type and the first value of a field.
#[derive(Drop)]
pub struct FieldValue {
    pub ty: IType,
    pub value: Option<IExpr>,
}

/// The next type, and a first value of it.
pub fn read_field_value(alloc: Global, line: &mut Line<'_>) -> Result<FieldValue, CaseFault>
    ensures ty { IfOk result (λ field. IsTrue (is_type field.ty)) }
    ensures value { IfOk result (λ field. IsTrue (option_map_or is_initial field.value true)) }
{
    let ty = read_type(alloc, line)?;
    let value = read_value(alloc, line)?;
    Ok(FieldValue { ty, value })
}

/// The next first value of a variable: `init` and an expression, or `none`.
pub fn read_init(alloc: Global, line: &mut Line<'_>) -> Result<Option<IExpr>, CaseFault>
    ensures { IfOk result (λ init. IsTrue (option_map_or is_initial init true)) }
{
    match line.word() {
        "none" => Ok(None),
        "init" => Ok(Some(read_expr(alloc, line)?)),
        _ => Err(CaseFault::Unread),
    }
}

/// The next expression that may be a statement: a call of a method of what an expression gives, or an assignment to a
/// field of `this`.
pub fn read_action(alloc: Global, line: &mut Line<'_>) -> Result<IExpr, CaseFault>
    ensures { IfOk result (λ e. IsTrue (is_statement e)) }
{
    match line.word() {
        "callon" => call_on_of(alloc, line, DEEPEST),
        "assign" => read_assignment(alloc, line),
        _ => Err(CaseFault::Unread),
    }
}

/// `=`, a field of `this`, and the value that it is set to.
fn read_assignment(alloc: Global, line: &mut Line<'_>) -> Result<IExpr, CaseFault>
    ensures { IfOk result (λ e. IsTrue (is_statement e)) }
{
    line.take("=");
    line.take("own");
    let field = line.id();
    let value = read_operand(alloc, line, DEEPEST)?;
    assignment(alloc, field, value)
}

/// The arguments that follow the first word of `super(..)`.
pub fn read_arguments(alloc: Global, line: &mut Line<'_>) -> Result<List<Argument>, CaseFault>
    ensures { IfOk result (λ arguments. IsTrue (are_given arguments)) }
{
    arguments_of(alloc, line, DEEPEST)
}

/// What has no other expression inside.
#[tactic(auto, using(crate::proofs::Shapes::leaves))]
fn leaf_of(alloc: Global, line: &mut Line<'_>, leaf: Leaf) -> Result<IExpr, CaseFault>
    ensures { IfOk result (λ e. IsTrue (is_expression e)) }
{
    match leaf {
        Leaf::Literal => Ok(IExpr::Lit(literal_of(alloc, line.word())?)),
        Leaf::Local => Ok(IExpr::Local(line.number())),
        Leaf::Param => Ok(IExpr::Param(line.id())),
        Leaf::Own => Ok(IExpr::Own(line.id())),
        Leaf::StaticField => Ok(IExpr::StaticField(line.id())),
        Leaf::NewDefault => Ok(IExpr::NewDefault(line.id())),
    }
}

/// The expression that begins with a word, with fewer than `top` inside each other.
#[cycle(expr)]
fn expr_of(alloc: Global, line: &mut Line<'_>, word: Word, top: u32) -> Result<IExpr, CaseFault>
    ensures { IfOk result (λ e. IsTrue (is_expression e)) }
{
    let Some(below) = top.checked_sub(1) else {
        return Err(CaseFault::Unread);
    };
    match word {
        Word::Leaf(leaf) => leaf_of(alloc, line, leaf),
        Word::Call(called) => call_of(alloc, line, called, below),
        Word::CallOn => call_on_of(alloc, line, below),
        Word::Binary => binary_of(alloc, line, below),
        Word::Unread => Err(CaseFault::Unread),
    }
}

/// What is called, and the arguments.
#[cycle(expr)]
fn call_of(alloc: Global, line: &mut Line<'_>, called: Called, top: u32) -> Result<IExpr, CaseFault>
    ensures { IfOk result (λ e. IsTrue (is_expression e)) }
{
    let id = line.id();
    let arguments = arguments_of(alloc, line, top)?;
    Ok(call(called, id, arguments))
}

/// A method, what it is called on, and the arguments.
#[cycle(expr)]
fn call_on_of(alloc: Global, line: &mut Line<'_>, top: u32) -> Result<IExpr, CaseFault>
    ensures value { IfOk result (λ e. IsTrue (is_expression e)) }
    ensures statement { IfOk result (λ e. IsTrue (is_statement e)) }
{
    let method = line.id();
    let receiver = read_operand(alloc, line, top)?;
    let arguments = arguments_of(alloc, line, top)?;
    Ok(call_on(method, receiver, arguments))
}

/// An operand.
#[cycle(expr)]
fn read_operand(alloc: Global, line: &mut Line<'_>, top: u32) -> Result<Boxed<IExpr>, CaseFault>
    ensures { IfOk result (λ operand. IsTrue (is_expression operand)) }
{
    let word = Word::of(line.word());
    let operand = expr_of(alloc, line, word, top)?;
    boxed(alloc, operand)
}

/// An operator between two operands.
fn operator_of(alloc: Global, word: &str) -> Result<Text, CaseFault>
    ensures { IfOk result (λ operator. IsTrue (is_binary operator)) }
{
    if binary_level(word.as_bytes()).is_none() {
        return Err(CaseFault::Unread);
    }
    Ok(Text::from_str(alloc, word)?)
}

/// An operator and its two operands.
#[cycle(expr)]
fn binary_of(alloc: Global, line: &mut Line<'_>, top: u32) -> Result<IExpr, CaseFault>
    ensures { IfOk result (λ e. IsTrue (is_expression e)) }
{
    let operator = operator_of(alloc, line.word())?;
    let left = read_operand(alloc, line, top)?;
    let right = read_operand(alloc, line, top)?;
    Ok(binary(operator, left, right))
}

/// A number, and so many arguments, each a parameter and a value.
#[cycle(expr)]
fn arguments_of(alloc: Global, line: &mut Line<'_>, top: u32) -> Result<List<Argument>, CaseFault>
    ensures { IfOk result (λ arguments. IsTrue (are_given arguments)) }
{
    let count = line.number();
    let mut arguments = List::new(alloc);
    for _argument in 0..count {
        let param = line.id();
        let word = Word::of(line.word());
        let value = expr_of(alloc, line, word, top)?;
        arguments.add(Argument { param, value })?;
    }
    if arguments.items().len() > MAX_ITEMS {
        return Err(CaseFault::Unread);
    }
    Ok(arguments)
}
