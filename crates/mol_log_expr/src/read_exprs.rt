//! Expressions from words.
ghost use Rattle.std.specs.Prelude.{◌≡◌};
ghost use Rattle.mol_log_expr.specs.ExpressionReader as reader;
ghost use Rattle.mol_log_words.specs.Reads.{Reads};

use crate::expr_head::{
    CallHead, Head, ItemsHead, LeafHead, OperatorHead, OutsideHead, PartHead, take_head, unary_form,
};
use crate::expr_role::ExprRole;
use crate::scope::Scope;
use mol_base::{Boxed, List, is_step};
use mol_log_words::{Bounds, Cursor, Fault, MAX_DIMENSIONS, TextForm, TypeRole, type_name};
use mol_values_types::{Argument, IExpr};
use std::alloc::Global;

/// Takes an expression that may stand at a place of this role, no higher than `depth` (JLS 15), whose locals are
/// among `scope`. `Fault::Bad` where the words begin with none: then the next word is the first bad one.
#[cycle(read_expr)]
#[tactic(auto, using(crate::proofs::ExpressionTurns::expr_steps))]
pub fn expr(
    alloc: Global,
    words: &mut Cursor<'_>,
    role: ExprRole,
    depth: u32,
    scope: &Scope,
) -> Result<IExpr, Fault>
    ensures { Reads (reader.expr depth scope.now.locals role words.old) result words.new }
{
    if depth == 0 {
        return Err(Fault::Bad);
    }
    match take_head(words, role, depth - 1, scope.has_any())? {
        Head::Leaf(head) => leaf(alloc, words, head, scope),
        Head::Call(head) => call(alloc, words, head, depth - 1, scope),
        Head::Outside(head) => outside(alloc, words, head, depth - 1, scope),
        Head::Items(head) => items(alloc, words, head, depth - 1, scope),
        Head::Operator(head) => operator(alloc, words, role, head, depth - 1, scope),
        Head::Part(head) => part(alloc, words, head, depth - 1, scope),
    }
}

/// Takes an operand: such an expression, in a box.
#[cycle(read_expr)]
fn operand(
    alloc: Global,
    words: &mut Cursor<'_>,
    role: ExprRole,
    depth: u32,
    scope: &Scope,
) -> Result<Boxed<IExpr>, Fault>
    ensures { Reads (reader.expr depth scope.now.locals role words.old) result words.new }
{
    let e = expr(alloc, words, role, depth, scope)?;
    Ok(Boxed::new(alloc, e)?)
}

/// An expression that holds no other, after its first word.
fn leaf(
    alloc: Global,
    words: &mut Cursor<'_>,
    head: LeafHead,
    scope: &Scope,
) -> Result<IExpr, Fault>
    ensures { Reads (reader.leaf_by scope.now.locals head words.old) result words.new }
{
    match head {
        LeafHead::Lit => Ok(IExpr::Lit(words.text(alloc, TextForm::Literal)?)),
        LeafHead::This => Ok(IExpr::This),
        LeafHead::Local => Ok(IExpr::Local(scope.local(words)?)),
        LeafHead::Param => Ok(IExpr::Param(words.id()?)),
        LeafHead::Own => Ok(IExpr::Own(words.id()?)),
        LeafHead::StaticField => Ok(IExpr::StaticField(words.id()?)),
        LeafHead::NewDefault => Ok(IExpr::NewDefault(words.id()?)),
        LeafHead::OutsideName => Ok(IExpr::OutsideName(words.text(alloc, TextForm::Name)?)),
        LeafHead::OutsideClass => Ok(IExpr::OutsideClass(words.text(alloc, TextForm::Dotted)?)),
    }
}

/// A call of a method or constructor of the program, after its first word.
#[cycle(read_expr)]
fn call(
    alloc: Global,
    words: &mut Cursor<'_>,
    head: CallHead,
    depth: u32,
    scope: &Scope,
) -> Result<IExpr, Fault>
    ensures { Reads (reader.call_by depth (reader.expr depth scope.now.locals) head words.old) result words.new }
{
    let method = words.id()?;
    match head {
        CallHead::On => {
            let on = operand(alloc, words, ExprRole::Value, depth, scope)?;
            Ok(IExpr::CallOn(method, on, arguments(alloc, words, depth, scope)?))
        }
        CallHead::Own => Ok(IExpr::Call(method, arguments(alloc, words, depth, scope)?)),
        CallHead::Static => Ok(IExpr::StaticCall(method, arguments(alloc, words, depth, scope)?)),
        CallHead::Super => Ok(IExpr::SuperCall(method, arguments(alloc, words, depth, scope)?)),
        CallHead::New => Ok(IExpr::New(method, arguments(alloc, words, depth, scope)?)),
    }
}

/// A call of a method or constructor outside, after its first word.
#[cycle(read_expr)]
fn outside(
    alloc: Global,
    words: &mut Cursor<'_>,
    head: OutsideHead,
    depth: u32,
    scope: &Scope,
) -> Result<IExpr, Fault>
    ensures { Reads (reader.outside_by depth (reader.expr depth scope.now.locals) head words.old) result words.new }
{
    match head {
        OutsideHead::Own => {
            let name = words.text(alloc, TextForm::Name)?;
            let args = exprs(alloc, words, ExprRole::Value, Bounds::Few, depth, scope)?;
            Ok(IExpr::OutsideCall(name, args))
        }
        OutsideHead::On => {
            let name = words.text(alloc, TextForm::Name)?;
            let on = operand(alloc, words, ExprRole::Value, depth, scope)?;
            let args = exprs(alloc, words, ExprRole::Value, Bounds::Few, depth, scope)?;
            Ok(IExpr::OutsideCallOn(name, on, args))
        }
        OutsideHead::Super => {
            let name = words.text(alloc, TextForm::Name)?;
            let args = exprs(alloc, words, ExprRole::Value, Bounds::Few, depth, scope)?;
            Ok(IExpr::OutsideSuperCall(name, args))
        }
        OutsideHead::New => {
            let class = type_name(alloc, words, TypeRole::Outside, MAX_DIMENSIONS)?;
            let args = exprs(alloc, words, ExprRole::Value, Bounds::Few, depth, scope)?;
            Ok(IExpr::NewOutside(class, args))
        }
    }
}

/// An array or items in braces, after its first word.
#[cycle(read_expr)]
fn items(
    alloc: Global,
    words: &mut Cursor<'_>,
    head: ItemsHead,
    depth: u32,
    scope: &Scope,
) -> Result<IExpr, Fault>
    ensures { Reads (reader.items_by depth (reader.expr depth scope.now.locals) head words.old) result words.new }
{
    match head {
        ItemsHead::NewArray => {
            let item = type_name(alloc, words, TypeRole::Item, MAX_DIMENSIONS)?;
            let sizes = exprs(alloc, words, ExprRole::Value, Bounds::Sizes, depth, scope)?;
            let pairs = words.pairs(sizes.items().len())?;
            Ok(IExpr::NewArray(item, sizes, pairs))
        }
        ItemsHead::ArrayLit => {
            let array = type_name(alloc, words, TypeRole::Array, MAX_DIMENSIONS)?;
            let all = exprs(alloc, words, ExprRole::First, Bounds::Any, depth, scope)?;
            Ok(IExpr::ArrayLit(array, all))
        }
        ItemsHead::Braces => {
            let all = exprs(alloc, words, ExprRole::First, Bounds::Any, depth, scope)?;
            Ok(IExpr::Braces(all))
        }
        ItemsHead::Index => {
            let array = operand(alloc, words, ExprRole::Value, depth, scope)?;
            let place = operand(alloc, words, ExprRole::Value, depth, scope)?;
            Ok(IExpr::Index(array, place))
        }
    }
}

/// An operator and its operands, after its first word.
#[cycle(read_expr)]
fn operator(
    alloc: Global,
    words: &mut Cursor<'_>,
    role: ExprRole,
    head: OperatorHead,
    depth: u32,
    scope: &Scope,
) -> Result<IExpr, Fault>
    ensures { Reads (reader.operator_by depth (reader.expr depth scope.now.locals) role head words.old) result words.new }
{
    match head {
        OperatorHead::Unary => unary(alloc, words, role, depth, scope),
        OperatorHead::Post => {
            let op = words.text(alloc, TextForm::Step)?;
            let e = operand(alloc, words, ExprRole::Target, depth, scope)?;
            Ok(IExpr::Post(op, e))
        }
        OperatorHead::Binary => {
            let op = words.text(alloc, TextForm::Binary)?;
            let a = operand(alloc, words, ExprRole::Value, depth, scope)?;
            let b = operand(alloc, words, ExprRole::Value, depth, scope)?;
            Ok(IExpr::Binary(op, a, b))
        }
        OperatorHead::Assign => {
            let op = words.text(alloc, TextForm::Assignment)?;
            let a = operand(alloc, words, ExprRole::Target, depth, scope)?;
            let b = operand(alloc, words, ExprRole::Value, depth, scope)?;
            Ok(IExpr::Assign(op, a, b))
        }
        OperatorHead::Cond => {
            let test = operand(alloc, words, ExprRole::Value, depth, scope)?;
            let a = operand(alloc, words, ExprRole::Value, depth, scope)?;
            let b = operand(alloc, words, ExprRole::Value, depth, scope)?;
            Ok(IExpr::Cond(test, a, b))
        }
    }
}

/// What the operand of a prefix operator may be.
fn operand_role(op: &[u8]) -> ExprRole
    ensures { result ≡ reader.operand_role op.now }
{
    if is_step(op) {
        ExprRole::Target
    } else {
        ExprRole::Value
    }
}

/// A prefix operator and its operand.
#[cycle(read_expr)]
fn unary(
    alloc: Global,
    words: &mut Cursor<'_>,
    role: ExprRole,
    depth: u32,
    scope: &Scope,
) -> Result<IExpr, Fault>
    ensures { Reads (reader.unary_by depth (reader.expr depth scope.now.locals) role words.old) result words.new }
{
    let op = words.text(alloc, unary_form(role))?;
    let e = operand(alloc, words, operand_role(op.bytes()), depth, scope)?;
    Ok(IExpr::Unary(op, e))
}

/// A field of an expression, or an expression beside a type, after its first word.
#[cycle(read_expr)]
fn part(
    alloc: Global,
    words: &mut Cursor<'_>,
    head: PartHead,
    depth: u32,
    scope: &Scope,
) -> Result<IExpr, Fault>
    ensures { Reads (reader.part_by depth (reader.expr depth scope.now.locals) head words.old) result words.new }
{
    match head {
        PartHead::Field => {
            let field = words.id()?;
            let e = operand(alloc, words, ExprRole::Value, depth, scope)?;
            Ok(IExpr::Field(field, e))
        }
        PartHead::OutsideField => {
            let name = words.text(alloc, TextForm::Name)?;
            let e = operand(alloc, words, ExprRole::Value, depth, scope)?;
            Ok(IExpr::OutsideField(name, e))
        }
        PartHead::Cast => {
            let class = type_name(alloc, words, TypeRole::Value, MAX_DIMENSIONS)?;
            let e = operand(alloc, words, ExprRole::Value, depth, scope)?;
            Ok(IExpr::Cast(class, e))
        }
        PartHead::InstanceOf => {
            let e = operand(alloc, words, ExprRole::Value, depth, scope)?;
            let class = type_name(alloc, words, TypeRole::Value, MAX_DIMENSIONS)?;
            Ok(IExpr::InstanceOf(e, class))
        }
    }
}

/// A parameter and what a call gives for it.
#[cycle(read_expr)]
fn argument(
    alloc: Global,
    words: &mut Cursor<'_>,
    depth: u32,
    scope: &Scope,
) -> Result<Argument, Fault>
    ensures { Reads (reader.argument depth (reader.expr depth scope.now.locals) words.old) result words.new }
{
    let param = words.id()?;
    let value = expr(alloc, words, ExprRole::Value, depth, scope)?;
    Ok(Argument { param, value })
}

/// Takes a count, at most 255, and so many arguments, none higher than `depth`. Errors are those of `expr`.
#[cycle(read_expr)]
pub fn arguments(
    alloc: Global,
    words: &mut Cursor<'_>,
    depth: u32,
    scope: &Scope,
) -> Result<List<Argument>, Fault>
    ensures { Reads (reader.arguments depth (reader.expr depth scope.now.locals) words.old) result words.new }
{
    let count = words.few(0 < depth)?;
    let mut all = List::new(alloc);
    for _turn in 0..count {
        let item = argument(alloc, words, depth, scope)?;
        all.add(item)?;
    }
    Ok(all)
}

/// Takes a count within the bounds and so many expressions that may stand at places of this role, none higher
/// than `depth`. Errors are those of `expr`.
#[cycle(read_expr)]
pub fn exprs(
    alloc: Global,
    words: &mut Cursor<'_>,
    role: ExprRole,
    bounds: Bounds,
    depth: u32,
    scope: &Scope,
) -> Result<List<IExpr>, Fault>
    ensures { Reads (reader.exprs_in depth (reader.expr depth scope.now.locals) bounds role words.old) result words.new }
{
    let count = words.count(bounds, 0 < depth)?;
    let mut all = List::new(alloc);
    for _turn in 0..count {
        let item = expr(alloc, words, role, depth, scope)?;
        all.add(item)?;
    }
    // so great a count was cut off, and no memory holds as many
    if count == u64::MAX {
        return Err(Fault::OutOfMemory);
    }
    Ok(all)
}
