//! What types and expressions mention.
ghost use Rattle.std.specs.Prelude.{◌≡◌, ◌++◌, OnOk};
ghost use Rattle.mol_faults_mentions.specs.mentions.Kept.{kept_role};
ghost use Rattle.mol_faults_mentions.specs.mentions.Parts.{argument_mentions, each_argument, each_expr};
ghost use Rattle.mol_table_rules.specs.Mentions.{a_called_method, expr_mentions, maybe_mentions, named, parent_mentions, type_mentions};

use crate::mentions::mention::Role;
use crate::mentions::mentions::Mentions;
use mol_base::{Id, OutOfMemory};
use mol_values_types::{Argument, IExpr, IType};

/// Adds what a type mentions.
pub(crate) fn add_type(mentions: &mut Mentions, ty: &IType) -> Result<(), OutOfMemory>
    ensures { OnOk result (mentions.new ≡ mentions.old ++ type_mentions ty.now) }
{
    match ty {
        IType::Boolean => Ok(()),
        IType::Byte => Ok(()),
        IType::Short => Ok(()),
        IType::Char => Ok(()),
        IType::Int => Ok(()),
        IType::Long => Ok(()),
        IType::Void => Ok(()),
        IType::Class(class) => mentions.add(Role::Class, class),
        IType::Imported(_, _) => Ok(()),
        IType::Written(_) => Ok(()),
        IType::Array(item) => add_type(mentions, item.get()),
    }
}

/// Adds what the superclass mentions, where one is named.
pub(crate) fn add_parent(mentions: &mut Mentions, parent: &Option<IType>) -> Result<(), OutOfMemory>
    ensures { OnOk result (mentions.new ≡ mentions.old ++ parent_mentions parent.now) }
{
    match parent {
        Some(parent) => add_type(mentions, parent),
        None => Ok(()),
    }
}

/// Adds what the expression mentions, where there is one.
pub(crate) fn add_maybe(mentions: &mut Mentions, e: &Option<IExpr>) -> Result<(), OutOfMemory>
    ensures { OnOk result (mentions.new ≡ mentions.old ++ maybe_mentions e.now) }
{
    match e {
        Some(e) => add_expr(mentions, e),
        None => Ok(()),
    }
}

/// Adds what an expression mentions.
#[cycle(expr)]
pub(crate) fn add_expr(mentions: &mut Mentions, e: &IExpr) -> Result<(), OutOfMemory>
    ensures { OnOk result (mentions.new ≡ mentions.old ++ expr_mentions e.now) }
{
    match e {
        IExpr::Lit(_) => Ok(()),
        IExpr::This => Ok(()),
        IExpr::Local(_) => Ok(()),
        IExpr::Param(param) => mentions.add(Role::Param, param),
        IExpr::Own(field) => mentions.add(Role::Field, field),
        IExpr::StaticField(field) => mentions.add(Role::Field, field),
        IExpr::Field(field, on) => add_member(mentions, Role::Field, field, on.get()),
        IExpr::Call(method, args) => add_call(mentions, Role::CalledMethod, method, args.items()),
        IExpr::StaticCall(method, args) => {
            add_call(mentions, Role::StaticMethod, method, args.items())
        },
        IExpr::CallOn(method, on, args) => add_call_on(mentions, method, on.get(), args.items()),
        IExpr::SuperCall(method, args) => {
            add_call(mentions, Role::CalledMethod, method, args.items())
        },
        IExpr::New(constructor, args) => {
            add_call(mentions, Role::Constructor, constructor, args.items())
        },
        IExpr::NewDefault(class) => mentions.add(Role::Class, class),
        IExpr::Cond(test, a, b) => add_choice(mentions, test.get(), a.get(), b.get()),
        IExpr::OutsideName(_) => Ok(()),
        IExpr::OutsideClass(_) => Ok(()),
        IExpr::OutsideField(_, on) => add_expr(mentions, on.get()),
        IExpr::OutsideCall(_, args) => add_all(mentions, args.items()),
        IExpr::OutsideCallOn(_, on, args) => add_outside_on(mentions, on.get(), args.items()),
        IExpr::OutsideSuperCall(_, args) => add_all(mentions, args.items()),
        IExpr::NewOutside(ty, args) => add_typed(mentions, ty, args.items()),
        IExpr::NewArray(ty, sizes, _) => add_typed(mentions, ty, sizes.items()),
        IExpr::ArrayLit(ty, items) => add_typed(mentions, ty, items.items()),
        IExpr::Braces(items) => add_all(mentions, items.items()),
        IExpr::Index(array, index) => add_two(mentions, array.get(), index.get()),
        IExpr::Unary(_, a) => add_expr(mentions, a.get()),
        IExpr::Post(_, a) => add_expr(mentions, a.get()),
        IExpr::Binary(_, a, b) => add_two(mentions, a.get(), b.get()),
        IExpr::Assign(_, a, b) => add_two(mentions, a.get(), b.get()),
        IExpr::Cast(ty, a) => add_cast(mentions, ty, a.get()),
        IExpr::InstanceOf(a, ty) => add_test(mentions, a.get(), ty),
    }
}

/// Adds a member and what the expression before it mentions.
#[cycle(expr)]
fn add_member(
    mentions: &mut Mentions,
    role: Role,
    member: &Id,
    on: &IExpr,
) -> Result<(), OutOfMemory>
    ensures { OnOk result (mentions.new ≡ mentions.old ++ (named (kept_role role) member.now ++ expr_mentions on.now)) }
{
    mentions.add(role, member)?;
    add_expr(mentions, on)
}

/// Adds a method and what the arguments mention that it is called with.
#[cycle(expr)]
pub(crate) fn add_call(
    mentions: &mut Mentions,
    role: Role,
    method: &Id,
    args: &[Argument],
) -> Result<(), OutOfMemory>
    ensures { OnOk result (mentions.new ≡ mentions.old ++ (named (kept_role role) method.now ++ each_argument args.now)) }
{
    mentions.add(role, method)?;
    add_arguments(mentions, args)
}

/// Adds what a call of a method on a value mentions.
#[cycle(expr)]
fn add_call_on(
    mentions: &mut Mentions,
    method: &Id,
    on: &IExpr,
    args: &[Argument],
) -> Result<(), OutOfMemory>
    ensures { OnOk result (mentions.new ≡ mentions.old
        ++ (named a_called_method method.now ++ expr_mentions on.now ++ each_argument args.now)) }
{
    add_member(mentions, Role::CalledMethod, method, on)?;
    add_arguments(mentions, args)
}

/// Adds what a call of a method outside on a value mentions.
#[cycle(expr)]
fn add_outside_on(mentions: &mut Mentions, on: &IExpr, args: &[IExpr]) -> Result<(), OutOfMemory>
    ensures { OnOk result (mentions.new ≡ mentions.old ++ (expr_mentions on.now ++ each_expr args.now)) }
{
    add_expr(mentions, on)?;
    add_all(mentions, args)
}

/// Adds what a type and expressions mention.
#[cycle(expr)]
fn add_typed(mentions: &mut Mentions, ty: &IType, items: &[IExpr]) -> Result<(), OutOfMemory>
    ensures { OnOk result (mentions.new ≡ mentions.old ++ (type_mentions ty.now ++ each_expr items.now)) }
{
    add_type(mentions, ty)?;
    add_all(mentions, items)
}

/// Adds what two expressions mention.
#[cycle(expr)]
fn add_two(mentions: &mut Mentions, first: &IExpr, second: &IExpr) -> Result<(), OutOfMemory>
    ensures { OnOk result (mentions.new ≡ mentions.old ++ (expr_mentions first.now ++ expr_mentions second.now)) }
{
    add_expr(mentions, first)?;
    add_expr(mentions, second)
}

/// Adds what a choice mentions.
#[cycle(expr)]
fn add_choice(
    mentions: &mut Mentions,
    test: &IExpr,
    first: &IExpr,
    second: &IExpr,
) -> Result<(), OutOfMemory>
    ensures { OnOk result (mentions.new ≡ mentions.old
        ++ (expr_mentions test.now ++ expr_mentions first.now ++ expr_mentions second.now)) }
{
    add_two(mentions, test, first)?;
    add_expr(mentions, second)
}

/// Adds what a cast mentions.
#[cycle(expr)]
fn add_cast(mentions: &mut Mentions, ty: &IType, e: &IExpr) -> Result<(), OutOfMemory>
    ensures { OnOk result (mentions.new ≡ mentions.old ++ (type_mentions ty.now ++ expr_mentions e.now)) }
{
    add_type(mentions, ty)?;
    add_expr(mentions, e)
}

/// Adds what a test mentions of whether a value is of a type.
#[cycle(expr)]
fn add_test(mentions: &mut Mentions, e: &IExpr, ty: &IType) -> Result<(), OutOfMemory>
    ensures { OnOk result (mentions.new ≡ mentions.old ++ (expr_mentions e.now ++ type_mentions ty.now)) }
{
    add_expr(mentions, e)?;
    add_type(mentions, ty)
}

/// Adds what expressions mention, one after the other.
#[cycle(expr)]
pub(crate) fn add_all(mentions: &mut Mentions, items: &[IExpr]) -> Result<(), OutOfMemory>
    ensures { OnOk result (mentions.new ≡ mentions.old ++ each_expr items.now) }
{
    for item in items {
        add_expr(mentions, item)?;
    }
    Ok(())
}

/// Adds what the values of arguments mention, one after the other. The parameters that they are for are not mentioned.
#[cycle(expr)]
fn add_arguments(mentions: &mut Mentions, args: &[Argument]) -> Result<(), OutOfMemory>
    ensures { OnOk result (mentions.new ≡ mentions.old ++ each_argument args.now) }
{
    for arg in args {
        add_argument(mentions, arg)?;
    }
    Ok(())
}

/// Adds what the value of an argument mentions.
#[cycle(expr)]
fn add_argument(mentions: &mut Mentions, arg: &Argument) -> Result<(), OutOfMemory>
    ensures { OnOk result (mentions.new ≡ mentions.old ++ argument_mentions arg.now) }
{
    add_expr(mentions, &arg.value)
}
