//! Types and expressions.
ghost use Rattle.std.specs.Prelude.{map};
ghost use Rattle.mol_table_rules.specs.Mentions.{type_mentions, parent_mentions, expr_mentions, exprs_mentions, arguments_mentions, maybe_mentions};
ghost use Rattle.mol_op.specs.Seen.{seen_by};
ghost use Rattle.mol_op.specs.Tests.{IsVerdict, mentions_fault};

use crate::OpFault;
use crate::mentions::Seen;
use mol_values_types::{Argument, IExpr, IType};

/// What the type mentions may be mentioned.
pub(crate) fn check_type(seen: &Seen<'_>, ty: &IType) -> Result<(), OpFault>
    ensures { IsVerdict (mentions_fault (seen_by seen.now) (type_mentions ty.now)) result }
{
    match ty {
        IType::Class(id) => seen.class(id),
        IType::Array(item) => check_type(seen, item.get()),
        _ => Ok(()),
    }
}

/// What the superclass mentions may be mentioned, where there is one.
pub(crate) fn check_parent(seen: &Seen<'_>, parent: &Option<IType>) -> Result<(), OpFault>
    ensures { IsVerdict (mentions_fault (seen_by seen.now) (parent_mentions parent.now)) result }
{
    match parent {
        Some(parent) => check_type(seen, parent),
        None => Ok(()),
    }
}

/// What the expression mentions may be mentioned.
// It is long, since the checker follows a match by itself only where each arm returns.
#[cycle(check_iexpr)]
#[tactic(auto, using(crate::proofs::ExpressionFaults::expression_faults))]
pub(crate) fn check_expr(seen: &Seen<'_>, e: &IExpr) -> Result<(), OpFault>
    ensures { IsVerdict (mentions_fault (seen_by seen.now) (expr_mentions e.now)) result }
{
    match e {
        IExpr::Lit(_) | IExpr::This | IExpr::Local(_) | IExpr::Param(_) => Ok(()),
        IExpr::OutsideName(_) | IExpr::OutsideClass(_) => Ok(()),
        IExpr::Own(field) | IExpr::StaticField(field) => seen.field(field),
        IExpr::Field(field, e) => {
            seen.field(field)?;
            check_expr(seen, e.get())
        }
        IExpr::Call(method, args) | IExpr::SuperCall(method, args) => {
            seen.called(method)?;
            check_arguments(seen, args.items())
        }
        IExpr::StaticCall(method, args) => {
            seen.static_method(method)?;
            check_arguments(seen, args.items())
        }
        IExpr::CallOn(method, e, args) => {
            seen.called(method)?;
            check_expr(seen, e.get())?;
            check_arguments(seen, args.items())
        }
        IExpr::New(constructor, args) => {
            seen.constructor(constructor)?;
            check_arguments(seen, args.items())
        }
        IExpr::NewDefault(class) => seen.class(class),
        IExpr::Cond(test, a, b) => {
            check_expr(seen, test.get())?;
            check_expr(seen, a.get())?;
            check_expr(seen, b.get())
        }
        IExpr::OutsideField(_, e) | IExpr::Unary(_, e) | IExpr::Post(_, e) => {
            check_expr(seen, e.get())
        }
        IExpr::OutsideCall(_, items) | IExpr::OutsideSuperCall(_, items) | IExpr::Braces(items) => {
            check_all(seen, items.items())
        }
        IExpr::OutsideCallOn(_, e, args) => {
            check_expr(seen, e.get())?;
            check_all(seen, args.items())
        }
        IExpr::NewOutside(ty, items) | IExpr::ArrayLit(ty, items) | IExpr::NewArray(ty, items, _) =>
            {
                check_type(seen, ty)?;
                check_all(seen, items.items())
            }
        IExpr::Index(a, b) | IExpr::Binary(_, a, b) | IExpr::Assign(_, a, b) => {
            check_expr(seen, a.get())?;
            check_expr(seen, b.get())
        }
        IExpr::Cast(ty, e) => {
            check_type(seen, ty)?;
            check_expr(seen, e.get())
        }
        IExpr::InstanceOf(e, ty) => {
            check_expr(seen, e.get())?;
            check_type(seen, ty)
        }
    }
}

/// What the expressions mention may be mentioned.
#[cycle(check_iexpr)]
pub(crate) fn check_all(seen: &Seen<'_>, items: &[IExpr]) -> Result<(), OpFault>
    ensures { IsVerdict (mentions_fault (seen_by seen.now) (exprs_mentions items.now)) result }
{
    for item in items {
        check_expr(seen, item)?;
    }
    Ok(())
}

/// What the arguments mention may be mentioned. The parameters that they are for are not looked at.
#[cycle(check_iexpr)]
pub(crate) fn check_arguments(seen: &Seen<'_>, args: &[Argument]) -> Result<(), OpFault>
    ensures { IsVerdict (mentions_fault (seen_by seen.now) (arguments_mentions args.now)) result }
{
    for arg in args {
        check_expr(seen, &arg.value)?;
    }
    Ok(())
}

/// What the expression mentions may be mentioned, where there is one.
pub(crate) fn check_maybe(seen: &Seen<'_>, e: &Option<IExpr>) -> Result<(), OpFault>
    ensures { IsVerdict (mentions_fault (seen_by seen.now) (maybe_mentions e.now)) result }
{
    match e {
        Some(e) => check_expr(seen, e),
        None => Ok(()),
    }
}
