//! Expressions with other identities.
ghost use Rattle.std.specs.Prelude.{◌≡◌, IfOk, map, option_map};
ghost use Rattle.mol_values_types.specs.Renamed.{rename_expr, rename_argument};
ghost use Rattle.mol_values.specs.Renaming.{name_in};

use crate::renamed::{name_of, rename_type};
use indexmap::IndexMap;
use mol_base::{Boxed, Id, List, OutOfMemory, both};
use mol_values_types::{Argument, IExpr};
use std::alloc::Global;

/// The expression, renamed.
#[cycle(rename_iexpr)]
pub(crate) fn rename_expr(
    alloc: Global,
    names: &IndexMap<Id, Id>,
    e: &IExpr,
) -> Result<IExpr, OutOfMemory>
    ensures { IfOk result (λ renamed. renamed ≡ rename_expr (name_in names.now.entries) e.now) }
{
    match e {
        IExpr::Lit(text) => match text.copy(alloc) {
            Ok(text) => Ok(IExpr::Lit(text)),
            Err(want) => Err(want),
        },
        IExpr::This => Ok(IExpr::This),
        IExpr::Local(number) => Ok(IExpr::Local(*number)),
        IExpr::Param(id) => Ok(IExpr::Param(name_of(names, id))),
        IExpr::Own(field) => Ok(IExpr::Own(name_of(names, field))),
        IExpr::StaticField(field) => Ok(IExpr::StaticField(name_of(names, field))),
        IExpr::Field(field, e) => match rename_boxed(alloc, names, e.get()) {
            Ok(e) => Ok(IExpr::Field(name_of(names, field), e)),
            Err(want) => Err(want),
        },
        IExpr::Call(method, args) => match rename_arguments(alloc, names, args.items()) {
            Ok(args) => Ok(IExpr::Call(name_of(names, method), args)),
            Err(want) => Err(want),
        },
        IExpr::StaticCall(method, args) => match rename_arguments(alloc, names, args.items()) {
            Ok(args) => Ok(IExpr::StaticCall(name_of(names, method), args)),
            Err(want) => Err(want),
        },
        IExpr::CallOn(method, e, args) => match both(
            rename_boxed(alloc, names, e.get()),
            rename_arguments(alloc, names, args.items()),
        ) {
            Ok((e, args)) => Ok(IExpr::CallOn(name_of(names, method), e, args)),
            Err(want) => Err(want),
        },
        IExpr::SuperCall(method, args) => match rename_arguments(alloc, names, args.items()) {
            Ok(args) => Ok(IExpr::SuperCall(name_of(names, method), args)),
            Err(want) => Err(want),
        },
        IExpr::New(constructor, args) => match rename_arguments(alloc, names, args.items()) {
            Ok(args) => Ok(IExpr::New(name_of(names, constructor), args)),
            Err(want) => Err(want),
        },
        IExpr::NewDefault(class) => Ok(IExpr::NewDefault(name_of(names, class))),
        IExpr::Cond(test, a, b) => match both(
            rename_boxed(alloc, names, test.get()),
            both(
                rename_boxed(alloc, names, a.get()),
                rename_boxed(alloc, names, b.get()),
            ),
        ) {
            Ok((test, (a, b))) => Ok(IExpr::Cond(test, a, b)),
            Err(want) => Err(want),
        },
        IExpr::OutsideName(name) => match name.copy(alloc) {
            Ok(name) => Ok(IExpr::OutsideName(name)),
            Err(want) => Err(want),
        },
        IExpr::OutsideClass(name) => match name.copy(alloc) {
            Ok(name) => Ok(IExpr::OutsideClass(name)),
            Err(want) => Err(want),
        },
        IExpr::OutsideField(name, e) => match both(
            name.copy(alloc),
            rename_boxed(alloc, names, e.get()),
        ) {
            Ok((name, e)) => Ok(IExpr::OutsideField(name, e)),
            Err(want) => Err(want),
        },
        IExpr::OutsideCall(name, args) => match both(
            name.copy(alloc),
            rename_all(alloc, names, args.items()),
        ) {
            Ok((name, args)) => Ok(IExpr::OutsideCall(name, args)),
            Err(want) => Err(want),
        },
        IExpr::OutsideCallOn(name, e, args) => match both(
            name.copy(alloc),
            both(
                rename_boxed(alloc, names, e.get()),
                rename_all(alloc, names, args.items()),
            ),
        ) {
            Ok((name, (e, args))) => Ok(IExpr::OutsideCallOn(name, e, args)),
            Err(want) => Err(want),
        },
        IExpr::OutsideSuperCall(name, args) => match both(
            name.copy(alloc),
            rename_all(alloc, names, args.items()),
        ) {
            Ok((name, args)) => Ok(IExpr::OutsideSuperCall(name, args)),
            Err(want) => Err(want),
        },
        IExpr::NewOutside(ty, args) => match both(
            rename_type(alloc, names, ty),
            rename_all(alloc, names, args.items()),
        ) {
            Ok((ty, args)) => Ok(IExpr::NewOutside(ty, args)),
            Err(want) => Err(want),
        },
        IExpr::NewArray(ty, sizes, open) => match both(
            rename_type(alloc, names, ty),
            rename_all(alloc, names, sizes.items()),
        ) {
            Ok((ty, sizes)) => Ok(IExpr::NewArray(ty, sizes, *open)),
            Err(want) => Err(want),
        },
        IExpr::ArrayLit(ty, items) => match both(
            rename_type(alloc, names, ty),
            rename_all(alloc, names, items.items()),
        ) {
            Ok((ty, items)) => Ok(IExpr::ArrayLit(ty, items)),
            Err(want) => Err(want),
        },
        IExpr::Braces(items) => match rename_all(alloc, names, items.items()) {
            Ok(items) => Ok(IExpr::Braces(items)),
            Err(want) => Err(want),
        },
        IExpr::Index(e, i) => match both(
            rename_boxed(alloc, names, e.get()),
            rename_boxed(alloc, names, i.get()),
        ) {
            Ok((e, i)) => Ok(IExpr::Index(e, i)),
            Err(want) => Err(want),
        },
        IExpr::Unary(op, e) => match both(op.copy(alloc), rename_boxed(alloc, names, e.get())) {
            Ok((op, e)) => Ok(IExpr::Unary(op, e)),
            Err(want) => Err(want),
        },
        IExpr::Post(op, e) => match both(op.copy(alloc), rename_boxed(alloc, names, e.get())) {
            Ok((op, e)) => Ok(IExpr::Post(op, e)),
            Err(want) => Err(want),
        },
        IExpr::Binary(op, a, b) => match both(
            op.copy(alloc),
            both(
                rename_boxed(alloc, names, a.get()),
                rename_boxed(alloc, names, b.get()),
            ),
        ) {
            Ok((op, (a, b))) => Ok(IExpr::Binary(op, a, b)),
            Err(want) => Err(want),
        },
        IExpr::Assign(op, a, b) => match both(
            op.copy(alloc),
            both(
                rename_boxed(alloc, names, a.get()),
                rename_boxed(alloc, names, b.get()),
            ),
        ) {
            Ok((op, (a, b))) => Ok(IExpr::Assign(op, a, b)),
            Err(want) => Err(want),
        },
        IExpr::Cast(ty, e) => match both(
            rename_type(alloc, names, ty),
            rename_boxed(alloc, names, e.get()),
        ) {
            Ok((ty, e)) => Ok(IExpr::Cast(ty, e)),
            Err(want) => Err(want),
        },
        IExpr::InstanceOf(e, ty) => match both(
            rename_boxed(alloc, names, e.get()),
            rename_type(alloc, names, ty),
        ) {
            Ok((e, ty)) => Ok(IExpr::InstanceOf(e, ty)),
            Err(want) => Err(want),
        },
    }
}

/// The argument, renamed.
#[cycle(rename_iexpr)]
pub(crate) fn rename_argument(
    alloc: Global,
    names: &IndexMap<Id, Id>,
    arg: &Argument,
) -> Result<Argument, OutOfMemory>
    ensures { IfOk result (λ renamed. renamed ≡ rename_argument (name_in names.now.entries) arg.now) }
{
    Ok(Argument {
        param: name_of(names, &arg.param),
        value: rename_expr(alloc, names, &arg.value)?,
    })
}

/// The expression on the heap, renamed.
#[cycle(rename_iexpr)]
fn rename_boxed(
    alloc: Global,
    names: &IndexMap<Id, Id>,
    e: &IExpr,
) -> Result<Boxed<IExpr>, OutOfMemory>
    ensures { IfOk result (λ boxed. boxed ≡ rename_expr (name_in names.now.entries) e.now) }
{
    Boxed::new(alloc, rename_expr(alloc, names, e)?)
}

/// Each of the expressions, renamed.
#[cycle(rename_iexpr)]
pub(crate) fn rename_all(
    alloc: Global,
    names: &IndexMap<Id, Id>,
    items: &[IExpr],
) -> Result<List<IExpr>, OutOfMemory>
    ensures { IfOk result (λ all. all ≡ map (rename_expr (name_in names.now.entries)) items.now) }
{
    let mut all = List::new(alloc);
    for item in items {
        all.add(rename_expr(alloc, names, item)?)?;
    }
    Ok(all)
}

/// Each of the arguments, renamed.
#[cycle(rename_iexpr)]
pub(crate) fn rename_arguments(
    alloc: Global,
    names: &IndexMap<Id, Id>,
    items: &[Argument],
) -> Result<List<Argument>, OutOfMemory>
    ensures { IfOk result (λ all. all ≡ map (rename_argument (name_in names.now.entries)) items.now) }
{
    let mut all = List::new(alloc);
    for item in items {
        all.add(rename_argument(alloc, names, item)?)?;
    }
    Ok(all)
}

/// The expression there is, renamed.
pub(crate) fn rename_maybe(
    alloc: Global,
    names: &IndexMap<Id, Id>,
    e: &Option<IExpr>,
) -> Result<Option<IExpr>, OutOfMemory>
    ensures { IfOk result (λ o. o ≡ option_map (rename_expr (name_in names.now.entries)) e.now) }
{
    match e {
        Some(e) => Ok(Some(rename_expr(alloc, names, e)?)),
        None => Ok(None),
    }
}
