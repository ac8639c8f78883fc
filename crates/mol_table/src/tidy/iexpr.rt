//! Expressions, tidied: the arguments of each call made those of the present parameters of its method.
ghost use Rattle.std.specs.Prelude.{◌≡◌, IfOk, map, option_map, option_copied};
ghost use Rattle.mol_table.specs.Maps.{program_in};
ghost use Rattle.mol_table_rules.specs.Program.{params_at};
ghost use Rattle.mol_table_rules.specs.Tidy.{value_of, arguments_for, filler_expr, creation};
ghost use Rattle.mol_table.specs.Tidying.{bare_in, expr_by, argument_by};

use crate::maps::Maps;
use indexmap::IndexMap;
use mol_base::{Boxed, Id, List, OutOfMemory, Text, both};
use mol_values_types::{Argument, IExpr, Param};
use std::alloc::Global;

/// The expression, tidied. The index has the constructors that there are.
#[cycle(tidy_iexpr)]
pub(crate) fn tidy_expr(
    alloc: Global,
    maps: &Maps,
    index: &IndexMap<Id, Id>,
    e: &IExpr,
) -> Result<IExpr, OutOfMemory>
    ensures { IfOk result (λ tidied. tidied ≡ expr_by maps.now index.now.entries e.now) }
{
    match e {
        IExpr::Lit(text) => match text.copy(alloc) {
            Ok(text) => Ok(IExpr::Lit(text)),
            Err(want) => Err(want),
        },
        IExpr::This => Ok(IExpr::This),
        IExpr::Local(number) => Ok(IExpr::Local(*number)),
        IExpr::Param(id) => Ok(IExpr::Param(*id)),
        IExpr::Own(field) => Ok(IExpr::Own(*field)),
        IExpr::StaticField(field) => Ok(IExpr::StaticField(*field)),
        IExpr::Field(field, e) => match tidy_boxed(alloc, maps, index, e.get()) {
            Ok(e) => Ok(IExpr::Field(*field, e)),
            Err(want) => Err(want),
        },
        IExpr::Call(method, args) => match tidy_arguments(
            alloc,
            maps,
            index,
            method,
            args.items(),
        ) {
            Ok(args) => Ok(IExpr::Call(*method, args)),
            Err(want) => Err(want),
        },
        IExpr::StaticCall(method, args) => match tidy_arguments(
            alloc,
            maps,
            index,
            method,
            args.items(),
        ) {
            Ok(args) => Ok(IExpr::StaticCall(*method, args)),
            Err(want) => Err(want),
        },
        IExpr::CallOn(method, e, args) => match both(
            tidy_boxed(alloc, maps, index, e.get()),
            tidy_arguments(alloc, maps, index, method, args.items()),
        ) {
            Ok((e, args)) => Ok(IExpr::CallOn(*method, e, args)),
            Err(want) => Err(want),
        },
        IExpr::SuperCall(method, args) => match tidy_arguments(
            alloc,
            maps,
            index,
            method,
            args.items(),
        ) {
            Ok(args) => Ok(IExpr::SuperCall(*method, args)),
            Err(want) => Err(want),
        },
        IExpr::New(constructor, args) => match tidy_arguments(
            alloc,
            maps,
            index,
            constructor,
            args.items(),
        ) {
            Ok(args) => Ok(IExpr::New(*constructor, args)),
            Err(want) => Err(want),
        },
        IExpr::NewDefault(class) => Ok(creation(alloc, class, index.get(class))),
        IExpr::Cond(test, a, b) => match both(
            tidy_boxed(alloc, maps, index, test.get()),
            both(
                tidy_boxed(alloc, maps, index, a.get()),
                tidy_boxed(alloc, maps, index, b.get()),
            ),
        ) {
            Ok((test, (a, b))) => Ok(IExpr::Cond(test, a, b)),
            Err(want) => Err(want),
        },
        IExpr::OutsideName(name) => match name.copy(alloc) {
            Ok(name) => Ok(IExpr::OutsideName(name)),
            Err(want) => Err(want),
        },
        IExpr::OutsideClass(name) => match name.copy(alloc) {
            Ok(name) => Ok(IExpr::OutsideClass(name)),
            Err(want) => Err(want),
        },
        IExpr::OutsideField(name, e) => match both(
            name.copy(alloc),
            tidy_boxed(alloc, maps, index, e.get()),
        ) {
            Ok((name, e)) => Ok(IExpr::OutsideField(name, e)),
            Err(want) => Err(want),
        },
        IExpr::OutsideCall(name, args) => match both(
            name.copy(alloc),
            tidy_all(alloc, maps, index, args.items()),
        ) {
            Ok((name, args)) => Ok(IExpr::OutsideCall(name, args)),
            Err(want) => Err(want),
        },
        IExpr::OutsideCallOn(name, e, args) => match both(
            name.copy(alloc),
            both(
                tidy_boxed(alloc, maps, index, e.get()),
                tidy_all(alloc, maps, index, args.items()),
            ),
        ) {
            Ok((name, (e, args))) => Ok(IExpr::OutsideCallOn(name, e, args)),
            Err(want) => Err(want),
        },
        IExpr::OutsideSuperCall(name, args) => match both(
            name.copy(alloc),
            tidy_all(alloc, maps, index, args.items()),
        ) {
            Ok((name, args)) => Ok(IExpr::OutsideSuperCall(name, args)),
            Err(want) => Err(want),
        },
        IExpr::NewOutside(ty, args) => match both(
            ty.copy(alloc),
            tidy_all(alloc, maps, index, args.items()),
        ) {
            Ok((ty, args)) => Ok(IExpr::NewOutside(ty, args)),
            Err(want) => Err(want),
        },
        IExpr::NewArray(ty, sizes, open) => match both(
            ty.copy(alloc),
            tidy_all(alloc, maps, index, sizes.items()),
        ) {
            Ok((ty, sizes)) => Ok(IExpr::NewArray(ty, sizes, *open)),
            Err(want) => Err(want),
        },
        IExpr::ArrayLit(ty, items) => match both(
            ty.copy(alloc),
            tidy_all(alloc, maps, index, items.items()),
        ) {
            Ok((ty, items)) => Ok(IExpr::ArrayLit(ty, items)),
            Err(want) => Err(want),
        },
        IExpr::Braces(items) => match tidy_all(alloc, maps, index, items.items()) {
            Ok(items) => Ok(IExpr::Braces(items)),
            Err(want) => Err(want),
        },
        IExpr::Index(e, i) => match both(
            tidy_boxed(alloc, maps, index, e.get()),
            tidy_boxed(alloc, maps, index, i.get()),
        ) {
            Ok((e, i)) => Ok(IExpr::Index(e, i)),
            Err(want) => Err(want),
        },
        IExpr::Unary(op, e) => match both(op.copy(alloc), tidy_boxed(alloc, maps, index, e.get())) {
            Ok((op, e)) => Ok(IExpr::Unary(op, e)),
            Err(want) => Err(want),
        },
        IExpr::Post(op, e) => match both(op.copy(alloc), tidy_boxed(alloc, maps, index, e.get())) {
            Ok((op, e)) => Ok(IExpr::Post(op, e)),
            Err(want) => Err(want),
        },
        IExpr::Binary(op, a, b) => match both(
            op.copy(alloc),
            both(
                tidy_boxed(alloc, maps, index, a.get()),
                tidy_boxed(alloc, maps, index, b.get()),
            ),
        ) {
            Ok((op, (a, b))) => Ok(IExpr::Binary(op, a, b)),
            Err(want) => Err(want),
        },
        IExpr::Assign(op, a, b) => match both(
            op.copy(alloc),
            both(
                tidy_boxed(alloc, maps, index, a.get()),
                tidy_boxed(alloc, maps, index, b.get()),
            ),
        ) {
            Ok((op, (a, b))) => Ok(IExpr::Assign(op, a, b)),
            Err(want) => Err(want),
        },
        IExpr::Cast(ty, e) => match both(ty.copy(alloc), tidy_boxed(alloc, maps, index, e.get())) {
            Ok((ty, e)) => Ok(IExpr::Cast(ty, e)),
            Err(want) => Err(want),
        },
        IExpr::InstanceOf(e, ty) => match both(
            tidy_boxed(alloc, maps, index, e.get()),
            ty.copy(alloc),
        ) {
            Ok((e, ty)) => Ok(IExpr::InstanceOf(e, ty)),
            Err(want) => Err(want),
        },
    }
}

/// The expression on the heap, tidied.
#[cycle(tidy_iexpr)]
fn tidy_boxed(
    alloc: Global,
    maps: &Maps,
    index: &IndexMap<Id, Id>,
    e: &IExpr,
) -> Result<Boxed<IExpr>, OutOfMemory>
    ensures { IfOk result (λ boxed. boxed ≡ expr_by maps.now index.now.entries e.now) }
{
    Boxed::new(alloc, tidy_expr(alloc, maps, index, e)?)
}

/// Each of the expressions, tidied.
#[cycle(tidy_iexpr)]
pub(crate) fn tidy_all(
    alloc: Global,
    maps: &Maps,
    index: &IndexMap<Id, Id>,
    items: &[IExpr],
) -> Result<List<IExpr>, OutOfMemory>
    ensures { IfOk result (λ all. all ≡ map (expr_by maps.now index.now.entries) items.now) }
{
    let mut all = List::new(alloc);
    for item in items {
        all.add(tidy_expr(alloc, maps, index, item)?)?;
    }
    Ok(all)
}

/// One argument for each present parameter of a method, in the order of the parameters.
#[cycle(tidy_iexpr)]
pub(crate) fn tidy_arguments(
    alloc: Global,
    maps: &Maps,
    index: &IndexMap<Id, Id>,
    method: &Id,
    args: &[Argument],
) -> Result<List<Argument>, OutOfMemory>
    ensures { IfOk result (λ all. all ≡ arguments_for (params_at (program_in maps.now) method.now)
        (map (argument_by maps.now index.now.entries) args.now)) }
{
    let mut all = List::new(alloc);
    for param in maps.params(method) {
        all.add(Argument {
            param: param.id,
            value: value_for(alloc, maps, index, param, args)?,
        })?;
    }
    Ok(all)
}

/// The first argument that is recorded for a parameter, tidied, else its filler.
#[cycle(tidy_iexpr)]
fn value_for(
    alloc: Global,
    maps: &Maps,
    index: &IndexMap<Id, Id>,
    param: &Param,
    args: &[Argument],
) -> Result<IExpr, OutOfMemory>
    ensures { IfOk result (λ e. e ≡ value_of (map (argument_by maps.now index.now.entries) args.now) param.now) }
{
    for arg in args {
        if param.id == arg.param {
            return tidy_expr(alloc, maps, index, &arg.value);
        }
    }
    filler_expr(alloc, &param.filler)
}

/// A filler as an expression.
fn filler_expr(alloc: Global, filler: &Text) -> Result<IExpr, OutOfMemory>
    ensures { IfOk result (λ e. e ≡ filler_expr filler.now) }
{
    match filler.as_str().strip_prefix("-") {
        Some(number) => Ok(IExpr::Unary(
            Text::from_str(alloc, "-")?,
            Boxed::new(alloc, IExpr::Lit(Text::from_str(alloc, number)?))?,
        )),
        None => Ok(IExpr::Lit(filler.copy(alloc)?)),
    }
}

/// The creation of a class by the constructor that there is. It takes no memory.
fn creation(alloc: Global, class: &Id, constructor: Option<&Id>) -> IExpr
    ensures { result ≡ creation class.now (option_copied constructor.entry) }
{
    match constructor {
        Some(constructor) => IExpr::New(*constructor, List::new(alloc)),
        None => IExpr::NewDefault(*class),
    }
}

/// The expression there is, tidied.
pub(crate) fn tidy_maybe(
    alloc: Global,
    maps: &Maps,
    index: &IndexMap<Id, Id>,
    e: &Option<IExpr>,
) -> Result<Option<IExpr>, OutOfMemory>
    ensures { IfOk result (λ o. o ≡ option_map (expr_by maps.now index.now.entries) e.now) }
{
    match e {
        Some(e) => Ok(Some(tidy_expr(alloc, maps, index, e)?)),
        None => Ok(None),
    }
}
