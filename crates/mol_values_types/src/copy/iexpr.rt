ghost use Rattle.std.specs.Prelude.{◌≡◌, IfOk};

use crate::{Argument, IExpr};
use mol_base::{Boxed, List, OutOfMemory, both};
use std::alloc::Global;

impl IExpr {
    /// An expression that equals this one.
    #[cycle(copy_iexpr)]
    pub fn copy(&self, alloc: Global) -> Result<IExpr, OutOfMemory>
        ensures { IfOk result (λ copy. copy ≡ self.now) }
    {
        match self {
            IExpr::Lit(text) => match text.copy(alloc) {
                Ok(text) => Ok(IExpr::Lit(text)),
                Err(want) => Err(want),
            },
            IExpr::This => Ok(IExpr::This),
            IExpr::Local(number) => Ok(IExpr::Local(*number)),
            IExpr::Param(id) => Ok(IExpr::Param(*id)),
            IExpr::Own(field) => Ok(IExpr::Own(*field)),
            IExpr::StaticField(field) => Ok(IExpr::StaticField(*field)),
            IExpr::Field(field, e) => match copy_boxed(alloc, e.get()) {
                Ok(e) => Ok(IExpr::Field(*field, e)),
                Err(want) => Err(want),
            },
            IExpr::Call(method, args) => match copy_arguments(alloc, args.items()) {
                Ok(args) => Ok(IExpr::Call(*method, args)),
                Err(want) => Err(want),
            },
            IExpr::StaticCall(method, args) => match copy_arguments(alloc, args.items()) {
                Ok(args) => Ok(IExpr::StaticCall(*method, args)),
                Err(want) => Err(want),
            },
            IExpr::CallOn(method, e, args) => match both(
                copy_boxed(alloc, e.get()),
                copy_arguments(alloc, args.items()),
            ) {
                Ok((e, args)) => Ok(IExpr::CallOn(*method, e, args)),
                Err(want) => Err(want),
            },
            IExpr::SuperCall(method, args) => match copy_arguments(alloc, args.items()) {
                Ok(args) => Ok(IExpr::SuperCall(*method, args)),
                Err(want) => Err(want),
            },
            IExpr::New(constructor, args) => match copy_arguments(alloc, args.items()) {
                Ok(args) => Ok(IExpr::New(*constructor, args)),
                Err(want) => Err(want),
            },
            IExpr::NewDefault(class) => Ok(IExpr::NewDefault(*class)),
            IExpr::Cond(test, a, b) => match both(
                copy_boxed(alloc, test.get()),
                both(copy_boxed(alloc, a.get()), copy_boxed(alloc, b.get())),
            ) {
                Ok((test, (a, b))) => Ok(IExpr::Cond(test, a, b)),
                Err(want) => Err(want),
            },
            IExpr::OutsideName(name) => match name.copy(alloc) {
                Ok(name) => Ok(IExpr::OutsideName(name)),
                Err(want) => Err(want),
            },
            IExpr::OutsideClass(name) => match name.copy(alloc) {
                Ok(name) => Ok(IExpr::OutsideClass(name)),
                Err(want) => Err(want),
            },
            IExpr::OutsideField(name, e) => match both(
                name.copy(alloc),
                copy_boxed(alloc, e.get()),
            ) {
                Ok((name, e)) => Ok(IExpr::OutsideField(name, e)),
                Err(want) => Err(want),
            },
            IExpr::OutsideCall(name, args) => match both(
                name.copy(alloc),
                copy_all(alloc, args.items()),
            ) {
                Ok((name, args)) => Ok(IExpr::OutsideCall(name, args)),
                Err(want) => Err(want),
            },
            IExpr::OutsideCallOn(name, e, args) => match both(
                name.copy(alloc),
                both(copy_boxed(alloc, e.get()), copy_all(alloc, args.items())),
            ) {
                Ok((name, (e, args))) => Ok(IExpr::OutsideCallOn(name, e, args)),
                Err(want) => Err(want),
            },
            IExpr::OutsideSuperCall(name, args) => match both(
                name.copy(alloc),
                copy_all(alloc, args.items()),
            ) {
                Ok((name, args)) => Ok(IExpr::OutsideSuperCall(name, args)),
                Err(want) => Err(want),
            },
            IExpr::NewOutside(ty, args) => match both(
                ty.copy(alloc),
                copy_all(alloc, args.items()),
            ) {
                Ok((ty, args)) => Ok(IExpr::NewOutside(ty, args)),
                Err(want) => Err(want),
            },
            IExpr::NewArray(ty, sizes, open) => match both(
                ty.copy(alloc),
                copy_all(alloc, sizes.items()),
            ) {
                Ok((ty, sizes)) => Ok(IExpr::NewArray(ty, sizes, *open)),
                Err(want) => Err(want),
            },
            IExpr::ArrayLit(ty, items) => match both(
                ty.copy(alloc),
                copy_all(alloc, items.items()),
            ) {
                Ok((ty, items)) => Ok(IExpr::ArrayLit(ty, items)),
                Err(want) => Err(want),
            },
            IExpr::Braces(items) => match copy_all(alloc, items.items()) {
                Ok(items) => Ok(IExpr::Braces(items)),
                Err(want) => Err(want),
            },
            IExpr::Index(e, i) => match both(
                copy_boxed(alloc, e.get()),
                copy_boxed(alloc, i.get()),
            ) {
                Ok((e, i)) => Ok(IExpr::Index(e, i)),
                Err(want) => Err(want),
            },
            IExpr::Unary(op, e) => match both(op.copy(alloc), copy_boxed(alloc, e.get())) {
                Ok((op, e)) => Ok(IExpr::Unary(op, e)),
                Err(want) => Err(want),
            },
            IExpr::Post(op, e) => match both(op.copy(alloc), copy_boxed(alloc, e.get())) {
                Ok((op, e)) => Ok(IExpr::Post(op, e)),
                Err(want) => Err(want),
            },
            IExpr::Binary(op, a, b) => match both(
                op.copy(alloc),
                both(copy_boxed(alloc, a.get()), copy_boxed(alloc, b.get())),
            ) {
                Ok((op, (a, b))) => Ok(IExpr::Binary(op, a, b)),
                Err(want) => Err(want),
            },
            IExpr::Assign(op, a, b) => match both(
                op.copy(alloc),
                both(copy_boxed(alloc, a.get()), copy_boxed(alloc, b.get())),
            ) {
                Ok((op, (a, b))) => Ok(IExpr::Assign(op, a, b)),
                Err(want) => Err(want),
            },
            IExpr::Cast(ty, e) => match both(ty.copy(alloc), copy_boxed(alloc, e.get())) {
                Ok((ty, e)) => Ok(IExpr::Cast(ty, e)),
                Err(want) => Err(want),
            },
            IExpr::InstanceOf(e, ty) => match both(copy_boxed(alloc, e.get()), ty.copy(alloc)) {
                Ok((e, ty)) => Ok(IExpr::InstanceOf(e, ty)),
                Err(want) => Err(want),
            },
        }
    }
}

impl Argument {
    /// An argument that equals this one.
    #[cycle(copy_iexpr)]
    pub fn copy(&self, alloc: Global) -> Result<Argument, OutOfMemory>
        ensures { IfOk result (λ copy. copy ≡ self.now) }
    {
        Ok(Argument {
            param: self.param,
            value: self.value.copy(alloc)?,
        })
    }
}

#[cycle(copy_iexpr)]
fn copy_boxed(alloc: Global, e: &IExpr) -> Result<Boxed<IExpr>, OutOfMemory>
    ensures { IfOk result (λ b. b ≡ e.now) }
{
    Boxed::new(alloc, e.copy(alloc)?)
}

/// Expressions that equal these.
#[cycle(copy_iexpr)]
pub(crate) fn copy_all(alloc: Global, items: &[IExpr]) -> Result<List<IExpr>, OutOfMemory>
    ensures { IfOk result (λ all. all ≡ items.now) }
{
    let mut all = List::new(alloc);
    for item in items {
        all.add(item.copy(alloc)?)?;
    }
    Ok(all)
}

/// Arguments that equal these.
#[cycle(copy_iexpr)]
pub(crate) fn copy_arguments(
    alloc: Global,
    items: &[Argument],
) -> Result<List<Argument>, OutOfMemory>
    ensures { IfOk result (λ all. all ≡ items.now) }
{
    let mut all = List::new(alloc);
    for item in items {
        all.add(item.copy(alloc)?)?;
    }
    Ok(all)
}

/// An expression that equals the one there is.
pub(crate) fn copy_maybe(alloc: Global, e: &Option<IExpr>) -> Result<Option<IExpr>, OutOfMemory>
    ensures { IfOk result (λ o. o ≡ e.now) }
{
    match e {
        Some(e) => Ok(Some(e.copy(alloc)?)),
        None => Ok(None),
    }
}
