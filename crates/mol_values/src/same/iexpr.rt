ghost use Rattle.std.specs.Prelude.{◌≡◌, ◌↔◌, IsTrue};

use crate::same::{same_id, same_text, same_type};
use mol_values_types::{Argument, IExpr};

/// Whether both are the same expression. It takes no memory.
#[cycle(same_iexpr)]
pub fn same_expr(one: &IExpr, other: &IExpr) -> bool
    ensures { IsTrue result ↔ one.now ≡ other.now }
{
    match one {
        IExpr::Lit(a0) => match other {
            IExpr::Lit(b0) => { same_text(a0, b0) }
            _ => false,
        },
        IExpr::This => match other {
            IExpr::This => true,
            _ => false,
        },
        IExpr::Local(a0) => match other {
            IExpr::Local(b0) => { *a0 == *b0 }
            _ => false,
        },
        IExpr::Param(a0) => match other {
            IExpr::Param(b0) => { same_id(a0, b0) }
            _ => false,
        },
        IExpr::Own(a0) => match other {
            IExpr::Own(b0) => { same_id(a0, b0) }
            _ => false,
        },
        IExpr::StaticField(a0) => match other {
            IExpr::StaticField(b0) => { same_id(a0, b0) }
            _ => false,
        },
        IExpr::Field(a0, a1) => match other {
            IExpr::Field(b0, b1) => {
                if !same_id(a0, b0) {
                    return false;
                }
                same_expr(a1.get(), b1.get())
            }
            _ => false,
        },
        IExpr::Call(a0, a1) => match other {
            IExpr::Call(b0, b1) => {
                if !same_id(a0, b0) {
                    return false;
                }
                same_arguments(a1.items(), b1.items())
            }
            _ => false,
        },
        IExpr::StaticCall(a0, a1) => match other {
            IExpr::StaticCall(b0, b1) => {
                if !same_id(a0, b0) {
                    return false;
                }
                same_arguments(a1.items(), b1.items())
            }
            _ => false,
        },
        IExpr::CallOn(a0, a1, a2) => match other {
            IExpr::CallOn(b0, b1, b2) => {
                if !same_id(a0, b0) {
                    return false;
                }
                if !same_expr(a1.get(), b1.get()) {
                    return false;
                }
                same_arguments(a2.items(), b2.items())
            }
            _ => false,
        },
        IExpr::SuperCall(a0, a1) => match other {
            IExpr::SuperCall(b0, b1) => {
                if !same_id(a0, b0) {
                    return false;
                }
                same_arguments(a1.items(), b1.items())
            }
            _ => false,
        },
        IExpr::New(a0, a1) => match other {
            IExpr::New(b0, b1) => {
                if !same_id(a0, b0) {
                    return false;
                }
                same_arguments(a1.items(), b1.items())
            }
            _ => false,
        },
        IExpr::NewDefault(a0) => match other {
            IExpr::NewDefault(b0) => { same_id(a0, b0) }
            _ => false,
        },
        IExpr::Cond(a0, a1, a2) => match other {
            IExpr::Cond(b0, b1, b2) => {
                if !same_expr(a0.get(), b0.get()) {
                    return false;
                }
                if !same_expr(a1.get(), b1.get()) {
                    return false;
                }
                same_expr(a2.get(), b2.get())
            }
            _ => false,
        },
        IExpr::OutsideName(a0) => match other {
            IExpr::OutsideName(b0) => { same_text(a0, b0) }
            _ => false,
        },
        IExpr::OutsideClass(a0) => match other {
            IExpr::OutsideClass(b0) => { same_text(a0, b0) }
            _ => false,
        },
        IExpr::OutsideField(a0, a1) => match other {
            IExpr::OutsideField(b0, b1) => {
                if !same_text(a0, b0) {
                    return false;
                }
                same_expr(a1.get(), b1.get())
            }
            _ => false,
        },
        IExpr::OutsideCall(a0, a1) => match other {
            IExpr::OutsideCall(b0, b1) => {
                if !same_text(a0, b0) {
                    return false;
                }
                same_all(a1.items(), b1.items())
            }
            _ => false,
        },
        IExpr::OutsideCallOn(a0, a1, a2) => match other {
            IExpr::OutsideCallOn(b0, b1, b2) => {
                if !same_text(a0, b0) {
                    return false;
                }
                if !same_expr(a1.get(), b1.get()) {
                    return false;
                }
                same_all(a2.items(), b2.items())
            }
            _ => false,
        },
        IExpr::OutsideSuperCall(a0, a1) => match other {
            IExpr::OutsideSuperCall(b0, b1) => {
                if !same_text(a0, b0) {
                    return false;
                }
                same_all(a1.items(), b1.items())
            }
            _ => false,
        },
        IExpr::NewOutside(a0, a1) => match other {
            IExpr::NewOutside(b0, b1) => {
                if !same_type(a0, b0) {
                    return false;
                }
                same_all(a1.items(), b1.items())
            }
            _ => false,
        },
        IExpr::NewArray(a0, a1, a2) => match other {
            IExpr::NewArray(b0, b1, b2) => {
                if !same_type(a0, b0) {
                    return false;
                }
                if !same_all(a1.items(), b1.items()) {
                    return false;
                }
                *a2 == *b2
            }
            _ => false,
        },
        IExpr::ArrayLit(a0, a1) => match other {
            IExpr::ArrayLit(b0, b1) => {
                if !same_type(a0, b0) {
                    return false;
                }
                same_all(a1.items(), b1.items())
            }
            _ => false,
        },
        IExpr::Braces(a0) => match other {
            IExpr::Braces(b0) => { same_all(a0.items(), b0.items()) }
            _ => false,
        },
        IExpr::Index(a0, a1) => match other {
            IExpr::Index(b0, b1) => {
                if !same_expr(a0.get(), b0.get()) {
                    return false;
                }
                same_expr(a1.get(), b1.get())
            }
            _ => false,
        },
        IExpr::Unary(a0, a1) => match other {
            IExpr::Unary(b0, b1) => {
                if !same_text(a0, b0) {
                    return false;
                }
                same_expr(a1.get(), b1.get())
            }
            _ => false,
        },
        IExpr::Post(a0, a1) => match other {
            IExpr::Post(b0, b1) => {
                if !same_text(a0, b0) {
                    return false;
                }
                same_expr(a1.get(), b1.get())
            }
            _ => false,
        },
        IExpr::Binary(a0, a1, a2) => match other {
            IExpr::Binary(b0, b1, b2) => {
                if !same_text(a0, b0) {
                    return false;
                }
                if !same_expr(a1.get(), b1.get()) {
                    return false;
                }
                same_expr(a2.get(), b2.get())
            }
            _ => false,
        },
        IExpr::Assign(a0, a1, a2) => match other {
            IExpr::Assign(b0, b1, b2) => {
                if !same_text(a0, b0) {
                    return false;
                }
                if !same_expr(a1.get(), b1.get()) {
                    return false;
                }
                same_expr(a2.get(), b2.get())
            }
            _ => false,
        },
        IExpr::Cast(a0, a1) => match other {
            IExpr::Cast(b0, b1) => {
                if !same_type(a0, b0) {
                    return false;
                }
                same_expr(a1.get(), b1.get())
            }
            _ => false,
        },
        IExpr::InstanceOf(a0, a1) => match other {
            IExpr::InstanceOf(b0, b1) => {
                if !same_expr(a0.get(), b0.get()) {
                    return false;
                }
                same_type(a1, b1)
            }
            _ => false,
        },
    }
}

/// Whether both are the same argument.
#[cycle(same_iexpr)]
pub fn same_argument(one: &Argument, other: &Argument) -> bool
    ensures { IsTrue result ↔ one.now ≡ other.now }
{
    if !same_id(&one.param, &other.param) {
        return false;
    }
    same_expr(&one.value, &other.value)
}

/// Whether both lists have the same expressions.
#[cycle(same_iexpr)]
pub(crate) fn same_all(items: &[IExpr], others: &[IExpr]) -> bool
    ensures { IsTrue result ↔ items.now ≡ others.now }
{
    if items.len() != others.len() {
        return false;
    }
    for i in 0..items.len() {
        if !same_expr(&items[i], &others[i]) {
            return false;
        }
    }
    true
}

/// Whether both lists have the same arguments.
#[cycle(same_iexpr)]
pub(crate) fn same_arguments(items: &[Argument], others: &[Argument]) -> bool
    ensures { IsTrue result ↔ items.now ≡ others.now }
{
    if items.len() != others.len() {
        return false;
    }
    for i in 0..items.len() {
        if !same_argument(&items[i], &others[i]) {
            return false;
        }
    }
    true
}

/// Whether there is the same expression in both, or none in either.
pub(crate) fn same_maybe(e: &Option<IExpr>, other: &Option<IExpr>) -> bool
    ensures { IsTrue result ↔ e.now ≡ other.now }
{
    match e {
        Some(e) => match other {
            Some(other) => same_expr(e, other),
            None => false,
        },
        None => match other {
            Some(_) => false,
            None => true,
        },
    }
}
