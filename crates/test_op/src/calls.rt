//! Expressions made of others.
ghost use Rattle.std.specs.Prelude.{◌≡◌, IsTrue, IfOk};
ghost use Rattle.mol_table_rules.specs.ExpressionForms.{is_binary, is_expression, is_statement};
ghost use Rattle.test_op.specs.Given.{are_given};

use crate::fault::CaseFault;
use mol_base::{Boxed, Id, List, Text};
use mol_values_types::{Argument, IExpr};
use std::alloc::Global;

/// What a call by an identity alone calls.
#[derive(Clone, Copy)]
pub enum Called {
    Method,
    StaticMethod,
    SuperMethod,
    Constructor,
}

/// The call of this identity, with these arguments.
pub fn call(called: Called, id: Id, arguments: List<Argument>) -> IExpr
    requires { IsTrue (are_given arguments) }
    ensures { IsTrue (is_expression result) }
{
    match called {
        Called::Method => IExpr::Call(id, arguments),
        Called::StaticMethod => IExpr::StaticCall(id, arguments),
        Called::SuperMethod => IExpr::SuperCall(id, arguments),
        Called::Constructor => IExpr::New(id, arguments),
    }
}

/// The call of a method on what an expression gives.
pub fn call_on(method: Id, receiver: Boxed<IExpr>, arguments: List<Argument>) -> IExpr
    requires receiver { IsTrue (is_expression receiver) }
    requires arguments { IsTrue (are_given arguments) }
    ensures value { IsTrue (is_expression result) }
    ensures statement { IsTrue (is_statement result) }
{
    IExpr::CallOn(method, receiver, arguments)
}

/// An operator between two operands.
pub fn binary(operator: Text, left: Boxed<IExpr>, right: Boxed<IExpr>) -> IExpr
    requires operator { IsTrue (is_binary operator) }
    requires left { IsTrue (is_expression left) }
    requires right { IsTrue (is_expression right) }
    ensures { IsTrue (is_expression result) }
{
    IExpr::Binary(operator, left, right)
}

/// An expression as a part of another one.
pub fn boxed(alloc: Global, part: IExpr) -> Result<Boxed<IExpr>, CaseFault>
    ensures { IfOk result (λ boxed. boxed ≡ part) }
{
    Ok(Boxed::new(alloc, part)?)
}

/// Sets a field of `this` to a value.
pub fn assignment(alloc: Global, field: Id, value: Boxed<IExpr>) -> Result<IExpr, CaseFault>
    requires { IsTrue (is_expression value) }
    ensures { IfOk result (λ e. IsTrue (is_statement e)) }
{
    let target = boxed(alloc, IExpr::Own(field))?;
    let operator = Text::from_str(alloc, "=")?;
    Ok(IExpr::Assign(operator, target, value))
}
