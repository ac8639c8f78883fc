//! Expressions (JLS 15).
ghost use Rattle.std.specs.Prelude.{◌≡◌, ◌++◌, ◌∷◌, [], OnOk, map};
ghost use Rattle.mol_spell_rules.specs.DefaultCreations.{arguments_creations, expr_creations, exprs_creations, joined, maybe_creations};
ghost use Rattle.mol_faults_mentions.specs.creations.Parts.{argument_creations};

use mol_base::{Id, OutOfMemory};
use mol_values_types::{Argument, IExpr};

/// Adds the classes that an expression creates by their default constructors.
#[cycle(expr_creations)]
pub(crate) fn add_expr(classes: &mut Vec<Id>, e: &IExpr) -> Result<(), OutOfMemory>
    ensures { OnOk result (classes.new.items ≡ classes.old.items ++ expr_creations e.now) }
{
    match e {
        IExpr::Lit(_) | IExpr::This | IExpr::Local(_) | IExpr::Param(_) => Ok(()),
        IExpr::Own(_) | IExpr::StaticField(_) => Ok(()),
        IExpr::OutsideName(_) | IExpr::OutsideClass(_) => Ok(()),
        IExpr::NewDefault(class) => add_class(classes, class),
        IExpr::Field(_, a) | IExpr::OutsideField(_, a) => add_expr(classes, a.get()),
        IExpr::Unary(_, a) | IExpr::Post(_, a) => add_expr(classes, a.get()),
        IExpr::Cast(_, a) | IExpr::InstanceOf(a, _) => add_expr(classes, a.get()),
        IExpr::Index(a, b) | IExpr::Binary(_, a, b) | IExpr::Assign(_, a, b) => {
            add_expr(classes, a.get())?;
            add_expr(classes, b.get())
        },
        IExpr::Cond(test, a, b) => {
            add_expr(classes, test.get())?;
            add_expr(classes, a.get())?;
            add_expr(classes, b.get())
        },
        IExpr::Call(_, args) | IExpr::StaticCall(_, args) => add_arguments(classes, args.items()),
        IExpr::SuperCall(_, args) | IExpr::New(_, args) => add_arguments(classes, args.items()),
        IExpr::CallOn(_, on, args) => {
            add_expr(classes, on.get())?;
            add_arguments(classes, args.items())
        },
        IExpr::OutsideCall(_, args) | IExpr::OutsideSuperCall(_, args) => {
            add_all(classes, args.items())
        },
        IExpr::OutsideCallOn(_, on, args) => {
            add_expr(classes, on.get())?;
            add_all(classes, args.items())
        },
        IExpr::NewOutside(_, items) | IExpr::NewArray(_, items, _) => {
            add_all(classes, items.items())
        },
        IExpr::ArrayLit(_, items) | IExpr::Braces(items) => add_all(classes, items.items()),
    }
}

fn add_class(classes: &mut Vec<Id>, class: &Id) -> Result<(), OutOfMemory>
    ensures { OnOk result (classes.new.items ≡ classes.old.items ++ class.now ∷ []) }
{
    classes.push(*class)?;
    Ok(())
}

#[cycle(expr_creations)]
fn add_arguments(classes: &mut Vec<Id>, args: &[Argument]) -> Result<(), OutOfMemory>
    ensures { OnOk result (classes.new.items ≡ classes.old.items ++ joined (map argument_creations args.now)) }
{
    for arg in args {
        add_argument(classes, arg)?;
    }
    Ok(())
}

#[cycle(expr_creations)]
fn add_argument(classes: &mut Vec<Id>, arg: &Argument) -> Result<(), OutOfMemory>
    ensures { OnOk result (classes.new.items ≡ classes.old.items ++ argument_creations arg.now) }
{
    add_expr(classes, &arg.value)
}

#[cycle(expr_creations)]
fn add_all(classes: &mut Vec<Id>, items: &[IExpr]) -> Result<(), OutOfMemory>
    ensures { OnOk result (classes.new.items ≡ classes.old.items ++ joined (map expr_creations items.now)) }
{
    for item in items {
        add_expr(classes, item)?;
    }
    Ok(())
}

/// Adds what these expressions create, which stand in a statement.
#[tactic(auto, using(crate::proofs::creations_lemmas::Joined::exprs_joined))]
pub(crate) fn add_exprs(classes: &mut Vec<Id>, es: &[IExpr]) -> Result<(), OutOfMemory>
    ensures { OnOk result (classes.new.items ≡ classes.old.items ++ exprs_creations es.now) }
{
    add_all(classes, es)
}

/// Adds what the arguments of a statement create.
#[tactic(auto, using(crate::proofs::creations_lemmas::Joined::arguments_joined))]
pub(crate) fn add_values(classes: &mut Vec<Id>, args: &[Argument]) -> Result<(), OutOfMemory>
    ensures { OnOk result (classes.new.items ≡ classes.old.items ++ arguments_creations args.now) }
{
    add_arguments(classes, args)
}

/// Adds what an expression creates, where there is one.
pub(crate) fn add_maybe(classes: &mut Vec<Id>, e: &Option<IExpr>) -> Result<(), OutOfMemory>
    ensures { OnOk result (classes.new.items ≡ classes.old.items ++ maybe_creations e.now) }
{
    match e {
        Some(e) => add_expr(classes, e),
        None => Ok(()),
    }
}
