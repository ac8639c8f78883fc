//! Declarations of variables (JLS 14.4), and expressions that may be left out.
ghost use Rattle.std.specs.Prelude.{◌<◌};
ghost use Rattle.mol_log_body.specs.BodyReader as reader;
ghost use Rattle.mol_log_body.specs.ReadsIn.{ReadsIn};
ghost use Rattle.mol_log_words.specs.Reads.{Reads};

use crate::stmt_head::Choice;
use crate::take::take_choice;
use mol_base::List;
use mol_log_expr::{ExprRole, Scope, expr};
use mol_log_words::{Bounds, Cursor, Fault, MAX_DIMENSIONS, TextForm, TypeRole, type_name};
use mol_values_types::{IDeclarator, IExpr, ILet};
use std::alloc::Global;

/// No expression, or one that is no higher than `depth`.
pub fn maybe(
    alloc: Global,
    words: &mut Cursor<'_>,
    choice: Choice,
    role: ExprRole,
    depth: u32,
    scope: &Scope,
) -> Result<Option<IExpr>, Fault>
    ensures { Reads (reader.maybe choice role depth scope.now.locals words.old) result words.new }
{
    if take_choice(words, choice, 0 < depth)? {
        Ok(Some(expr(alloc, words, role, depth, scope)?))
    } else {
        Ok(None)
    }
}

/// A variable and its first value.
fn declarator(
    alloc: Global,
    words: &mut Cursor<'_>,
    depth: u32,
    scope: &mut Scope,
) -> Result<IDeclarator, Fault>
    ensures { ReadsIn (reader.declarator depth scope.old words.old) result scope.new words.new }
{
    let name = words.text(alloc, TextForm::Name)?;
    scope.declare()?;
    let init = maybe(alloc, words, Choice::Init, ExprRole::First, depth, scope)?;
    Ok(IDeclarator { name, init })
}

/// A count and so many variables.
fn declarators(
    alloc: Global,
    words: &mut Cursor<'_>,
    depth: u32,
    scope: &mut Scope,
) -> Result<List<IDeclarator>, Fault>
    ensures { ReadsIn (reader.declarators depth scope.old words.old) result scope.new words.new }
{
    let count = words.count(Bounds::Positive, true)?;
    let mut all = List::new(alloc);
    for _turn in 0..count {
        let item = declarator(alloc, words, depth, scope)?;
        all.add(item)?;
    }
    // so great a count was cut off, and no memory holds as many
    if count == u64::MAX {
        return Err(Fault::OutOfMemory);
    }
    Ok(all)
}

/// A declaration of variables, after the word `let`.
pub fn variables(
    alloc: Global,
    words: &mut Cursor<'_>,
    depth: u32,
    scope: &mut Scope,
) -> Result<ILet, Fault>
    ensures { ReadsIn (reader.variables depth scope.old words.old) result scope.new words.new }
{
    let is_final = take_choice(words, Choice::Final, true)?;
    let ty = type_name(alloc, words, TypeRole::Value, MAX_DIMENSIONS)?;
    let names = declarators(alloc, words, depth, scope)?;
    Ok(ILet {
        is_final,
        ty,
        names,
    })
}
