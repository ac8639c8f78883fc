//! Names with dots between them as expressions (JLS 6.5).
ghost use Rattle.std.specs.Prelude.{◌≡◌, ◌∷◌, IfOk};
ghost use Rattle.jav_names.specs.DottedNames.{cut};
ghost use Rattle.mol_spell_rules.specs.SpelledExpressions.{dot_tree, dots_tree, names_tree};

use crate::trees::{dot, named};
use jav_tree::Expr;
use mol_base::{Boxed, OutOfMemory};
use std::alloc::Global;

/// The names of a text, which are cut at its dots.
pub(crate) fn names_tree(alloc: Global, text: &str) -> Result<Expr, OutOfMemory>
    ensures { IfOk result (λ tree. tree ≡ names_tree (cut text.now)) }
{
    match text.split_once('.') {
        Some((front, rest)) => {
            let first = named(alloc, front)?;
            dots_tree(alloc, first, rest)
        },
        None => named(alloc, text),
    }
}

/// The names of a text, which are cut at its dots, after an expression and a dot.
fn dots_tree(alloc: Global, on: Expr, text: &str) -> Result<Expr, OutOfMemory>
    ensures { IfOk result (λ tree. tree ≡ dots_tree on ((cut text.now).first ∷ (cut text.now).rest)) }
{
    let mut tree = on;
    let mut rest = text;
    while let Some((name, behind)) = rest.split_once('.') {
        tree = dot_after(alloc, tree, name)?;
        rest = behind;
    }
    dot_after(alloc, tree, rest)
}

/// A name after an expression and a dot.
fn dot_after(alloc: Global, on: Expr, name: &str) -> Result<Expr, OutOfMemory>
    ensures { IfOk result (λ tree. tree ≡ dot_tree on name.now) }
{
    let on = Boxed::new(alloc, on)?;
    dot(alloc, on, name)
}
