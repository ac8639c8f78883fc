//! The names that an expression is.
ghost use Rattle.std.specs.Prelude.{◌≡◌, ℕ, IfOk, [], ◌∷◌, ◌++◌, option_map};
ghost use Rattle.jav_names.specs.UnitViews.{MemberKey};
ghost use Rattle.mol_resolve_names.specs.chains.Spelled.{spelled};
ghost use Rattle.mol_resolve_readings.specs.reads.Reads.{names_of};
ghost use Rattle.mol_resolve_rules.specs.Readers.{Reader};

use jav_tree::{Expr, ExprNode};
use mol_base::{List, OutOfMemory, Text};
use std::alloc::Global;

/// The names that an expression is, where it is nothing but names with dots between them.
pub(crate) fn names_of(alloc: Global, e: &Expr) -> Result<Option<List<Text>>, OutOfMemory>
    ensures { IfOk result (λ names. (reader : Reader ℕ MemberKey) → names ≡ option_map spelled (names_of reader e.now)) }
{
    match &e.node {
        ExprNode::Name(name) => one_more(alloc, Some(List::new(alloc)), name),
        ExprNode::Dot(on, name) => {
            let names = names_of(alloc, on.get())?;
            one_more(alloc, names, name)
        },
        _ => Ok(None),
    }
}

/// A name after others, where there are such.
fn one_more(
    alloc: Global,
    names: Option<List<Text>>,
    name: &Text,
) -> Result<Option<List<Text>>, OutOfMemory>
    ensures { IfOk result (λ more. more ≡ option_map (λ names. names ++ name.now ∷ []) names) }
{
    match names {
        Some(mut names) => {
            let name = name.copy(alloc)?;
            names.add(name)?;
            Ok(Some(names))
        },
        None => Ok(None),
    }
}
