//! What may be imported, and its names.
ghost use Rattle.std.specs.Prelude.{◌≡◌, ◌++◌, ◌∷◌, IfOk};
ghost use Rattle.jav_names.specs.DottedNames.{dot};
ghost use Rattle.mol_spell_rules.specs.SimpleNames.{same_importable};
ghost use Rattle.mol_spell_rules.specs.Writers.{full_of, simple_of};
ghost use Rattle.mol_table_rules.specs.Program.{same_id};
ghost use Rattle.mol_spell_expr.specs.Importables.{importable_of};

use jav_scope::simple_name;
use mol_base::{Id, OutOfMemory, Text};
use mol_scope_classes::{name_of, package_of};
use mol_spell_expr::Importable;
use mol_table::Table;
use std::alloc::Global;

/// Whether two are the same.
pub(crate) fn is_same(first: Importable<'_>, second: Importable<'_>) -> bool
    ensures { result ≡ same_importable (importable_of first.entry) (importable_of second.entry) }
{
    match (first, second) {
        (Importable::Class(first), Importable::Class(second)) => same_class(first, second),
        (Importable::Import(first), Importable::Import(second)) => first.bytes() == second.bytes(),
        (Importable::Class(_), Importable::Import(_)) => false,
        (Importable::Import(_), Importable::Class(_)) => false,
    }
}

/// Whether two classes are the same.
fn same_class(first: &Id, second: &Id) -> bool
    ensures { result ≡ same_id first.now second.now }
{
    first == second
}

/// The simple name (JLS 6.2).
pub(crate) fn simple_name_of<'a>(table: &'a Table, what: Importable<'a>) -> &'a str
    ensures { result.now ≡ simple_of table.now (importable_of what.entry) }
{
    match what {
        Importable::Class(class) => name_of(table, class),
        Importable::Import(full) => simple_name(full.as_str()),
    }
}

/// The full name (JLS 6.7).
pub(crate) fn full_name_of(
    alloc: Global,
    table: &Table,
    what: Importable<'_>,
) -> Result<Text, OutOfMemory>
    ensures { IfOk result (λ text. text ≡ full_of table.now (importable_of what.entry)) }
{
    match what {
        Importable::Class(class) => {
            with_dot(alloc, package_of(table, class), name_of(table, class))
        },
        Importable::Import(full) => full.copy(alloc),
    }
}

/// Two names with a dot between them.
fn with_dot(alloc: Global, front: &str, back: &str) -> Result<Text, OutOfMemory>
    ensures { IfOk result (λ text. text ≡ front.now ++ dot ∷ back.now) }
{
    let mut text = String::from_str(alloc, front)?;
    text.push_str(".")?;
    text.push_str(back)?;
    Ok(Text::from_string(text))
}
