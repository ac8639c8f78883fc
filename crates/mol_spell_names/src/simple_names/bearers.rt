//! What each simple name among uses may stand for.
ghost use Rattle.std.specs.Prelude.{◌≡◌, ◌&&◌, true, Some, IfOk, OnOk, if◌then◌else◌, map};
ghost use Rattle.std.specs.Str.{bytes_eq};
ghost use Rattle.jav_names.specs.DottedNames.{Name, cut};
ghost use Rattle.mol_spell_names.specs.simple_names.Bearers.{AreBearers, bearer_at, leaves_name, may_be};
ghost use Rattle.mol_spell_rules.specs.Writers.{Importable as Named, simple_of};
ghost use Rattle.mol_spell_uses.specs.uses.Kept.{kept_use};

use crate::simple_names::importables::is_same;
use indexmap::IndexMap;
use jav_scope::simple_name;
use mol_base::OutOfMemory;
use mol_scope_classes::name_of;
use mol_spell_expr::Importable;
use mol_spell_uses::Use;
use mol_table::Table;
use std::alloc::Global;

/// What the simple names of these uses may stand for without a class near by, each alone; nothing where two rivals take the name, or a name
/// as it is written begins with it. The time is linear in the number of uses, but for their look-ups in the table. `Err` is want of
/// memory.
pub(crate) fn bearers_of<'a>(
    alloc: Global,
    table: &'a Table,
    uses: &'a [Use],
) -> Result<IndexMap<&'a str, Option<Importable<'a>>>, OutOfMemory>
    ensures { IfOk result (λ bearers. AreBearers table.now (map kept_use uses.now) bearers.entries) }
{
    let mut bearers = IndexMap::new(alloc);
    for used in uses {
        add_use(&mut bearers, table, used)?;
    }
    Ok(bearers)
}

/// What a name may be for among these; `None` where none of them takes it.
pub(crate) fn bearer_at<'a>(
    bearers: &IndexMap<&'a str, Option<Importable<'a>>>,
    name: &str,
) -> Option<Option<Importable<'a>>>
    ensures { result ≡ bearer_at bearers.now.entries name.now }
{
    bearers.get(name).copied()
}

/// A use takes its simple name.
fn add_use<'a>(
    bearers: &mut IndexMap<&'a str, Option<Importable<'a>>>,
    table: &'a Table,
    used: &'a Use,
) -> Result<(), OutOfMemory>
    ensures { OnOk result ((what : Named) → let name = simple_of table.now what in
        may_be (bearer_at bearers.new.entries name) what
        ≡ (may_be (bearer_at bearers.old.entries name) what && leaves_name table.now what (kept_use used.now))) }
{
    match used {
        Use::Class(class, _) => {
            add_bearer(
                bearers,
                name_of(table, class),
                Some(Importable::Class(class)),
            )
        },
        Use::Import(full, _) => {
            let name = simple_name(full.as_str());
            add_bearer(bearers, name, Some(Importable::Import(full)))
        },
        Use::Written(text) => add_bearer(bearers, first_name(text.as_str()), None),
    }
}

/// A name is for this alone from here on, if it was for nothing else; without this, for nothing.
fn add_bearer<'a>(
    bearers: &mut IndexMap<&'a str, Option<Importable<'a>>>,
    name: &'a str,
    bearer: Option<Importable<'a>>,
) -> Result<(), OutOfMemory>
    ensures { OnOk result ((asked : Name) (what : Named) → may_be (bearer_at bearers.new.entries asked) what
        ≡ (may_be (bearer_at bearers.old.entries asked) what
        && (if bytes_eq name.now asked then may_be (Some bearer.entry) what else true))) }
{
    let kept = kept_at(bearers, name, bearer);
    bearers.insert(name, kept)?;
    Ok(())
}

/// What a name may be for that this takes, and what did before.
fn kept_at<'a>(
    bearers: &IndexMap<&'a str, Option<Importable<'a>>>,
    name: &str,
    bearer: Option<Importable<'a>>,
) -> Option<Importable<'a>>
    ensures { (what : Named) → may_be (Some result) what
        ≡ (may_be (bearer_at bearers.now.entries name.now) what && may_be (Some bearer.entry) what) }
{
    match bearer_at(bearers, name) {
        Some(known) => common(known, bearer),
        None => bearer,
    }
}

/// What a name may be for that may be for the one and for the other.
fn common<'a>(
    first: Option<Importable<'a>>,
    second: Option<Importable<'a>>,
) -> Option<Importable<'a>>
    ensures { (what : Named) → may_be (Some result) what ≡ (may_be (Some first.entry) what && may_be (Some second.entry) what) }
{
    match (first, second) {
        (Some(first), Some(second)) => {
            if is_same(first, second) {
                Some(first)
            } else {
                None
            }
        },
        (Some(_), None) => None,
        (None, _) => None,
    }
}

/// What stands before the first dot, or the whole text where it has none.
fn first_name(text: &str) -> &str
    ensures { result.now ≡ (cut text.now).first }
{
    match text.split_once('.') {
        Some((first, rest)) => first,
        None => text,
    }
}
