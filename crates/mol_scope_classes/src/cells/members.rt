//! Fields, declarations and their methods.
ghost use Rattle.std.specs.Prelude.{◌≡◌};
ghost use Rattle.std.specs.FinMap as map;
ghost use Rattle.std.specs.List.{list_any};
ghost use Rattle.std.specs.Str.{bytes_eq};
ghost use Rattle.jav_names.specs.LookUps.{is_constructor};
ghost use Rattle.mol_base.specs.Modifiers.{has};
ghost use Rattle.mol_resolve_rules.specs.ProgramViews.{kind_in, words_in};
ghost use Rattle.mol_table_rules.specs.Program.{owner_at, params_at, value_at};
ghost use Rattle.mol_values_types.specs.declared.cell.Slot.TheVariants as slots;

use mol_base::{Id, Text};
use mol_table::Table;
use mol_values_types::{Cell, Known, MethodKind, Param, Slot, Value};

/// The class in which a field or a declaration stands, which need not live. It takes no memory.
pub fn owner_of(table: &Table, id: &Id) -> Option<Id>
    ensures { result ≡ owner_at table.now id.now }
{
    let cell = Cell {
        id: *id,
        slot: Slot::Owner,
    };
    match table.get(&cell) {
        Some(Value::Owner(owner)) => Some(*owner),
        _ => None,
    }
}

/// The present parameters of a method; none where the identity is none of a method. It takes no memory.
pub fn params_of<'a>(table: &'a Table, method: &Id) -> &'a [Param]
    ensures { result.now ≡ params_at table.now method.now }
{
    let cell = Cell {
        id: *method,
        slot: Slot::Params,
    };
    match table.get(&cell) {
        Some(Value::Params(params)) => params.items(),
        _ => &[],
    }
}

/// Whether this is a constructor. It takes no memory.
pub fn is_constructor(table: &Table, method: &Id) -> bool
    ensures { result ≡ is_constructor (kind_in (map.get table.now.known method.now)) }
{
    match table.known(*method) {
        Some(Known::Method(MethodKind::Constructor)) => true,
        _ => false,
    }
}

/// Whether a field is static (JLS 8.3.1.1). It takes no memory.
pub fn is_static_field(table: &Table, field: &Id) -> bool
    ensures { result ≡ has (words_in (value_at table.now field.now slots.Words)) "static" }
{
    let cell = Cell {
        id: *field,
        slot: Slot::Words,
    };
    match table.get(&cell) {
        Some(Value::Words(words)) => stands_among(words.texts.items(), b"static"),
        _ => false,
    }
}

/// Whether a modifier stands among these.
fn stands_among(words: &[Text], word: &[u8]) -> bool
    ensures { result ≡ list_any (bytes_eq word.now) words.now }
{
    words.iter().any(|own| word == own.bytes())
}
