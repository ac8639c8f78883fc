//! Comments and modifiers, as cells of a table hold them.
ghost use Rattle.std.specs.Prelude.{◌≡◌, option_copied};
ghost use Rattle.mol_spell_rules.specs.SpelledUnits.{notes_at, words_at};
ghost use Rattle.mol_spell.specs.units.Headings.{notes_or_none};

use mol_base::{Id, Text};
use mol_table::Table;
use mol_values_types::{Cell, Notes, Slot, Value};

/// The modifiers of an entity; none where it has no such cell.
pub(crate) fn words_of<'a>(table: &'a Table, id: &Id) -> &'a [Text]
    ensures { result.now ≡ words_at table.now id.now }
{
    let cell = Cell {
        id: *id,
        slot: Slot::Words,
    };
    match table.get(&cell) {
        Some(Value::Words(words)) => words.texts.items(),
        _ => &[],
    }
}

/// The comments before an entity.
pub(crate) fn front_of<'a>(table: &'a Table, id: &Id) -> &'a [Text]
    ensures { result.now ≡ (notes_at table.now id.now).front }
{
    match notes_of(table, id) {
        Some(notes) => notes.front.items(),
        None => &[],
    }
}

/// The comments at the head of the file of a class.
pub(crate) fn head_of<'a>(table: &'a Table, id: &Id) -> &'a [Text]
    ensures { result.now ≡ (notes_at table.now id.now).head }
{
    match notes_of(table, id) {
        Some(notes) => notes.head.items(),
        None => &[],
    }
}

/// The comments before the last brace of a class and after it.
pub(crate) fn tail_of<'a>(table: &'a Table, id: &Id) -> &'a [Text]
    ensures { result.now ≡ (notes_at table.now id.now).tail }
{
    match notes_of(table, id) {
        Some(notes) => notes.tail.items(),
        None => &[],
    }
}

/// The comments of an entity, if it has such a cell.
fn notes_of<'a>(table: &'a Table, id: &Id) -> Option<&'a Notes>
    ensures { notes_or_none (option_copied result) ≡ notes_at table.now id.now }
{
    let cell = Cell {
        id: *id,
        slot: Slot::Notes,
    };
    match table.get(&cell) {
        Some(Value::Notes(notes)) => Some(notes),
        _ => None,
    }
}
