//! All that cells refer to and is gone.
ghost use Rattle.std.specs.Prelude.{◌≡◌, ◌++◌, IfOk, OnOk, map};
ghost use Rattle.mol_faults_mentions.specs.mentions.Kept.{kept_mention};
ghost use Rattle.mol_faults_values.specs.missing_faults.Gone.{gone_among, gone_at, gone_by, gone_in_all, gone_in_slots, referring_slots};
ghost use Rattle.mol_table_rules.specs.Mentions.{mentions};

use crate::missing_faults::gone::Gone;
use crate::missing_faults::present::{is_there, living_entity};
use mol_base::{Id, OutOfMemory};
use mol_faults_mentions::{Mention, mentions_of};
use mol_table::Table;
use mol_values_types::{Cell, Known, Slot, Value};
use std::alloc::Global;

/// What the cells of the entities among these identities that live refer to and is gone. A cell is looked up only where its value may
/// refer to something.
pub(crate) fn gone_in_all(
    alloc: Global,
    table: &Table,
    tidied: &Table,
    ids: &[Id],
) -> Result<Vec<Gone>, OutOfMemory>
    ensures { IfOk result (λ gone. gone.items ≡ gone_in_all table.now tidied.now ids.now) }
{
    let mut gone = Vec::new(alloc);
    for id in ids {
        let slots = referring_slots(living_entity(table, id));
        add_slots(alloc, &mut gone, table, tidied, id, slots)?;
    }
    Ok(gone)
}

/// The slots whose values may refer to something, of what is known so: none of a parameter, which has no cells. It takes no memory.
fn referring_slots(known: Option<Known>) -> &'static [Slot]
    ensures { result.now ≡ referring_slots known }
{
    match known {
        Some(Known::Class) => &[Slot::Super],
        Some(Known::Method(_)) => &[Slot::Result, Slot::Params],
        Some(Known::Decl(_)) => &[Slot::Owner, Slot::Method, Slot::Body],
        Some(Known::Field) => &[Slot::Owner, Slot::Value],
        Some(Known::Param(_)) | None => &[],
    }
}

/// Adds what the cells of an identity in these slots refer to and is gone.
fn add_slots(
    alloc: Global,
    gone: &mut Vec<Gone>,
    table: &Table,
    tidied: &Table,
    id: &Id,
    slots: &[Slot],
) -> Result<(), OutOfMemory>
    ensures { OnOk result (gone.new.items ≡ gone.old.items ++ gone_in_slots table.now tidied.now id.now slots.now) }
{
    for slot in slots {
        let at = Cell {
            id: *id,
            slot: *slot,
        };
        add_cell(alloc, gone, table, tidied, &at)?;
    }
    Ok(())
}

/// Adds what a cell refers to and is gone.
fn add_cell(
    alloc: Global,
    gone: &mut Vec<Gone>,
    table: &Table,
    tidied: &Table,
    at: &Cell,
) -> Result<(), OutOfMemory>
    ensures { OnOk result (gone.new.items ≡ gone.old.items ++ gone_at table.now tidied.now at.now) }
{
    match tidied.get(at) {
        Some(value) => add_value(alloc, gone, table, at, value),
        None => Ok(()),
    }
}

/// Adds what a value mentions in a cell and is gone.
fn add_value(
    alloc: Global,
    gone: &mut Vec<Gone>,
    table: &Table,
    at: &Cell,
    value: &Value,
) -> Result<(), OutOfMemory>
    ensures { OnOk result (gone.new.items ≡ gone.old.items ++ gone_among table.now at.now (mentions value.now)) }
{
    let mentions = mentions_of(alloc, value)?;
    add_mentions(gone, table, at, mentions.items())
}

/// Adds which of these mentions in a cell are gone.
fn add_mentions(
    gone: &mut Vec<Gone>,
    table: &Table,
    at: &Cell,
    mentions: &[Mention],
) -> Result<(), OutOfMemory>
    ensures { OnOk result (gone.new.items ≡ gone.old.items ++ gone_among table.now at.now (map kept_mention mentions.now)) }
{
    for mention in mentions {
        add_mention(gone, table, at, mention)?;
    }
    Ok(())
}

/// Adds what is mentioned in a cell, where it is gone.
fn add_mention(
    gone: &mut Vec<Gone>,
    table: &Table,
    at: &Cell,
    mention: &Mention,
) -> Result<(), OutOfMemory>
    ensures { OnOk result (gone.new.items ≡ gone.old.items ++ gone_by table.now at.now (kept_mention mention.now)) }
{
    if is_there(table, &at.id, mention) {
        return Ok(());
    }
    gone.push(Gone {
        at: *at,
        target: mention.id,
    })?;
    Ok(())
}
