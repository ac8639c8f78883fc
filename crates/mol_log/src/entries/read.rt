//! Entries from rows.
ghost use Rattle.std.specs.Prelude.{◌≡◌, true};
ghost use Rattle.mol_base.specs.Spelled.{is_stamp};
ghost use Rattle.mol_log_rows.specs.rows.RowForms.{is_row};
ghost use Rattle.mol_log.specs.entries.Reading.{IsEntryRead, ReadsAs};
ghost use Rattle.mol_log.specs.entries.Spelling.{Spells};
ghost use Rattle.mol_log.specs.entries.Trees.{parts};

use crate::entries::Entry;
use crate::entries::additions::{add_class, add_constructor, add_field, add_method, add_override};
use crate::entries::changes::{
    change_signature, deletion, move_class, move_method, rename_class, rename_method, set_body,
    set_value,
};
use mol_log_rows::{Recorded, Row};
use mol_log_words::BadWord;
use mol_op::Op;
use std::alloc::Global;

/// The entry that a row spells (`docs/FORMATS.md`). The texts of the row move into it.
///
/// Refuses a row with a list of words that spells no tree within the limits: a type of at most 255 dimensions (JVMS 4.11), a
/// first value or a body at most 500 high. `BadWord::Bad` names the first bad word of the first such list, counted from 0, or how
/// many words the list has where they end early. Lists go in the order of the operation's parts, the types of parameters in
/// theirs.
pub fn read_entry(alloc: Global, recorded: Recorded) -> Result<Entry, BadWord>
    requires stamped { is_stamp recorded.stamp ≡ true }
    requires formed { is_row recorded.row ≡ true }
    ensures { IsEntryRead recorded result }
{
    let Recorded { stamp, row } = recorded;
    let op = read_op(alloc, row)?;
    Ok(Entry { stamp, op })
}

/// The operation that a row spells.
fn read_op(alloc: Global, row: Row) -> Result<Op, BadWord>
    requires { is_row row ≡ true }
    ensures { ReadsAs (λ op. Spells row op) (parts row) result }
{
    match row {
        Row::AddClass(row) => add_class(alloc, row),
        Row::AddField(row) => add_field(alloc, row),
        Row::AddMethod(row) => add_method(alloc, row),
        Row::AddOverride(row) => add_override(alloc, row),
        Row::AddConstructor(row) => add_constructor(alloc, row),
        Row::Delete(row) => Ok(deletion(row)),
        Row::SetBody(row) => set_body(alloc, row),
        Row::SetValue(row) => set_value(alloc, row),
        Row::RenameClass(row) => Ok(rename_class(row)),
        Row::RenameMethod(row) => Ok(rename_method(row)),
        Row::MoveClass(row) => Ok(move_class(row)),
        Row::MoveMethod(row) => Ok(move_method(row)),
        Row::ChangeSignature(row) => change_signature(alloc, row),
    }
}
