//! The steps that a line may ask for.
use crate::answers::{ids_text, kind_text, maybe_id, name_text, said, truth};
use crate::cells::{copied_text, renamed_text};
use crate::changes::change;
use crate::classes::{numbered_classes, recorded_classes};
use crate::fault::CaseFault;
use crate::shop::shop;
use mol_base::Id;
use mol_table::Table;
use mol_table_numbers::same;
use std::alloc::Global;

/// The table that the steps go through, and the copy that was kept of it.
#[derive(Drop)]
pub struct Tables {
    table: Table,
    kept: Table,
}

impl Tables {
    /// Two tables that know nothing.
    pub fn new(alloc: Global) -> Tables {
        Tables {
            table: Table::new(alloc),
            kept: Table::new(alloc),
        }
    }
}

/// The identity that a word spells.
fn id_of(word: &str) -> Result<Id, CaseFault> {
    Id::parse(word.as_bytes()).ok_or(CaseFault::Unread)
}

/// What a look at an identity answers.
fn look_at(alloc: Global, table: &Table, step: &str, id: Id) -> Result<String, CaseFault> {
    match step {
        "kind" => kind_text(alloc, table.kind(id)),
        "method-of" => maybe_id(alloc, table.method_of_param(id)),
        "lives" => truth(alloc, table.lives(id)),
        "name" => name_text(alloc, table, id),
        _ => Err(CaseFault::Unread),
    }
}

/// What a look at the table answers.
fn look(alloc: Global, tables: &Tables, step: &str, words: &str) -> Result<String, CaseFault> {
    match step {
        "same" => truth(alloc, same(&tables.table, &tables.kept)),
        "ids" => ids_text(alloc, tables.table.ids()),
        "copied" => copied_text(alloc, &tables.table),
        "renamed" => {
            let (first, second) = words.split_once(' ').unwrap_or((words, ""));
            renamed_text(alloc, &tables.table, id_of(first)?, id_of(second)?)
        }
        _ => look_at(alloc, &tables.table, step, id_of(words)?),
    }
}

/// A table that is made anew, or the tidied one.
fn made(alloc: Global, table: &Table, step: &str) -> Result<Table, CaseFault> {
    match step {
        "shop" => shop(alloc),
        "classes" => Ok(recorded_classes(alloc)?),
        "numbered" => Ok(numbered_classes(alloc)?),
        _ => Ok(table.tidy(alloc)?),
    }
}

/// The answer to a line.
pub fn answer_of(alloc: Global, tables: &mut Tables, line: &str) -> Result<String, CaseFault> {
    let (step, words) = line.split_once(' ').unwrap_or((line, ""));
    match step {
        "shop" | "classes" | "numbered" | "tidy" => {
            tables.table = made(alloc, &tables.table, step)?;
        }
        "keep" => tables.kept = tables.table.copy(alloc)?,
        "delete" | "rename" | "unlist" => {
            let (first, name) = words.split_once(' ').unwrap_or((words, ""));
            change(alloc, &mut tables.table, step, id_of(first)?, name)?;
        }
        _ => return look(alloc, tables, step, words),
    }
    said(alloc, "done")
}
