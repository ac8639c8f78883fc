//! What is printed of an answer.
use crate::fault::CaseFault;
use mol_base::Id;
use mol_table::Table;
use mol_values_types::{Cell, Kind, Slot, Value};
use std::alloc::Global;

/// These words.
pub fn said(alloc: Global, words: &str) -> Result<String, CaseFault> {
    Ok(String::from_str(alloc, words)?)
}

/// `yes` or `no`.
pub fn truth(alloc: Global, holds: bool) -> Result<String, CaseFault> {
    said(alloc, if holds { "yes" } else { "no" })
}

/// An identity as it is spelled, or `none`.
pub fn maybe_id(alloc: Global, id: Option<Id>) -> Result<String, CaseFault> {
    match id {
        Some(id) => Ok(format!(in alloc; "{}:{}", id.tag.as_str(), id.num)?),
        None => said(alloc, "none"),
    }
}

/// Identities as they are spelled, with a space after each but the last, or `none`.
pub fn ids_text(alloc: Global, ids: &[Id]) -> Result<String, CaseFault> {
    if ids.is_empty() {
        return said(alloc, "none");
    }
    let mut text = String::new(alloc);
    for id in ids {
        if !text.is_empty() {
            text.push(' ')?;
        }
        let spelled = id.write(alloc)?;
        text.push_str(spelled.as_str())?;
    }
    Ok(text)
}

/// What an identity names.
pub fn kind_text(alloc: Global, kind: Option<Kind>) -> Result<String, CaseFault> {
    let word = match kind {
        None => "unknown",
        Some(Kind::Class) => "class",
        Some(Kind::Method) => "method",
        Some(Kind::Decl) => "declaration",
        Some(Kind::Field) => "field",
        Some(Kind::Param) => "parameter",
    };
    said(alloc, word)
}

/// The name of an entity, as its cell has it.
pub fn name_text(alloc: Global, table: &Table, id: Id) -> Result<String, CaseFault> {
    let cell = Cell {
        id,
        slot: Slot::Name,
    };
    match table.get(&cell) {
        Some(Value::Name(name)) if name.bytes().is_empty() => said(alloc, "empty"),
        Some(Value::Name(name)) => said(alloc, name.as_str()),
        Some(_) => said(alloc, "no name"),
        None => said(alloc, "no such cell"),
    }
}
