//! Values of cells, each by its slot and what follows it.
use crate::bodies::read_body;
use crate::exprs::{FieldValue, read_field_value};
use crate::fault::CaseFault;
use crate::line::Line;
use crate::params::read_params;
use crate::texts::{dotted_of, name_of, no_notes, no_words};
use crate::types::{read_parent, read_result};
use mol_base::{Boxed, Text};
use mol_values_types::{MethodKind, Slot, Value};
use std::alloc::Global;

/// The slot of this name.
pub fn slot_of(word: &str) -> Option<Slot> {
    match word {
        "live" => Some(Slot::Live),
        "package" => Some(Slot::Package),
        "owner" => Some(Slot::Owner),
        "method" => Some(Slot::Method),
        "name" => Some(Slot::Name),
        "super" => Some(Slot::Super),
        "result" => Some(Slot::Result),
        "params" => Some(Slot::Params),
        "kind" => Some(Slot::Kind),
        "fixed" => Some(Slot::Fixed),
        "words" => Some(Slot::Words),
        "notes" => Some(Slot::Notes),
        "body" => Some(Slot::Body),
        "value" => Some(Slot::Value),
        _ => None,
    }
}

/// The kind of a method.
fn read_kind(line: &mut Line<'_>) -> MethodKind {
    match line.word() {
        "instance" => MethodKind::Instance,
        "static" => MethodKind::Static,
        "constructor" => MethodKind::Constructor,
        _ => {
            line.spoil();
            MethodKind::Instance
        }
    }
}

/// The next package.
fn package_value(alloc: Global, line: &mut Line<'_>) -> Result<Value, CaseFault> {
    Ok(Value::Package(dotted_of(alloc, line.word())?))
}

/// The next name; `-` stands for the empty one.
fn name_value(alloc: Global, line: &mut Line<'_>) -> Result<Value, CaseFault> {
    match line.word() {
        "-" => Ok(Value::Name(Text::empty(alloc))),
        word => Ok(Value::Name(name_of(alloc, word)?)),
    }
}

/// The next result of a method.
fn result_value(alloc: Global, line: &mut Line<'_>) -> Result<Value, CaseFault> {
    Ok(Value::Result(read_result(alloc, line)?))
}

/// The next parameters.
fn params_value(alloc: Global, line: &mut Line<'_>) -> Result<Value, CaseFault> {
    Ok(Value::Params(read_params(alloc, line)?))
}

/// The next body of a declaration.
fn body_value(alloc: Global, line: &mut Line<'_>) -> Result<Value, CaseFault> {
    Ok(Value::Body(read_body(alloc, line)?))
}

/// The next type and first value of a field.
fn field_value(alloc: Global, line: &mut Line<'_>) -> Result<Value, CaseFault> {
    let FieldValue { ty, value } = read_field_value(alloc, line)?;
    Ok(Value::Value(ty, Boxed::new(alloc, value)?))
}

/// The value of a slot; there are no modifiers and no comments.
pub fn value_of(alloc: Global, line: &mut Line<'_>, slot: Slot) -> Result<Value, CaseFault> {
    match slot {
        Slot::Live => Ok(Value::Live(line.truth())),
        Slot::Package => package_value(alloc, line),
        Slot::Owner => Ok(Value::Owner(line.id())),
        Slot::Method => Ok(Value::Method(line.id())),
        Slot::Name => name_value(alloc, line),
        Slot::Super => Ok(Value::Super(read_parent(line))),
        Slot::Result => result_value(alloc, line),
        Slot::Params => params_value(alloc, line),
        Slot::Kind => Ok(Value::Kind(read_kind(line))),
        Slot::Fixed => Ok(Value::Fixed(line.truth())),
        Slot::Words => Ok(Value::Words(no_words(alloc))),
        Slot::Notes => Ok(Value::Notes(no_notes(alloc))),
        Slot::Body => body_value(alloc, line),
        Slot::Value => field_value(alloc, line),
    }
}
