//! What stands at the keys of an object.
#![tactic(auto, unfolding(crate::specs::lines::Reader::and_then))]

ghost use Rattle.std.specs.Prelude.{◌≡◌, MatchResult};
ghost use Rattle.serde_json.specs.Find.{as_str, as_array};
ghost use Rattle.serde_json.specs.View.{view, items_view};
ghost use Rattle.mol_log_rows.specs.lines.Reader.{Gives, texts_in, texts_from, maybe_from};

use crate::lines::ObjectFault;
use mol_base::{List, Text};
use serde_json::Value;
use std::alloc::Global;

/// A text, which goes in whole.
pub fn text(value: Value) -> Result<Text, ObjectFault>
    ensures { Gives (as_str (view value)) result }
{
    match value {
        Value::String(text) => Ok(Text::from_string(text)),
        _ => Err(ObjectFault::WrongForm),
    }
}

/// The items of a list.
pub fn items(value: Value) -> Result<Vec<Value>, ObjectFault>
    ensures { MatchResult result (λ items. as_array (view value) ≡ Some (items_view items.items)) (λ _. as_array (view value) ≡ None) }
{
    match value {
        Value::Array(items) => Ok(items),
        _ => Err(ObjectFault::WrongForm),
    }
}

/// A list of texts, which go in whole.
pub fn texts(alloc: Global, value: Value) -> Result<List<Text>, ObjectFault>
    ensures { Gives (texts_from (view value)) result }
{
    texts_of(alloc, items(value)?)
}

/// A list of texts, or `null`.
pub fn maybe_texts(alloc: Global, value: Value) -> Result<Option<List<Text>>, ObjectFault>
    ensures { Gives (maybe_from (view value)) result }
{
    match value {
        Value::Null => Ok(None),
        Value::Array(items) => Ok(Some(texts_of(alloc, items)?)),
        _ => Err(ObjectFault::WrongForm),
    }
}

/// The texts that the items are.
fn texts_of(alloc: Global, items: Vec<Value>) -> Result<List<Text>, ObjectFault>
    ensures { Gives (texts_in (items_view items.items)) result }
{
    let mut texts = List::new(alloc);
    for item in items {
        texts.add(text(item)?)?;
    }
    Ok(texts)
}
