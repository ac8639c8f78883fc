//! What stands at the keys of a row.
#![tactic(auto, unfolding(crate::specs::lines::Reader::and_then))]

ghost use Rattle.std.specs.Prelude.{◌≡◌, ◌≢◌, Some, codes, option_map};
ghost use Rattle.serde_json.specs.View.{view, items_view};
ghost use Rattle.mol_log_rows.specs.lines.Reader.{Gives, Reads, kept, members_left, object_from, part};
ghost use Rattle.mol_values_types.specs.TokenForms.{are_comments as are_comments_of};
ghost use Rattle.mol_values_types.specs.Words.{are_words as are_words_of};
ghost use Rattle.mol_log_rows.specs.rows.RowForms.{words_before};
ghost use Rattle.mol_log_rows.specs.rows.RowReader as reader;

use crate::lines::{Members, ObjectFault, items};
use crate::rows::ParamRow;
use crate::rows::forms::{are_comments, are_words, is_filler};
use mol_base::{List, MAX_ITEMS, Modified, Text};
use mol_values_types::{MethodKind, Notes, Words, is_dotted, is_name};
use serde_json::Value;
use std::alloc::Global;

/// An identifier.
pub fn name(members: &mut Members, key: &str) -> Result<Text, ObjectFault>
    ensures { Reads (part key.now reader.name_from (members_left members.old)) result (members_left members.new) }
{
    let text = members.text(key)?;
    if is_name(text.bytes()) {
        Ok(text)
    } else {
        Err(ObjectFault::WrongForm)
    }
}

/// Identifiers joined by dots.
pub fn dotted(members: &mut Members, key: &str) -> Result<Text, ObjectFault>
    ensures { Reads (part key.now reader.dotted_from (members_left members.old)) result (members_left members.new) }
{
    let text = members.text(key)?;
    if is_dotted(text.bytes()) {
        Ok(text)
    } else {
        Err(ObjectFault::WrongForm)
    }
}

/// A literal, or `-` and a number.
fn filler(members: &mut Members, key: &str) -> Result<Text, ObjectFault>
    ensures { Reads (part key.now reader.filler_from (members_left members.old)) result (members_left members.new) }
{
    let text = members.text(key)?;
    if is_filler(text.bytes()) {
        Ok(text)
    } else {
        Err(ObjectFault::WrongForm)
    }
}

/// An instance or a static method.
pub fn kind(members: &mut Members) -> Result<MethodKind, ObjectFault>
    ensures { Reads (part (codes "kind") reader.kind_from (members_left members.old)) result (members_left members.new) }
{
    let text = members.text("kind")?;
    match text.as_str() {
        "instance" => Ok(MethodKind::Instance),
        "static" => Ok(MethodKind::Static),
        _ => Err(ObjectFault::WrongForm),
    }
}

/// Modifiers that may stand before this, in the order in which they are printed.
pub fn words(alloc: Global, members: &mut Members, of: Modified) -> Result<Words, ObjectFault>
    requires { of ≢ Modified.AbstractMethod }
    ensures { Reads (part (codes "words") (reader.words_from (words_before of)) (members_left members.old))
        result (members_left members.new) }
{
    let texts = members.texts(alloc, "words")?;
    if are_words(of, texts.items()) {
        Ok(Words { texts })
    } else {
        Err(ObjectFault::WrongForm)
    }
}

/// The comments of a member.
pub fn notes(alloc: Global, members: &mut Members) -> Result<Notes, ObjectFault>
    ensures { Reads (part (codes "notes") reader.member_notes_from (members_left members.old)) result (members_left members.new) }
{
    Ok(Notes {
        front: comments(alloc, members, "notes")?,
        head: List::new(alloc),
        tail: List::new(alloc),
    })
}

/// The comments of a class.
pub fn class_notes(alloc: Global, members: &mut Members) -> Result<Notes, ObjectFault>
    ensures { Reads (part (codes "notes") reader.class_notes_from (members_left members.old)) result (members_left members.new) }
{
    let value = members.part("notes")?;
    notes_of_class(alloc, value)
}

/// The object with the comments before a class, and at the head and the tail of its braces.
fn notes_of_class(alloc: Global, value: Value) -> Result<Notes, ObjectFault>
    ensures { Gives (reader.class_notes_from (view value)) result }
{
    let mut members = Members::of(value)?;
    let front = comments(alloc, &mut members, "front")?;
    let head = comments(alloc, &mut members, "head")?;
    let tail = comments(alloc, &mut members, "tail")?;
    members.end()?;
    Ok(Notes { front, head, tail })
}

/// A list of comments.
fn comments(alloc: Global, members: &mut Members, key: &str) -> Result<List<Text>, ObjectFault>
    ensures { Reads (part key.now reader.comments_from (members_left members.old)) result (members_left members.new) }
{
    let texts = members.texts(alloc, key)?;
    if are_comments(texts.items()) {
        Ok(texts)
    } else {
        Err(ObjectFault::WrongForm)
    }
}

/// At most 255 parameters.
pub fn params(alloc: Global, members: &mut Members) -> Result<List<ParamRow>, ObjectFault>
    ensures { Reads (part (codes "params") reader.params_from (members_left members.old)) result (members_left members.new) }
{
    let value = members.part("params")?;
    listed_params(alloc, value)
}

/// The list of parameters, at most 255.
fn listed_params(alloc: Global, value: Value) -> Result<List<ParamRow>, ObjectFault>
    ensures { Gives (reader.params_from (view value)) result }
{
    let items = items(value)?;
    let params = params_of(alloc, items)?;
    if params.items().len() <= MAX_ITEMS {
        Ok(params)
    } else {
        Err(ObjectFault::WrongForm)
    }
}

/// The parameters that the items are the objects of.
fn params_of(alloc: Global, items: Vec<Value>) -> Result<List<ParamRow>, ObjectFault>
    ensures { Gives (reader.params_in (items_view items.items)) result }
{
    let mut params = List::new(alloc);
    for item in items {
        params.add(param(alloc, item)?)?;
    }
    Ok(params)
}

/// The object of a parameter.
fn param(alloc: Global, value: Value) -> Result<ParamRow, ObjectFault>
    ensures { Gives (object_from reader.param (view value)) result }
{
    let mut members = Members::of(value)?;
    let filler = filler(&mut members, "filler")?;
    let id = members.id("id")?;
    let name = name(&mut members, "name")?;
    let ty = members.texts(alloc, "type")?;
    members.end()?;
    Ok(ParamRow {
        id,
        name,
        ty,
        filler,
    })
}
