//! A row from the object of its line.
#![tactic(auto, unfolding(crate::specs::lines::Reader::and_then))]

ghost use Rattle.std.specs.Prelude.{◌≡◌, codes, IfOk, IfErr};
ghost use Rattle.serde_json.specs.View.{view};
ghost use Rattle.mol_base.specs.declared.ident.Stamp.{Stamp as Stamped};
ghost use Rattle.mol_log_rows.specs.rows.RowReader as reader;
ghost use Rattle.mol_log_rows.specs.lines.Reader.{Gives, Reads, members_left, object_from};
ghost use Rattle.mol_log_rows.specs.rows.RowData.{IsRow};
ghost use Rattle.mol_log_rows.specs.declared.rows.row.Row.{Row as AnyRow};

use crate::lines::{Members, ObjectFault};
use crate::rows::parts::{class_notes, dotted, kind, name, notes, params, words};
use crate::rows::row::{
    AddClassRow, AddConstructorRow, AddFieldRow, AddMethodRow, AddOverrideRow, ChangeSignatureRow,
    DeleteRow, MoveClassRow, MoveMethodRow, ParamRow, Recorded, RenameClassRow, RenameMethodRow,
    Row, SetBodyRow, SetValueRow,
};
use mol_base::{Modified, Text};
use serde_json::Value;
use std::alloc::Global;

/// The stamp and the row of an entry's line. Texts go in whole.
///
/// Refuses what is no object of a stamp and an operation with exactly the keys of its row, each with a value
/// of its form.
pub fn read_row(alloc: Global, value: Value) -> Result<Recorded, ObjectFault>
    ensures is { IfOk result (λ found. IsRow (view value) found.stamp found.row) }
    ensures none { IfErr result (λ fault. fault ≡ ObjectFault.WrongForm
        → (stamp : Stamped) (row : AnyRow) → IsRow (view value) stamp row → ⊥) }
{
    recorded(alloc, value)
}

/// The stamp and the row.
fn recorded(alloc: Global, value: Value) -> Result<Recorded, ObjectFault>
    ensures { Gives (reader.recorded_from (view value)) result }
{
    let name = op_name(alloc, &value)?;
    recorded_as(alloc, &name, value)
}

/// The stamp and the row of an operation of this name, member after member.
fn recorded_as(alloc: Global, name: &Text, value: Value) -> Result<Recorded, ObjectFault>
    ensures { Gives (object_from (reader.recorded name.now) (view value)) result }
{
    let mut members = Members::of(value)?;
    let stamp = members.stamp("at")?;
    let row = row_named(alloc, name, &mut members)?;
    members.end()?;
    Ok(Recorded { stamp, row })
}

/// The name of the operation.
fn op_name(alloc: Global, value: &Value) -> Result<Text, ObjectFault>
    ensures { Gives (reader.op_name (view value.now)) result }
{
    match value.get("op") {
        Some(Value::String(name)) => Ok(Text::from_str(alloc, name.as_str())?),
        _ => Err(ObjectFault::WrongForm),
    }
}

fn row_named(alloc: Global, name: &Text, members: &mut Members) -> Result<Row, ObjectFault>
    ensures { Reads (reader.row_named name.now (members_left members.old)) result (members_left members.new) }
{
    match name.as_str() {
        "add-class" => add_class(alloc, members),
        "add-field" => add_field(alloc, members),
        "add-method" => add_method(alloc, members),
        "add-override" => add_override(alloc, members),
        "add-constructor" => add_constructor(alloc, members),
        "delete" => delete(members),
        "set-body" => set_body(alloc, members),
        "set-value" => set_value(alloc, members),
        "rename-class" => rename_class(members),
        "rename-method" => rename_method(members),
        "move-class" => move_class(members),
        "move-method" => move_method(members),
        "change-signature" => change_signature(alloc, members),
        _ => Err(ObjectFault::WrongForm),
    }
}

fn add_class(alloc: Global, members: &mut Members) -> Result<Row, ObjectFault>
    ensures { Reads (reader.add_class (members_left members.old)) result (members_left members.new) }
{
    let class = members.id("class")?;
    let name = name(members, "name")?;
    let notes = class_notes(alloc, members)?;
    members.same_text("op", "add-class")?;
    let package = dotted(members, "package")?;
    let parent = members.maybe_texts(alloc, "super")?;
    let words = words(alloc, members, Modified::Class)?;
    Ok(Row::AddClass(AddClassRow {
        class,
        package,
        name,
        parent,
        words,
        notes,
    }))
}

fn add_field(alloc: Global, members: &mut Members) -> Result<Row, ObjectFault>
    ensures { Reads (reader.add_field (members_left members.old)) result (members_left members.new) }
{
    let field = members.id("field")?;
    let name = name(members, "name")?;
    let notes = notes(alloc, members)?;
    members.same_text("op", "add-field")?;
    let owner = members.id("owner")?;
    let ty = members.texts(alloc, "type")?;
    let value = members.maybe_texts(alloc, "value")?;
    let words = words(alloc, members, Modified::Field)?;
    Ok(Row::AddField(AddFieldRow {
        field,
        owner,
        name,
        words,
        notes,
        ty,
        value,
    }))
}

fn add_method(alloc: Global, members: &mut Members) -> Result<Row, ObjectFault>
    ensures { Reads (reader.add_method (members_left members.old)) result (members_left members.new) }
{
    let body = members.maybe_texts(alloc, "body")?;
    let decl = members.id("decl")?;
    let kind = kind(members)?;
    let method = members.id("method")?;
    let name = name(members, "name")?;
    let notes = notes(alloc, members)?;
    members.same_text("op", "add-method")?;
    let owner = members.id("owner")?;
    let params = params(alloc, members)?;
    let result = members.texts(alloc, "result")?;
    let words = words(alloc, members, Modified::KeptMethod)?;
    Ok(Row::AddMethod(AddMethodRow {
        method,
        decl,
        owner,
        name,
        kind,
        result,
        params,
        words,
        notes,
        body,
    }))
}

fn add_override(alloc: Global, members: &mut Members) -> Result<Row, ObjectFault>
    ensures { Reads (reader.add_override (members_left members.old)) result (members_left members.new) }
{
    let body = members.maybe_texts(alloc, "body")?;
    let decl = members.id("decl")?;
    let method = members.id("method")?;
    let notes = notes(alloc, members)?;
    members.same_text("op", "add-override")?;
    let owner = members.id("owner")?;
    let words = words(alloc, members, Modified::KeptMethod)?;
    Ok(Row::AddOverride(AddOverrideRow {
        decl,
        method,
        owner,
        words,
        notes,
        body,
    }))
}

fn add_constructor(alloc: Global, members: &mut Members) -> Result<Row, ObjectFault>
    ensures { Reads (reader.add_constructor (members_left members.old)) result (members_left members.new) }
{
    let body = members.maybe_texts(alloc, "body")?;
    let decl = members.id("decl")?;
    let method = members.id("method")?;
    let notes = notes(alloc, members)?;
    members.same_text("op", "add-constructor")?;
    let owner = members.id("owner")?;
    let params = params(alloc, members)?;
    let words = words(alloc, members, Modified::Constructor)?;
    Ok(Row::AddConstructor(AddConstructorRow {
        method,
        decl,
        owner,
        params,
        words,
        notes,
        body,
    }))
}

fn delete(members: &mut Members) -> Result<Row, ObjectFault>
    ensures { Reads (reader.delete (members_left members.old)) result (members_left members.new) }
{
    let id = members.id("id")?;
    members.same_text("op", "delete")?;
    Ok(Row::Delete(DeleteRow { id }))
}

fn set_body(alloc: Global, members: &mut Members) -> Result<Row, ObjectFault>
    ensures { Reads (reader.set_body (members_left members.old)) result (members_left members.new) }
{
    let body = members.maybe_texts(alloc, "body")?;
    let decl = members.id("decl")?;
    members.same_text("op", "set-body")?;
    Ok(Row::SetBody(SetBodyRow { decl, body }))
}

fn set_value(alloc: Global, members: &mut Members) -> Result<Row, ObjectFault>
    ensures { Reads (reader.set_value (members_left members.old)) result (members_left members.new) }
{
    let field = members.id("field")?;
    members.same_text("op", "set-value")?;
    let ty = members.texts(alloc, "type")?;
    let value = members.maybe_texts(alloc, "value")?;
    Ok(Row::SetValue(SetValueRow { field, ty, value }))
}

fn rename_class(members: &mut Members) -> Result<Row, ObjectFault>
    ensures { Reads (reader.rename_class (members_left members.old)) result (members_left members.new) }
{
    let class = members.id("class")?;
    let name = name(members, "name")?;
    members.same_text("op", "rename-class")?;
    Ok(Row::RenameClass(RenameClassRow { class, name }))
}

fn rename_method(members: &mut Members) -> Result<Row, ObjectFault>
    ensures { Reads (reader.rename_method (members_left members.old)) result (members_left members.new) }
{
    let method = members.id("method")?;
    let name = name(members, "name")?;
    members.same_text("op", "rename-method")?;
    Ok(Row::RenameMethod(RenameMethodRow { method, name }))
}

fn move_class(members: &mut Members) -> Result<Row, ObjectFault>
    ensures { Reads (reader.move_class (members_left members.old)) result (members_left members.new) }
{
    let class = members.id("class")?;
    members.same_text("op", "move-class")?;
    let package = dotted(members, "package")?;
    Ok(Row::MoveClass(MoveClassRow { class, package }))
}

fn move_method(members: &mut Members) -> Result<Row, ObjectFault>
    ensures { Reads (reader.move_method (members_left members.old)) result (members_left members.new) }
{
    let decl = members.id("decl")?;
    members.same_text("op", "move-method")?;
    let owner = members.id("owner")?;
    Ok(Row::MoveMethod(MoveMethodRow { decl, owner }))
}

fn change_signature(alloc: Global, members: &mut Members) -> Result<Row, ObjectFault>
    ensures { Reads (reader.change_signature (members_left members.old)) result (members_left members.new) }
{
    let method = members.id("method")?;
    members.same_text("op", "change-signature")?;
    let params = params(alloc, members)?;
    let result = members.texts(alloc, "result")?;
    Ok(Row::ChangeSignature(ChangeSignatureRow {
        method,
        result,
        params,
    }))
}
