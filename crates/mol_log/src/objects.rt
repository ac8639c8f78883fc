//! The object of an entry's line, with exactly the keys of its row.
ghost use Rattle.std.specs.Prelude.{◌≡◌, IfOk, OnOk};
ghost use Rattle.serde_json.specs.View.{view};
ghost use Rattle.mol_log.specs.entries.RowsOf.{row_of};
ghost use Rattle.mol_log_rows.specs.rows.RowData.{row_pairs};
ghost use Rattle.mol_log_objects.specs.Members.{members_in, put_pairs};
ghost use Rattle.mol_log.specs.Written.{entry_data};

use crate::entries::Entry;
use mol_base::OutOfMemory;
use mol_log_objects::Object;
use mol_op::{
    AddClass, AddConstructor, AddField, AddMethod, AddOverride, ChangeSignature, Delete, MoveClass,
    MoveMethod, Op, RenameClass, RenameMethod, SetBody, SetValue,
};
use serde_json::Value;
use std::alloc::Global;

/// The object of an entry.
pub fn entry_value(alloc: Global, entry: &Entry) -> Result<Value, OutOfMemory>
    ensures { IfOk result (λ value. view value ≡ entry_data entry.now) }
{
    let mut object = Object::new(alloc);
    let at = entry.stamp.write(alloc)?;
    object.text("at", at.as_str())?;
    put_operation(&mut object, &entry.op)?;
    Ok(object.into_value())
}

/// Puts the parts of an operation, each at its key.
fn put_operation(object: &mut Object, op: &Op) -> Result<(), OutOfMemory>
    ensures { OnOk result (members_in object.new ≡ put_pairs (row_pairs (row_of op.now)) (members_in object.old)) }
{
    match op {
        Op::AddClass(op) => put_add_class(object, op),
        Op::AddField(op) => put_add_field(object, op),
        Op::AddMethod(op) => put_add_method(object, op),
        Op::AddOverride(op) => put_add_override(object, op),
        Op::AddConstructor(op) => put_add_constructor(object, op),
        Op::Delete(op) => put_delete(object, op),
        Op::SetBody(op) => put_set_body(object, op),
        Op::SetValue(op) => put_set_value(object, op),
        Op::RenameClass(op) => put_rename_class(object, op),
        Op::RenameMethod(op) => put_rename_method(object, op),
        Op::MoveClass(op) => put_move_class(object, op),
        Op::MoveMethod(op) => put_move_method(object, op),
        Op::ChangeSignature(op) => put_change_signature(object, op),
    }
}

fn put_add_class(object: &mut Object, op: &AddClass) -> Result<(), OutOfMemory>
    ensures { OnOk result (members_in object.new ≡ put_pairs (row_pairs (row_of (Op.AddClass op.now))) (members_in object.old)) }
{
    object.id("class", &op.class)?;
    object.text("name", op.name.as_str())?;
    object.class_notes("notes", &op.notes)?;
    object.text("op", "add-class")?;
    object.text("package", op.package.as_str())?;
    object.superclass("super", &op.parent)?;
    object.texts("words", op.words.texts.items())
}

fn put_add_field(object: &mut Object, op: &AddField) -> Result<(), OutOfMemory>
    ensures { OnOk result (members_in object.new ≡ put_pairs (row_pairs (row_of (Op.AddField op.now))) (members_in object.old)) }
{
    object.id("field", &op.field)?;
    object.text("name", op.name.as_str())?;
    object.texts("notes", op.notes.front.items())?;
    object.text("op", "add-field")?;
    object.id("owner", &op.owner)?;
    object.ty("type", &op.ty)?;
    object.first_value("value", &op.value)?;
    object.texts("words", op.words.texts.items())
}

fn put_add_method(object: &mut Object, op: &AddMethod) -> Result<(), OutOfMemory>
    ensures { OnOk result (members_in object.new ≡ put_pairs (row_pairs (row_of (Op.AddMethod op.now))) (members_in object.old)) }
{
    object.body("body", &op.body)?;
    object.id("decl", &op.decl)?;
    object.kind("kind", op.kind)?;
    object.id("method", &op.method)?;
    object.text("name", op.name.as_str())?;
    object.texts("notes", op.notes.front.items())?;
    object.text("op", "add-method")?;
    object.id("owner", &op.owner)?;
    object.params("params", op.params.items())?;
    object.ty("result", &op.result)?;
    object.texts("words", op.words.texts.items())
}

fn put_add_override(object: &mut Object, op: &AddOverride) -> Result<(), OutOfMemory>
    ensures { OnOk result (members_in object.new ≡ put_pairs (row_pairs (row_of (Op.AddOverride op.now))) (members_in object.old)) }
{
    object.body("body", &op.body)?;
    object.id("decl", &op.decl)?;
    object.id("method", &op.method)?;
    object.texts("notes", op.notes.front.items())?;
    object.text("op", "add-override")?;
    object.id("owner", &op.owner)?;
    object.texts("words", op.words.texts.items())
}

fn put_add_constructor(object: &mut Object, op: &AddConstructor) -> Result<(), OutOfMemory>
    ensures { OnOk result (members_in object.new ≡ put_pairs (row_pairs (row_of (Op.AddConstructor op.now))) (members_in object.old)) }
{
    object.body("body", &op.body)?;
    object.id("decl", &op.decl)?;
    object.id("method", &op.method)?;
    object.texts("notes", op.notes.front.items())?;
    object.text("op", "add-constructor")?;
    object.id("owner", &op.owner)?;
    object.params("params", op.params.items())?;
    object.texts("words", op.words.texts.items())
}

fn put_delete(object: &mut Object, op: &Delete) -> Result<(), OutOfMemory>
    ensures { OnOk result (members_in object.new ≡ put_pairs (row_pairs (row_of (Op.Delete op.now))) (members_in object.old)) }
{
    object.id("id", &op.id)?;
    object.text("op", "delete")
}

fn put_set_body(object: &mut Object, op: &SetBody) -> Result<(), OutOfMemory>
    ensures { OnOk result (members_in object.new ≡ put_pairs (row_pairs (row_of (Op.SetBody op.now))) (members_in object.old)) }
{
    object.body("body", &op.body)?;
    object.id("decl", &op.decl)?;
    object.text("op", "set-body")
}

fn put_set_value(object: &mut Object, op: &SetValue) -> Result<(), OutOfMemory>
    ensures { OnOk result (members_in object.new ≡ put_pairs (row_pairs (row_of (Op.SetValue op.now))) (members_in object.old)) }
{
    object.id("field", &op.field)?;
    object.text("op", "set-value")?;
    object.ty("type", &op.ty)?;
    object.first_value("value", &op.value)
}

fn put_rename_class(object: &mut Object, op: &RenameClass) -> Result<(), OutOfMemory>
    ensures { OnOk result (members_in object.new ≡ put_pairs (row_pairs (row_of (Op.RenameClass op.now))) (members_in object.old)) }
{
    object.id("class", &op.class)?;
    object.text("name", op.name.as_str())?;
    object.text("op", "rename-class")
}

fn put_rename_method(object: &mut Object, op: &RenameMethod) -> Result<(), OutOfMemory>
    ensures { OnOk result (members_in object.new ≡ put_pairs (row_pairs (row_of (Op.RenameMethod op.now))) (members_in object.old)) }
{
    object.id("method", &op.method)?;
    object.text("name", op.name.as_str())?;
    object.text("op", "rename-method")
}

fn put_move_class(object: &mut Object, op: &MoveClass) -> Result<(), OutOfMemory>
    ensures { OnOk result (members_in object.new ≡ put_pairs (row_pairs (row_of (Op.MoveClass op.now))) (members_in object.old)) }
{
    object.id("class", &op.class)?;
    object.text("op", "move-class")?;
    object.text("package", op.package.as_str())
}

fn put_move_method(object: &mut Object, op: &MoveMethod) -> Result<(), OutOfMemory>
    ensures { OnOk result (members_in object.new ≡ put_pairs (row_pairs (row_of (Op.MoveMethod op.now))) (members_in object.old)) }
{
    object.id("decl", &op.decl)?;
    object.text("op", "move-method")?;
    object.id("owner", &op.owner)
}

fn put_change_signature(object: &mut Object, op: &ChangeSignature) -> Result<(), OutOfMemory>
    ensures { OnOk result (members_in object.new ≡ put_pairs (row_pairs (row_of (Op.ChangeSignature op.now))) (members_in object.old)) }
{
    object.id("method", &op.method)?;
    object.text("op", "change-signature")?;
    object.params("params", op.params.items())?;
    object.ty("result", &op.result)
}
