//! Where operations of each kind write.
ghost use Rattle.std.specs.Prelude.{◌≡◌, ◌++◌};
ghost use Rattle.mol_log_writers.specs.Cells.{cells_in, slot_cells, written_cells};
ghost use Rattle.mol_values_types.specs.Slots.{slots_of};
ghost use Rattle.mol_values_types.specs.declared.kind.Kind.TheVariants as kinds;

use mol_base::Id;
use mol_op::Op;
use mol_values_types::Slot;

/// An entity, the slots of it that are written, and the declaration that is added with it, if one is.
#[derive(Clone, Copy)]
pub(crate) struct Written {
    pub id: Id,
    pub slots: &'static [Slot],
    pub decl: Option<Id>,
}

/// Where an operation writes. It takes no memory.
pub(crate) fn written_by(op: &Op) -> Written
    ensures { cells_in result ≡ written_cells op.now }
{
    match op {
        Op::AddClass(op) => alone(&op.class, class_slots()),
        Op::AddField(op) => alone(&op.field, field_slots()),
        Op::AddMethod(op) => with_decl(&op.method, &op.decl),
        Op::AddOverride(op) => alone(&op.decl, decl_slots()),
        Op::AddConstructor(op) => with_decl(&op.method, &op.decl),
        Op::Delete(op) => alone(&op.id, &[Slot::Live]),
        Op::SetBody(op) => alone(&op.decl, &[Slot::Body]),
        Op::SetValue(op) => alone(&op.field, &[Slot::Value]),
        Op::RenameClass(op) => alone(&op.class, &[Slot::Name]),
        Op::RenameMethod(op) => alone(&op.method, &[Slot::Name]),
        Op::MoveClass(op) => alone(&op.class, &[Slot::Package]),
        Op::MoveMethod(op) => alone(&op.decl, &[Slot::Owner]),
        Op::ChangeSignature(op) => alone(&op.method, &[Slot::Result, Slot::Params]),
    }
}

/// An entity alone.
fn alone(id: &Id, slots: &'static [Slot]) -> Written
    ensures { cells_in result ≡ slot_cells id.now slots.now }
{
    Written {
        id: *id,
        slots,
        decl: None,
    }
}

/// A method with a declaration.
fn with_decl(method: &Id, decl: &Id) -> Written
    ensures { cells_in result ≡ slot_cells method.now (slots_of kinds.Method) ++ slot_cells decl.now (slots_of kinds.Decl) }
{
    Written {
        id: *method,
        slots: method_slots(),
        decl: Some(*decl),
    }
}

/// All slots of a class.
fn class_slots() -> &'static [Slot]
    ensures { result.now ≡ slots_of kinds.Class }
{
    &[
        Slot::Live,
        Slot::Package,
        Slot::Name,
        Slot::Super,
        Slot::Words,
        Slot::Notes,
    ]
}

/// All slots of a method.
fn method_slots() -> &'static [Slot]
    ensures { result.now ≡ slots_of kinds.Method }
{
    &[
        Slot::Name,
        Slot::Result,
        Slot::Params,
        Slot::Kind,
        Slot::Fixed,
    ]
}

/// All slots of a declaration.
pub(crate) fn decl_slots() -> &'static [Slot]
    ensures { result.now ≡ slots_of kinds.Decl }
{
    &[
        Slot::Live,
        Slot::Owner,
        Slot::Method,
        Slot::Words,
        Slot::Notes,
        Slot::Body,
    ]
}

/// All slots of a field.
fn field_slots() -> &'static [Slot]
    ensures { result.now ≡ slots_of kinds.Field }
{
    &[
        Slot::Live,
        Slot::Owner,
        Slot::Name,
        Slot::Words,
        Slot::Notes,
        Slot::Value,
    ]
}
