//! Fields (JLS 8.3).
ghost use Rattle.std.specs.Prelude.{◌≡◌, IfOk, IsOkAnd};
ghost use Rattle.mol_spell_rules.specs.SimpleNames.{unit_writer};
ghost use Rattle.mol_spell_rules.specs.SpelledUnits.{field_member};
ghost use Rattle.mol_table_rules.specs.Program.{cell, value_at};
ghost use Rattle.mol_spell.specs.units.MemberTrees.{field_of, field_tree, field_value};
ghost use Rattle.mol_values_types.specs.declared.cell.Slot.TheVariants as slots;

use crate::units::heads::MemberHead;
use crate::units::trees::{first_value, type_tree};
use crate::units::unit_writer::UnitWriter;
use jav_tree::{Expr, Field, Member, TypeName};
use mol_base::{Id, OutOfMemory, Text};
use mol_scope_classes::name_of;
use mol_spell_names::FileNames;
use mol_spell_places::Places;
use mol_values_types::{IExpr, IType, Slot, Value};
use std::alloc::Global;

/// The type of a field, and its first value.
#[derive(Drop)]
pub(crate) struct FieldValue {
    pub ty: TypeName,
    pub init: Option<Expr>,
}

impl<F: FileNames> UnitWriter<'_, F> {
    /// A field as a member, if it has a type.
    pub(crate) fn field(&self, id: &Id) -> Result<Option<Member>, OutOfMemory>
        ensures { let program = self.now.index.now in
            IfOk result (λ member. member ≡ field_member program self.now.class id.now (value_at program id.now slots.Value)) }
    {
        match self.value(id, Slot::Value) {
            Some(Value::Value(ty, init)) => {
                let field = self.field_tree(id, ty, init.get())?;
                Ok(Some(Member::Field(field)))
            },
            _ => Ok(None),
        }
    }

    /// A field of this type, with this first value if it has one.
    fn field_tree(&self, id: &Id, ty: &IType, init: &Option<IExpr>) -> Result<Field, OutOfMemory>
        ensures { IfOk result (λ field. field ≡ field_tree self.now.index.now id.now
            (field_value (unit_writer self.now.index.now self.now.class (cell id.now slots.Value)) ty.now init.now)) }
    {
        let table = self.index.table();
        let head = MemberHead::of(self.alloc, table, id)?;
        let name = Text::from_str(self.alloc, name_of(table, id))?;
        field_of(head, name, self.value_at(id, ty, init))
    }

    /// The type and the first value of a field.
    fn value_at(&self, id: &Id, ty: &IType, init: &Option<IExpr>) -> Result<FieldValue, OutOfMemory>
        ensures { IfOk result (λ value. value
            ≡ field_value (unit_writer self.now.index.now self.now.class (cell id.now slots.Value)) ty.now init.now) }
    {
        let names = self.names_at(id)?;
        value_tree(self.alloc, &names, ty, init)
    }
}

/// A type and a first value.
fn value_tree<P: Places>(
    alloc: Global,
    places: &P,
    ty: &IType,
    init: &Option<IExpr>,
) -> Result<FieldValue, OutOfMemory>
    ensures { IfOk result (λ value. value ≡ field_value (P.writer places.now) ty.now init.now) }
{
    let ty = type_tree(alloc, places, ty)?;
    let init = first_value(alloc, places, init)?;
    Ok(FieldValue { ty, init })
}

/// A field of its parts, the last of which is the value that was written.
fn field_of(
    head: MemberHead,
    name: Text,
    value: Result<FieldValue, OutOfMemory>,
) -> Result<Field, OutOfMemory>
    ensures { IfOk result (λ field. IsOkAnd value (λ value. field ≡ field_of head name value)) }
{
    let value = value?;
    Ok(head.field(name, value))
}

impl MemberHead {
    /// The field of this name and value.
    fn field(self, name: Text, value: FieldValue) -> Field
        ensures { result ≡ field_of self name value }
    {
        let MemberHead { front, words } = self;
        let FieldValue { ty, init } = value;
        Field {
            front,
            at: 0,
            words,
            ty,
            name,
            init,
        }
    }
}
