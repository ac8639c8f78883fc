//! Names after a dot: fields of classes and of values, and their static types (JLS 6.5.6.2, 15.11).
ghost use Rattle.std.specs.Prelude.{◌≡◌, option_map};
ghost use Rattle.jav_names.specs.LookUps.{field_through};
ghost use Rattle.mol_base.specs.declared.ident.Id.{Id as Identity};
ghost use Rattle.mol_faults_names.specs.Kept.{kept_path, program_at, reader_at, reads_of};
ghost use Rattle.mol_faults_names.specs.Reads.{field_read, next_read, value_read};
ghost use Rattle.mol_spell_rules.specs.references.References.{field_target};
ghost use Rattle.mol_resolve_rules.specs.StaticTypes.{field_value};
ghost use Rattle.mol_scope.specs.types.Kept.{view_value};

use crate::class_path::ClassPath;
use crate::place::InsteadPlace;
use crate::reads::Reads;
use crate::word::Word;
use jav_scope::Found;
use mol_base::{Id, Text};
use mol_scope::{Answer, StaticType, field_of};
use mol_scope_classes::is_static_field;
use mol_table::Table;
use mol_values_types::{Cell, Slot, Value};

impl<'a, 'b> InsteadPlace<'_, 'a, 'b> {
    /// What one more name reads as after a dot: after names that spell a class, or after what they read as. It takes no memory, and as much
    /// time as the look-up of a field.
    pub(crate) fn next_read(
        &self,
        name: &'b Text,
        path: &ClassPath,
        read: &Option<Reads<'b>>,
    ) -> Option<Reads<'b>>
        ensures { option_map reads_of result
            ≡ next_read (program_at self.now) (reader_at self.now) name.now (kept_path path.now) (option_map reads_of read.now) }
    {
        match path {
            ClassPath::Whole(class) => self.field_through(class, name),
            ClassPath::Front => None,
            ClassPath::Neither => match read {
                Some(value) => self.field_on(&value.ty, name),
                None => None,
            },
        }
    }

    /// A static field through the name of a class.
    fn field_through(&self, class: &Id, name: &Text) -> Option<Reads<'b>>
        ensures { let reader = reader_at self.now in option_map reads_of result
            ≡ option_map (field_read (program_at self.now) reader) (field_through reader.view class.now name.now) }
    {
        let names = self.names;
        let members = names.variables.members;
        match field_of(members, class, name.as_str()) {
            Found::Found(field) => {
                if is_static_field(members.table(), &field) {
                    Some(field_read(members.table(), field))
                } else {
                    None
                }
            },
            Found::Outside => None,
            Found::NotFound => None,
        }
    }

    /// A field of a value of this type.
    fn field_on(&self, ty: &StaticType<'b>, name: &'b Text) -> Option<Reads<'b>>
        ensures { option_map reads_of result ≡ value_read (program_at self.now) (reader_at self.now) name.now (view_value ty.now) }
    {
        match self.names.field_on(ty, name.as_str()) {
            Answer::Field(field) => {
                let names = self.names;
                Some(field_read(names.variables.members.table(), field))
            },
            Answer::Outside(_) => Some(Reads {
                word: Word::Outside(name.as_str()),
                ty: ty.outside_field(name),
            }),
            _ => None,
        }
    }
}

/// A field, with its static type.
pub(crate) fn field_read<'b>(table: &'b Table, field: Id) -> Reads<'b>
    ensures { reads_of result ≡ record { target = field_target field; type = field_value table.now field } }
{
    Reads {
        word: Word::Field(field),
        ty: field_value(table, &field),
    }
}

/// The static type of a field; mixed where this is none.
fn field_value<'b>(table: &'b Table, field: &Id) -> StaticType<'b>
    ensures { view_value result ≡ field_value table.now field.now }
{
    let cell = Cell {
        id: *field,
        slot: Slot::Value,
    };
    match table.get(&cell) {
        Some(Value::Value(ty, _)) => StaticType::of_type(ty),
        _ => StaticType::Mixed,
    }
}
