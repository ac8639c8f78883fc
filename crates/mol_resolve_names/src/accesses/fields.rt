//! Fields of values and through the names of classes (JLS 6.5.6.2, 15.11).
ghost use Rattle.std.specs.Prelude.{◌≡◌, ℕ, IfOk};
ghost use Rattle.jav_names.specs.seen.Kept.{view_value};
ghost use Rattle.jav_names.specs.LookUps.{field_on, field_through};
ghost use Rattle.jav_names.specs.UnitViews.{MemberKey};
ghost use Rattle.mol_resolve_names.specs.accesses.Over.{IsOver};
ghost use Rattle.mol_resolve_readings.specs.meant.Kept.{view_meant, view_part};
ghost use Rattle.mol_resolve_readings.specs.reads.Reads.{Reads};
ghost use Rattle.mol_resolve_rules.specs.Readers.{Reader};
ghost use Rattle.mol_resolve_rules.specs.ReadTrees as trees;

use mol_base::{OutOfMemory, Text};
use mol_resolve_faults::{FaultKind, FirstFault};
use mol_resolve_members::{Finder, OnValue};
use mol_resolve_readings::Meant;
use mol_resolve_readings::meant::fields;
use std::alloc::Global;

/// A field through the name of a class, by the number of its file. Where there is no static one, that is noted at this place.
pub fn static_field(
    alloc: Global,
    finder: &Finder<'_>,
    faults: &mut FirstFault,
    at: u32,
    class: u32,
    name: &Text,
) -> Result<Option<Meant>, OutOfMemory>
    ensures { IfOk result (λ value. (reader : Reader ℕ MemberKey) → IsOver finder.now reader
        → Reads (trees.static_field_meant reader at (field_through reader.view class name.now)) (view_part value) faults.old faults.new) }
{
    match finder.field_through(class, name) {
        Some(field) => {
            let value = fields::own_field(alloc, true, field.id, field.ty)?;
            Ok(Some(value))
        },
        None => {
            faults.note(FaultKind::UnknownMember, at);
            Ok(None)
        },
    }
}

/// A field of a value. Where there is none, or a static one, or the value has no fields, that is noted at this place.
pub fn field_of(
    alloc: Global,
    finder: &Finder<'_>,
    faults: &mut FirstFault,
    at: u32,
    name: &Text,
    value: Meant,
) -> Result<Option<Meant>, OutOfMemory>
    ensures { IfOk result (λ field. (reader : Reader ℕ MemberKey) → IsOver finder.now reader
        → Reads (trees.field_meant reader at name.now (view_meant value) (field_on reader.view name.now (view_value value.ty)))
        (view_part field) faults.old faults.new) }
{
    match finder.field_on(name, &value.ty) {
        OnValue::Member(field) => {
            let field = fields::field_of(alloc, field.id, field.ty, value)?;
            Ok(Some(field))
        },
        OnValue::Outside => {
            let field = fields::outside_field_of(alloc, name, value)?;
            Ok(Some(field))
        },
        OnValue::Static => {
            faults.note(FaultKind::StaticByInstance, at);
            Ok(None)
        },
        OnValue::Missing => {
            faults.note(FaultKind::UnknownMember, at);
            Ok(None)
        },
        OnValue::NoMembers => {
            faults.note(FaultKind::ReceiverType, at);
            Ok(None)
        },
        OnValue::Unread => Ok(None),
    }
}
