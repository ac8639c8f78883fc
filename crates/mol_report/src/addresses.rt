//! Addresses of classes, fields and declarations, each appended to a vector of bytes.
ghost use Rattle.std.specs.Prelude.{◌≡◌, ◌++◌, OnOk};
ghost use Rattle.std.specs.FinMap as map;
ghost use Rattle.std.specs.Fmt.{decimal};
ghost use Rattle.mol_report.specs.Labels.{address_text, declared_name, owner_text};
ghost use Rattle.mol_table_rules.specs.Faults.{class_address, decl_address, field_address};
ghost use Rattle.mol_table_rules.specs.Program.{name_at, owner_at, package_at};

use mol_base::{Id, OutOfMemory};
use mol_scope_classes::{name_of, owner_of, package_of, params_of};
use mol_table::Table;
use mol_values_types::{Known, MethodKind};
use std::alloc::Global;

/// Appends the full name of a class.
pub(crate) fn push_class(out: &mut Vec<u8>, base: &Table, class: &Id) -> Result<(), OutOfMemory>
    ensures { OnOk result (out.new.items ≡ out.old.items ++ address_text base.now (class_address (package_at base.now class.now)
        (name_at base.now class.now))) }
{
    out.extend_from_slice(package_of(base, class).as_bytes())?;
    out.push(b'.')?;
    out.extend_from_slice(name_of(base, class).as_bytes())?;
    Ok(())
}

/// Appends the full name of the class in which a member stands.
fn push_owner(out: &mut Vec<u8>, base: &Table, member: &Id) -> Result<(), OutOfMemory>
    ensures { OnOk result (out.new.items ≡ out.old.items ++ owner_text base.now (owner_at base.now member.now)) }
{
    match owner_of(base, member) {
        Some(class) => push_class(out, base, &class),
        None => Ok(()),
    }
}

/// Appends the address of a field.
pub(crate) fn push_field(out: &mut Vec<u8>, base: &Table, field: &Id) -> Result<(), OutOfMemory>
    ensures { OnOk result (out.new.items ≡ out.old.items ++ address_text base.now (field_address (owner_at base.now field.now)
        (name_at base.now field.now))) }
{
    push_owner(out, base, field)?;
    out.push(b'.')?;
    out.extend_from_slice(name_of(base, field).as_bytes())?;
    Ok(())
}

/// Appends the address of a declaration of a method.
pub(crate) fn push_declaration(
    alloc: Global,
    out: &mut Vec<u8>,
    base: &Table,
    decl: &Id,
    method: &Id,
) -> Result<(), OutOfMemory>
    ensures { OnOk result (out.new.items ≡ out.old.items
        ++ address_text base.now (decl_address base.now decl.now method.now (map.get base.now.known method.now))) }
{
    push_owner(out, base, decl)?;
    out.push(b'.')?;
    out.extend_from_slice(declared_name(base, method).as_bytes())?;
    out.push(b'/')?;
    push_number(alloc, out, params_of(base, method).len() as u64)?;
    Ok(())
}

/// The name of a method, and `new` for a constructor.
fn declared_name<'a>(base: &'a Table, method: &Id) -> &'a str
    ensures { result.now ≡ declared_name base.now method.now (map.get base.now.known method.now) }
{
    match base.known(*method) {
        Some(Known::Method(MethodKind::Constructor)) => "new",
        _ => name_of(base, method),
    }
}

/// Appends a number in decimal.
pub(crate) fn push_number(alloc: Global, out: &mut Vec<u8>, number: u64) -> Result<(), OutOfMemory>
    ensures { OnOk result (out.new.items ≡ out.old.items ++ decimal number) }
{
    out.extend_from_slice(format!(in alloc; "{number}")?.as_bytes())?;
    Ok(())
}
