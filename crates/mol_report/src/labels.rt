//! Identities with their addresses in the base.
ghost use Rattle.std.specs.Prelude.{◌≡◌, ◌++◌, IfOk, OnOk, Some, option_copied};
ghost use Rattle.std.specs.FinMap as map;
ghost use Rattle.std.specs.List.{find};
ghost use Rattle.mol_report.specs.Labels.{added, cell_text, entity_label, id_text, label, method_label, param_name};
ghost use Rattle.mol_values_types.specs.Order.{id_eq};
ghost use Rattle.mol_values_types.specs.declared.known.Known.TheVariants as knowns;

use crate::addresses::{push_class, push_declaration, push_field};
use crate::slots::slot_word;
use mol_base::{Id, OutOfMemory};
use mol_scope_classes::params_of;
use mol_scope_members::Topmost;
use mol_table::Table;
use mol_values_types::{Cell, Known, Param};
use std::alloc::Global;
use std::marker::Model;

/// The addresses of a base, made ready once for many lines. Contracts see the program of the base.
#[derive(Drop)]
pub struct Labels<'a> {
    base: &'a Table,
    tops: Topmost<'a>,
}

impl<'a> Model for Labels<'a> {
    ghost use Rattle.std.specs.Prelude.{◌≡◌};
    ghost use Rattle.mol_base.specs.contracts.ident.Id as id;
    ghost use Rattle.mol_table_rules.specs.Program.{program_code};
    ghost use Rattle.mol_table_rules.specs.Program.{Program};
    ghost use Rattle.mol_values_types.specs.contracts.cell.Cell as cell;
    ghost use Rattle.mol_values_types.specs.contracts.known.Known as what;
    ghost use Rattle.mol_values_types.specs.contracts.value.Value as value;

    ghost Value = { Program };

    ghost coded = { program_code cell.the_row.coded value.the_row.coded id.the_row.coded what.the_row.coded };

    ghost view = { λ labels. labels.base.now };

    ghost invariant = { λ labels. labels.tops ≡ labels.base.now };
}

impl<'a> Labels<'a> {
    /// The addresses of a base. The time is near-linear in its identities. `Err` is want of memory.
    pub fn new(alloc: Global, base: &'a Table) -> Result<Labels<'a>, OutOfMemory>
        ensures { IfOk result (λ labels. labels ≡ base.now) }
    {
        Ok(Labels {
            base,
            tops: Topmost::new(alloc, base)?,
        })
    }

    /// The base itself.
    pub(crate) fn base(&self) -> &'a Table
        ensures { result.now ≡ self.now }
    {
        self.base
    }

    /// Appends an identity as `push_id` does, a dot and the word of a slot: `:5[shop.Cart.total/0].body`. `Err` is want of memory; then a
    /// part may be appended.
    pub fn push_cell(
        &self,
        alloc: Global,
        out: &mut Vec<u8>,
        cell: &Cell,
    ) -> Result<(), OutOfMemory>
        ensures { OnOk result (out.new.items ≡ out.old.items ++ cell_text self.now cell.now) }
    {
        self.push_id(alloc, out, &cell.id)?;
        out.push(b'.')?;
        out.extend_from_slice(slot_word(&cell.slot).as_bytes())?;
        Ok(())
    }

    /// Appends an identity and, in brackets, its address in the base, or `added` where it has none there: `:1[shop.Cart]`. ASCII but for
    /// names. `Err` is want of memory; then a part may be appended.
    pub fn push_id(&self, alloc: Global, out: &mut Vec<u8>, id: &Id) -> Result<(), OutOfMemory>
        ensures { OnOk result (out.new.items ≡ out.old.items ++ id_text self.now id.now) }
    {
        out.extend_from_slice(id.write(alloc)?.bytes())?;
        out.push(b'[')?;
        self.push_label(alloc, out, id)?;
        out.push(b']')?;
        Ok(())
    }

    /// Appends the address that an identity has in the base, or `added`.
    pub(crate) fn push_label(
        &self,
        alloc: Global,
        out: &mut Vec<u8>,
        id: &Id,
    ) -> Result<(), OutOfMemory>
        ensures { OnOk result (out.new.items ≡ out.old.items ++ label self.now id.now) }
    {
        match self.base.known(*id) {
            Some(Known::Method(_)) => self.push_method(alloc, out, id),
            Some(Known::Param(method)) => {
                self.push_method(alloc, out, &method)?;
                out.push(b'#')?;
                out.extend_from_slice(param_name(self.base, &method, id))?;
                Ok(())
            }
            _ => push_entity(alloc, out, self.base, id),
        }
    }

    /// Appends the address of the topmost declaration of a method.
    fn push_method(&self, alloc: Global, out: &mut Vec<u8>, method: &Id) -> Result<(), OutOfMemory>
        ensures { OnOk result (out.new.items ≡ out.old.items ++ method_label self.now method.now) }
    {
        match self.tops.decl(method) {
            Some(decl) => push_entity(alloc, out, self.base, &decl),
            None => push_added(out),
        }
    }
}

/// Appends the address of a class, a field or a declaration.
fn push_entity(alloc: Global, out: &mut Vec<u8>, base: &Table, id: &Id) -> Result<(), OutOfMemory>
    ensures { OnOk result (out.new.items ≡ out.old.items ++ entity_label base.now id.now) }
{
    match base.known(*id) {
        Some(Known::Class) => push_class(out, base, id),
        Some(Known::Field) => push_field(out, base, id),
        Some(Known::Decl(method)) => push_declaration(alloc, out, base, id, &method),
        _ => push_added(out),
    }
}

/// Appends what stands for what the base has not.
fn push_added(out: &mut Vec<u8>) -> Result<(), OutOfMemory>
    ensures { OnOk result (out.new.items ≡ out.old.items ++ added) }
{
    out.extend_from_slice(b"added")?;
    Ok(())
}

/// The name of a present parameter of a method.
fn param_name<'a>(base: &'a Table, method: &Id, id: &Id) -> &'a [u8]
    requires { map.get base.now.known id.now ≡ Some (knowns.Param method.now) }
    ensures { result.now ≡ param_name base.now id.now }
{
    match param_of(params_of(base, method), id) {
        Some(param) => param.name.bytes(),
        None => &[],
    }
}

/// The first parameter that has this identity.
fn param_of<'a>(params: &'a [Param], id: &Id) -> Option<&'a Param>
    ensures { option_copied result ≡ find (λ param. id_eq id.now param.id) params.now }
{
    params.iter().find(|param| *id == param.id)
}
