//! Where names of a table are written.
ghost use Rattle.std.specs.Prelude.{◌≡◌, IfOk};
ghost use Rattle.std.specs.FinMap as map;
ghost use Rattle.mol_spell_names.specs.body_names.FilePlaces.{declared_in, param_names_in, writer_of};
ghost use Rattle.mol_spell_rules.specs.UnitCells.{cell_writer};
ghost use Rattle.mol_table_rules.specs.Program.{cell};
ghost use Rattle.mol_values_types.specs.declared.cell.Slot.{Slot};

use crate::body_names::file_names::FileNames;
use mol_base::{Id, OutOfMemory};
use mol_scope::MemberIndex;
use mol_scope_classes::params_of;
use mol_spell_places::ParamNames;
use mol_table::Table;
use mol_values_types::Known;
use std::alloc::Global;

/// A place where names of a table are written: in the file of a class, in a declaration of a method or in none.
#[derive(Drop)]
pub struct BodyNames<'a, F> {
    pub(crate) alloc: Global,
    pub(crate) members: &'a MemberIndex<'a>,
    pub(crate) file: &'a F,
    pub(crate) class: Id,
    pub(crate) method: Option<Id>,
    /// The names of the parameters of the method; none without one.
    pub(crate) params: ParamNames<'a>,
    ghost are_params: { params ≡ param_names_in members.now method },
}

impl<'a, F: FileNames> BodyNames<'a, F> {
    /// In the file of this class, where a cell of this entity is written: the parameters of a method are in scope in its declarations. The
    /// time is near-linear in the number of these parameters and the length of their names. `Err` is want of memory.
    pub fn new(
        alloc: Global,
        members: &'a MemberIndex<'a>,
        file: &'a F,
        class: Id,
        id: &Id,
    ) -> Result<BodyNames<'a, F>, OutOfMemory>
        ensures { IfOk result (λ names. (slot : Slot) → writer_of names.members.now (F.imports names.file.now) (F.simple names.file.now)
            names.class names.method ≡ cell_writer members.now (F.imports file.now) (F.simple file.now) class (cell id.now slot)) }
    {
        let params = names_of_params(alloc, members, id)?;
        let method = declared_method(members.table(), id);
        Ok(BodyNames {
            alloc,
            members,
            file,
            class,
            method,
            params,
        })
    }

    /// The names of the parameters in scope. It takes no memory.
    pub fn param_names(&self) -> &ParamNames<'a>
        ensures { result.now ≡ param_names_in self.now.members.now self.now.method }
    {
        &self.params
    }
}

/// The method that an identity is a declaration of.
fn declared_method(table: &Table, id: &Id) -> Option<Id>
    ensures { result ≡ declared_in (map.get table.now.known id.now) }
{
    match table.known(*id) {
        Some(Known::Decl(method)) => Some(method),
        _ => None,
    }
}

/// The names of the parameters of the method that an identity is a declaration of; none without one.
fn names_of_params<'a>(
    alloc: Global,
    members: &MemberIndex<'a>,
    id: &Id,
) -> Result<ParamNames<'a>, OutOfMemory>
    ensures { IfOk result (λ names. names ≡ param_names_in members.now (declared_in (map.get members.now.known id.now))) }
{
    let table = members.table();
    match declared_method(table, id) {
        Some(method) => ParamNames::new(alloc, params_of(table, &method)),
        None => ParamNames::new(alloc, &[]),
    }
}
