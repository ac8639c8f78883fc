//! The cells whose names a file prints.
ghost use Rattle.std.specs.Prelude.{◌≡◌, ◌++◌, IfOk, OnOk, map};
ghost use Rattle.mol_spell_names.specs.body_names.FilePlaces.{writer_of};
ghost use Rattle.mol_scope_classes.specs.class_members.Members.{member_entry};
ghost use Rattle.mol_faults_expr.specs.Kept.{kept_misread};
ghost use Rattle.mol_faults_expr.specs.Noted.{none_noted, noted_after};
ghost use Rattle.mol_faults_misread.specs.misread_faults.Found.{cell_misreads, found_at, kept_name, member_misreads, members_misreads};
ghost use Rattle.mol_spell_rules.specs.UnitCells.{cell_writer, references_at};
ghost use Rattle.mol_table_rules.specs.Program.{cell};
ghost use Rattle.mol_values_types.specs.declared.known.Known.TheVariants as knowns;

use crate::body_misreads::{BodyReader, CellPlace};
use crate::misread_faults::names::MisreadName;
use crate::misread_faults::scope::{is_in_constructor, params_in_scope};
use jav_scope::ImportIndex;
use mol_base::{Id, OutOfMemory};
use mol_faults_expr::{Misread, Misreads};
use mol_scope_classes::ClassMember;
use mol_spell_names::{BodyNames, FileNames, MemberIndex};
use mol_values_types::{Cell, Known, Slot};
use std::alloc::Global;

/// The source file of a class, its simple names and its imports. `Err` of its calls is want of memory.
#[derive(Clone, Copy)]
pub(crate) struct FileCells<'a, F> {
    pub alloc: Global,
    pub index: &'a MemberIndex<'a>,
    pub file: &'a F,
    /// The imports of the file.
    pub imports: &'a ImportIndex<'a>,
    pub class: Id,
}

impl<'a, F: FileNames> FileCells<'a, F> {
    /// Adds what is misread in the cells of members, one after the other.
    pub(crate) fn add_members(
        &self,
        names: &mut Vec<MisreadName>,
        members: &[ClassMember],
    ) -> Result<(), OutOfMemory>
        requires { self.now.imports.now ≡ F.imports self.now.file.now }
        ensures { let file = self.now.file.now in OnOk result (map kept_name names.new.items ≡ map kept_name names.old.items
            ++ members_misreads self.now.index.now (F.imports file) (F.simple file) self.now.class (map member_entry members.now)) }
    {
        for member in members {
            self.add_member(names, &member.id, member.known)?;
        }
        Ok(())
    }

    /// Adds what is misread in the cells of a member.
    fn add_member(
        &self,
        names: &mut Vec<MisreadName>,
        id: &Id,
        known: Known,
    ) -> Result<(), OutOfMemory>
        requires { self.now.imports.now ≡ F.imports self.now.file.now }
        ensures { let file = self.now.file.now in OnOk result (map kept_name names.new.items ≡ map kept_name names.old.items
            ++ member_misreads self.now.index.now (F.imports file) (F.simple file) self.now.class (id.now, known)) }
    {
        match known {
            Known::Field => self.add_cell(names, id, Slot::Value),
            Known::Decl(method) => self.add_declaration(names, id, &method),
            Known::Class => Ok(()),
            Known::Method(_) => Ok(()),
            Known::Param(_) => Ok(()),
        }
    }

    /// Adds what is misread in the cells of a declaration of a method.
    fn add_declaration(
        &self,
        names: &mut Vec<MisreadName>,
        id: &Id,
        method: &Id,
    ) -> Result<(), OutOfMemory>
        requires { self.now.imports.now ≡ F.imports self.now.file.now }
        ensures { let file = self.now.file.now in OnOk result (map kept_name names.new.items ≡ map kept_name names.old.items
            ++ member_misreads self.now.index.now (F.imports file) (F.simple file) self.now.class (id.now, knowns.Decl method.now)) }
    {
        self.add_cell(names, method, Slot::Result)?;
        self.add_cell(names, method, Slot::Params)?;
        self.add_cell(names, id, Slot::Body)
    }

    /// Adds what is misread in a cell.
    pub(crate) fn add_cell(
        &self,
        names: &mut Vec<MisreadName>,
        id: &Id,
        slot: Slot,
    ) -> Result<(), OutOfMemory>
        requires { self.now.imports.now ≡ F.imports self.now.file.now }
        ensures { let file = self.now.file.now in OnOk result (map kept_name names.new.items ≡ map kept_name names.old.items
            ++ cell_misreads self.now.index.now (F.imports file) (F.simple file) self.now.class (cell id.now slot)) }
    {
        let at = Cell { id: *id, slot };
        let misreads = self.misreads(&at)?;
        add_names(names, &at, misreads.into_items())
    }

    /// The names in a cell: how many there are, and which of them are misread.
    fn misreads(&self, at: &Cell) -> Result<Misreads, OutOfMemory>
        requires { self.now.imports.now ≡ F.imports self.now.file.now }
        ensures { let file = self.now.file.now in
            let writer = cell_writer self.now.index.now (F.imports file) (F.simple file) self.now.class at.now in
            IfOk result (λ misreads. misreads ≡ noted_after writer none_noted (references_at writer at.now)) }
    {
        match BodyNames::new(self.alloc, self.index, self.file, self.class, &at.id) {
            Ok(places) => self.misreads_in(&places, at),
            Err(OutOfMemory) => Err(OutOfMemory),
        }
    }

    /// The names in a cell, of which it is known how they are written.
    fn misreads_in(&self, places: &BodyNames<'a, F>, at: &Cell) -> Result<Misreads, OutOfMemory>
        requires imports { self.now.imports.now ≡ F.imports self.now.file.now }
        requires places { let file = self.now.file.now in
            let kept = places.now in
            writer_of kept.members.now (F.imports kept.file.now) (F.simple kept.file.now) kept.class kept.method
            ≡ cell_writer self.now.index.now (F.imports file) (F.simple file) self.now.class at.now }
        ensures { let file = self.now.file.now in
            let writer = cell_writer self.now.index.now (F.imports file) (F.simple file) self.now.class at.now in
            IfOk result (λ misreads. misreads ≡ noted_after writer none_noted (references_at writer at.now)) }
    {
        let table = self.index.table();
        let reader = BodyReader {
            alloc: self.alloc,
            places,
            place: CellPlace {
                members: self.index,
                class: self.class,
                param_names: places.param_names(),
                params: params_in_scope(table, &at.id),
                in_constructor: is_in_constructor(table, &at.id),
                imports: self.imports,
            },
        };
        let mut misreads = Misreads::new(self.alloc);
        reader.note_value(&mut misreads, table.get(at))?;
        Ok(misreads)
    }
}

/// Adds the misread names of a cell.
fn add_names(
    names: &mut Vec<MisreadName>,
    at: &Cell,
    misreads: Vec<Misread>,
) -> Result<(), OutOfMemory>
    ensures { OnOk result (map kept_name names.new.items ≡ map kept_name names.old.items
        ++ map (found_at at.now) (map kept_misread misreads.items)) }
{
    for misread in misreads {
        names.push(MisreadName { at: *at, misread })?;
    }
    Ok(())
}
