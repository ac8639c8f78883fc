//! The support of faults.
ghost use Rattle.std.specs.Prelude.{◌≡◌, ◌++◌, IfOk, OnOk, map};
ghost use Rattle.std.specs.Option.{option_to_list};
ghost use Rattle.mol_faults_misread.specs.body_misreads.Kept.{kept_misread};
ghost use Rattle.mol_faults_rules.specs.Kept.{kept_fault, kept_target};
ghost use Rattle.mol_faults.specs.Met.{met_among, met_by, met_in};
ghost use Rattle.mol_faults_misread.specs.misread_faults.Found.{kept_name};
ghost use Rattle.mol_spell_rules.specs.FaultList.{misread};
ghost use Rattle.mol_spell_rules.specs.Support.{IsSupport};
ghost use Rattle.mol_faults_rules.specs.Met.{kept_met};
ghost use Rattle.mol_faults_support.specs.Met.{HasMet};

use crate::names::{names_at, names_of};
use mol_base::{List, OutOfMemory};
use mol_faults_misread::{Misread, MisreadName};
use mol_faults_rules::{Fault, Met, Target};
use mol_faults_support::{DeclarationIndex, support as support_by};
use mol_table::Table;
use mol_values_types::Cell;
use std::alloc::Global;
use std::marker::Model;

/// What many faults of one program rest on, from one reading of it. Contracts see the program.
#[derive(Drop)]
pub struct Supports<'a> {
    declarations: DeclarationIndex<'a>,
    /// The misread names, by entity and number.
    names: Vec<MisreadName>,
}

impl<'a> Model for Supports<'a> {
    ghost use Rattle.mol_base.specs.contracts.ident.Id as id;
    ghost use Rattle.mol_faults.specs.Names.{AreNames};
    ghost use Rattle.mol_table_rules.specs.Program.{program_code};
    ghost use Rattle.mol_table_rules.specs.Program.{Program};
    ghost use Rattle.mol_table_rules.specs.Tidy.{tidy};
    ghost use Rattle.mol_values_types.specs.contracts.cell.Cell as cell;
    ghost use Rattle.mol_values_types.specs.contracts.known.Known as what;
    ghost use Rattle.mol_values_types.specs.contracts.value.Value as value;

    ghost Value = { Program };

    ghost coded = { program_code cell.the_row.coded value.the_row.coded id.the_row.coded what.the_row.coded };

    ghost view = { λ supports. supports.declarations };

    ghost invariant = { λ supports. AreNames (tidy supports.declarations) supports.names.items };
}

impl<'a> Supports<'a> {
    /// Reads a program once. The time is that of tidying it, of finding all misread names, and of some look-ups for each known identity;
    /// `Err` is want of memory.
    pub fn new(alloc: Global, table: &'a Table) -> Result<Supports<'a>, OutOfMemory>
        ensures { IfOk result (λ supports. supports ≡ table.now) }
    {
        let names = names_of(alloc, table)?;
        let declarations = DeclarationIndex::new(alloc, table)?;
        Ok(Supports {
            declarations,
            names,
        })
    }

    /// The cells that a fault of the program rests on, ascending: what its condition looks at first, so that the operations that last wrote
    /// them can be told with it. Of a misread name that the program does not have, the cells are its cell and those that say whether its
    /// entity lives.
    ///
    /// The time is that of some searches, of going up from the classes of declarations, of going through the value of the cell that refers
    /// to what is gone, and of sorting the cells, however large the program is. `Err` is want of memory.
    pub fn of(&self, alloc: Global, fault: &Fault) -> Result<List<Cell>, OutOfMemory>
        ensures { IfOk result (IsSupport self.now (kept_fault fault.now)) }
    {
        let met = self.met_by_fault(alloc, fault)?;
        support_by(alloc, &self.declarations, fault, met.as_slice())
    }

    /// What a misread name has to do with; nothing for another fault.
    fn met_by_fault(&self, alloc: Global, fault: &Fault) -> Result<Vec<Met>, OutOfMemory>
        ensures { IfOk result (λ met. HasMet self.now (kept_fault fault.now) (map kept_met met.items)) }
    {
        match fault {
            Fault::Misread(at, number, target) => self.met_by_name(alloc, at, *number, target),
            _ => Ok(Vec::new(alloc)),
        }
    }

    /// What the name of this number in a cell, with this target, has to do with where it is misread.
    fn met_by_name(
        &self,
        alloc: Global,
        at: &Cell,
        number: u32,
        target: &Target,
    ) -> Result<Vec<Met>, OutOfMemory>
        ensures { IfOk result (λ met.
            HasMet self.now (misread at.now number (kept_target target.now)) (map kept_met met.items)) }
    {
        let names = names_at(self.names.as_slice(), at, number);
        met_among(alloc, names, at, number, target)
    }
}

/// The cells that one fault of a program rests on, as `Supports` tells them of several. The program is read for it.
pub fn support(alloc: Global, table: &Table, fault: &Fault) -> Result<List<Cell>, OutOfMemory>
    ensures { IfOk result (IsSupport table.now (kept_fault fault.now)) }
{
    let supports = Supports::new(alloc, table)?;
    supports.of(alloc, fault)
}

/// What the name of this number in a cell, with this target, has to do with, in whichever of these it is misread.
fn met_among(
    alloc: Global,
    names: &[MisreadName],
    at: &Cell,
    number: u32,
    target: &Target,
) -> Result<Vec<Met>, OutOfMemory>
    ensures { IfOk result (λ met.
        map kept_met met.items ≡ met_among at.now number (kept_target target.now) (map kept_name names.now)) }
{
    let mut met = Vec::new(alloc);
    for name in names {
        add_met(&mut met, name, at, number, target)?;
    }
    Ok(met)
}

/// Adds what a misread name has to do with, if it is that of this number in a cell, with this target.
fn add_met(
    met: &mut Vec<Met>,
    name: &MisreadName,
    at: &Cell,
    number: u32,
    target: &Target,
) -> Result<(), OutOfMemory>
    ensures { OnOk result (map kept_met met.new.items
        ≡ map kept_met met.old.items ++ met_in at.now number (kept_target target.now) (kept_name name.now)) }
{
    if name.is(at, number, target) {
        add_both(met, &name.misread)
    } else {
        Ok(())
    }
}

/// Adds what of the program a name is the name of, and what it reads as instead.
fn add_both(met: &mut Vec<Met>, name: &Misread) -> Result<(), OutOfMemory>
    ensures { OnOk result (map kept_met met.new.items ≡ map kept_met met.old.items ++ met_by (kept_misread name.now)) }
{
    add_some(met, name.named)?;
    add_some(met, name.instead)
}

/// Adds it, where there is one.
fn add_some(met: &mut Vec<Met>, added: Option<Met>) -> Result<(), OutOfMemory>
    ensures { OnOk result (map kept_met met.new.items ≡ map kept_met met.old.items ++ map kept_met (option_to_list added)) }
{
    if let Some(added) = added {
        met.push(added)?;
    }
    Ok(())
}
