//! Faults of references that would read as something else.
ghost use Rattle.std.specs.Prelude.{◌≡◌, ℕ, IfOk, OnOk, map};
ghost use Rattle.std.specs.List.{filter_map};
ghost use Rattle.mol_spell_rules.specs.FaultList.{misread, FaultTarget};
ghost use Rattle.mol_faults_support.specs.Declarations.{DeclaresAny};
ghost use Rattle.mol_faults_rules.specs.Met.{kept_met};
ghost use Rattle.mol_faults_support.specs.Met.{entity_of, method_for, HasMet};
ghost use Rattle.mol_faults_support.specs.Rests.{Adds, IsOfTargets, RestsOn};

use crate::declaration_index::DeclarationIndex;
use crate::headers::add_headers;
use crate::identities::{add_some, set_of};
use crate::life::lives;
use crate::slots::add_cell;
use mol_base::{Id, OutOfMemory};
use mol_faults_rules::Met;
use mol_table::Table;
use mol_values_types::Cell;
use std::alloc::Global;

/// A reference that is misread rests on its cell, on what says whether the entity of the cell lives, and on what says where that is and
/// what it is that it has to do with.
pub(crate) fn misread(
    alloc: Global,
    index: &DeclarationIndex<'_>,
    at: &Cell,
    met: &[Met],
) -> Result<Vec<Cell>, OutOfMemory>
    ensures { IfOk result (λ cells. (number : ℕ) (target : FaultTarget)
        → HasMet index.now (misread at.now number target) (map kept_met met.now)
        → RestsOn index.now (misread at.now number target) cells.items) }
{
    let mut cells = lives(alloc, index, &[at.id])?;
    add_cell(&mut cells, &at.id, at.slot)?;
    add_targets(alloc, index, &mut cells, met)?;
    Ok(cells)
}

/// Adds the cells that say where that is and what it is that these targets have to do with.
fn add_targets(
    alloc: Global,
    index: &DeclarationIndex<'_>,
    cells: &mut Vec<Cell>,
    met: &[Met],
) -> Result<(), OutOfMemory>
    ensures { OnOk result (Adds cells.old.items cells.new.items (IsOfTargets index.now (map kept_met met.now))) }
{
    let table = index.table();
    let found = entities_of(alloc, table, met)?;
    let entities = found.as_slice();
    let declared = declared_of(alloc, index, met)?;
    let declarations = declared.as_slice();
    add_headers(cells, table, entities)?;
    add_headers(cells, table, declarations)
}

/// The declarations of the methods of these targets.
fn declared_of(
    alloc: Global,
    index: &DeclarationIndex<'_>,
    met: &[Met],
) -> Result<Vec<Id>, OutOfMemory>
    ensures { IfOk result (λ found. DeclaresAny index.now
        (filter_map (λ target. method_for index.now (kept_met target)) met.now) found.items) }
{
    let found = methods_for(alloc, index.table(), met)?;
    let methods = set_of(alloc, found.as_slice())?;
    index.declarations_of(alloc, methods.as_slice())
}

/// The entities of these targets; of a parameter its method.
fn entities_of(alloc: Global, table: &Table, met: &[Met]) -> Result<Vec<Id>, OutOfMemory>
    ensures { IfOk result (λ ids. ids.items ≡ filter_map (λ target. entity_of table.now (kept_met target)) met.now) }
{
    let mut ids = Vec::new(alloc);
    for target in met {
        add_some(&mut ids, entity_of(table, target))?;
    }
    Ok(ids)
}

/// The entity of a target; of a parameter its method.
fn entity_of(table: &Table, target: &Met) -> Option<Id>
    ensures { result ≡ entity_of table.now (kept_met target.now) }
{
    match target {
        Met::Class(id) => Some(*id),
        Met::Field(id) => Some(*id),
        Met::Method(id) => Some(*id),
        Met::Param(id) => table.method_of_param(*id),
        Met::Default(id) => Some(*id),
    }
}

/// The methods of these targets.
fn methods_for(alloc: Global, table: &Table, met: &[Met]) -> Result<Vec<Id>, OutOfMemory>
    ensures { IfOk result (λ ids. ids.items ≡ filter_map (λ target. method_for table.now (kept_met target)) met.now) }
{
    let mut ids = Vec::new(alloc);
    for target in met {
        add_some(&mut ids, method_for(table, target))?;
    }
    Ok(ids)
}

/// The method of a target that is one, or a parameter of one.
fn method_for(table: &Table, target: &Met) -> Option<Id>
    ensures { result ≡ method_for table.now (kept_met target.now) }
{
    match target {
        Met::Class(_) => None,
        Met::Field(_) => None,
        Met::Method(id) => Some(*id),
        Met::Param(id) => table.method_of_param(*id),
        Met::Default(_) => None,
    }
}
