//! Faults of one method.
ghost use Rattle.std.specs.Prelude.{IfOk};
ghost use Rattle.mol_spell_rules.specs.FaultList.{apart, outside_name};
ghost use Rattle.mol_faults_support.specs.Rests.{RestsOn};

use crate::declaration_index::DeclarationIndex;
use crate::slots::{add_each, add_slots, add_supers};
use crate::ways::classes_above;
use mol_base::{Id, OutOfMemory};
use mol_values_types::{Cell, Slot};
use std::alloc::Global;

/// A method that stands apart rests on where its declarations stand, and on the superclasses of all above them.
pub(crate) fn apart(
    alloc: Global,
    index: &DeclarationIndex<'_>,
    method: &Id,
) -> Result<Vec<Cell>, OutOfMemory>
    ensures { IfOk result (λ cells. RestsOn index.now (apart method.now) cells.items) }
{
    let found = index.declarations_of(alloc, &[*method])?;
    let declarations = found.as_slice();
    let met = classes_above(alloc, index.table(), declarations)?;
    let classes = met.as_slice();
    let mut cells = Vec::new(alloc);
    add_each(
        &mut cells,
        declarations,
        &[Slot::Live, Slot::Owner, Slot::Method],
    )?;
    add_supers(&mut cells, classes)?;
    Ok(cells)
}

/// A method with the name of one of `Object`, or no more, rests on its name, its parameters and what it was when it was added.
pub(crate) fn outside_name(
    alloc: Global,
    index: &DeclarationIndex<'_>,
    method: &Id,
) -> Result<Vec<Cell>, OutOfMemory>
    ensures { IfOk result (λ cells. RestsOn index.now (outside_name method.now) cells.items) }
{
    let found = index.declarations_of(alloc, &[*method])?;
    let declarations = found.as_slice();
    let mut cells = Vec::new(alloc);
    add_slots(&mut cells, method, &[Slot::Name, Slot::Params, Slot::Fixed])?;
    add_each(&mut cells, declarations, &[Slot::Live, Slot::Method])?;
    Ok(cells)
}
