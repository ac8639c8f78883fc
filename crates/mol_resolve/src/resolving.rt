//! Source files as a program.
ghost use Rattle.std.specs.Prelude.{◌≡◌, All, IfOk, IfErr, OnOk};
ghost use Rattle.mol_resolve_members.specs.places.Orders.{numbers_by_path};
ghost use Rattle.mol_resolve_laws.specs.Entities.{plain_entities};
ghost use Rattle.mol_resolve_laws.specs.Laws.{IsTree};
ghost use Rattle.mol_resolve.specs.Reported.{IsReported};
ghost use Rattle.mol_resolve_members.specs.sources.Sources.{files_of};
ghost use Rattle.mol_resolve_rules.specs.ReadAs.{FilesReadAs, HasNoFault, IsPlain};
ghost use Rattle.mol_table_rules.specs.Program.{nothing};
ghost use Rattle.mol_table_rules.specs.Writes.{AreNew, with_entities};

use crate::file_reader::FileReader;
use jav_scope::{Scope, SourceUnit};
use mol_base::{List, OutOfMemory};
use mol_resolve_faults::ResolveFault;
use mol_resolve_members::{Members, Numbers, by_path};
use mol_table::Table;
use mol_table_rules::NewEntity;
use std::alloc::Global;

/// The program that source files read as, with each name in them by identity (JLS 6, 7, 8, 15): the one table in plain form that has what
/// they say. Each tree must be one that the grammar has.
///
/// `Err` is the first fault for which they are no program, with the number of its file in the list, from 0, and its place there, in bytes:
/// by the path of its file, then by its place, then in the order of kinds. Which one is the first is said where no two files have one path.
/// Want of memory is told as a fault too.
///
/// The time is near-linear in the sources, but that each look-up of a member takes as long as the way up superclasses that it goes.
pub fn resolve(alloc: Global, units: &List<SourceUnit>) -> Result<Table, ResolveFault>
    requires { All IsTree (files_of units.now) }
    ensures read { IfOk result (FilesReadAs (files_of units.now)) }
    ensures plain { IfOk result (IsPlain (files_of units.now)) }
    ensures fault { IfErr result (IsReported (files_of units.now)) }
{
    let entities = all_entities(alloc, units)?;
    Ok(table_of(alloc, entities)?)
}

/// As `resolve`, but lets go of the trees before it makes the table, so that memory never holds both.
pub fn resolve_units(alloc: Global, units: List<SourceUnit>) -> Result<Table, ResolveFault>
    requires { All IsTree (files_of units) }
    ensures read { IfOk result (FilesReadAs (files_of units)) }
    ensures plain { IfOk result (IsPlain (files_of units)) }
    ensures fault { IfErr result (IsReported (files_of units)) }
{
    let entities = all_entities(alloc, &units)?;
    drop(units);
    Ok(table_of(alloc, entities)?)
}

/// All entities of source files, in the order of their numbers; or the first fault.
fn all_entities(alloc: Global, units: &List<SourceUnit>) -> Result<List<NewEntity>, ResolveFault>
    ensures none { OnOk result (HasNoFault (files_of units.now)) }
    ensures entities { IfOk result (λ entities. entities ≡ plain_entities (files_of units.now)) }
    ensures fault { IfErr result (IsReported (files_of units.now)) }
{
    let scope = Scope::new(alloc, units)?;
    let order = by_path(alloc, units.items())?;
    entities_of(alloc, units, &scope, order.as_slice())
}

/// All entities of source files, in the order of their numbers; or the first fault. The files are read in the order of their paths.
fn entities_of(
    alloc: Global,
    units: &List<SourceUnit>,
    scope: &Scope<'_>,
    order: &[u32],
) -> Result<List<NewEntity>, ResolveFault>
    requires scope { scope.now ≡ units.now }
    requires order { order.now ≡ numbers_by_path units.now }
    ensures none { OnOk result (HasNoFault (files_of units.now)) }
    ensures entities { IfOk result (λ entities. entities ≡ plain_entities (files_of units.now)) }
    ensures fault { IfErr result (IsReported (files_of units.now)) }
{
    let sources = units.items();
    let members = Members::new(alloc, scope, sources)?;
    let numbers = Numbers::new(alloc, scope, sources, order)?;
    read_files(alloc, scope, sources, &members, &numbers, order)
}

/// The entities of files by their members and identities; or the first fault.
fn read_files(
    alloc: Global,
    scope: &Scope<'_>,
    sources: &[SourceUnit],
    members: &Members<'_>,
    numbers: &Numbers<'_>,
    order: &[u32],
) -> Result<List<NewEntity>, ResolveFault>
    requires scope { scope.now ≡ sources.now }
    requires members { members.now ≡ sources.now }
    requires numbers { numbers.now ≡ sources.now }
    requires order { order.now ≡ numbers_by_path sources.now }
    ensures none { OnOk result (HasNoFault (files_of sources.now)) }
    ensures entities { IfOk result (λ entities. entities ≡ plain_entities (files_of sources.now)) }
    ensures fault { IfErr result (IsReported (files_of sources.now)) }
{
    let reader = FileReader::new(alloc, scope, sources, members, numbers)?;
    reader.read_all(order)
}

/// The program of these entities.
fn table_of(alloc: Global, entities: List<NewEntity>) -> Result<Table, OutOfMemory>
    requires { AreNew nothing entities }
    ensures { IfOk result (λ table. table ≡ with_entities nothing entities) }
{
    let mut table = Table::new(alloc);
    table.add(entities)?;
    Ok(table)
}
