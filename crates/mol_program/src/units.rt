//! The program that source files are.
ghost use Rattle.std.specs.Prelude.{◌≤◌, IfErr, IfOk, length};
ghost use Rattle.mol_base.specs.Limits.{most};
ghost use Rattle.mol_base.specs.Files.{ArePathsApart, AreSmall, file_pair, file_pairs};
ghost use Rattle.mol_program.specs.SourceTexts.{text_of};
ghost use Rattle.mol_program.specs.Programs.{AreParsed, IsReadAs, IsUnread, Refuses};
ghost use Rattle.mol_resolve_members.specs.sources.Sources.{file_of, files_of};
ghost use Rattle.mol_resolve_rules.specs.ReadAs.{IsParsed};

use crate::fault::{ReadFault, SourceFault};
use crate::refusing::{refused, refused_names};
use jav_source::{TextFault, UnitFault, unit_of};
use mol_base::{File, List, Which};
use mol_resolve::{SourceUnit, resolve_units};
use mol_table::Table;
use std::alloc::Global;

/// The program that source files read as, with each name in them by identity: the one table in plain form.
///
/// `files` have paths relative to the folder of the program, no two the same, and at most the bytes of a source each. Refuses the first
/// file that is the source of no tree; where there is none, the first fault of names: by the path of its file, its place there, and the
/// order of kinds (JLS 6, 7, 8, 15). The time is near-linear in the bytes, and for each look-up of a member in the classes that it goes up.
/// The trees are let go of before the table is made, so that memory never holds both.
pub fn read_program(alloc: Global, files: &[File]) -> Result<Table, ReadFault>
    requires small { AreSmall files.now }
    requires apart { ArePathsApart (file_pairs files.now) }
    ensures read { IfOk result (IsReadAs (file_pairs files.now)) }
    ensures fault { IfErr result (Refuses (file_pairs files.now)) }
{
    let units = source_units(alloc, files)?;
    match resolve_units(alloc, units) {
        Ok(table) => Ok(table),
        Err(fault) => Err(refused_names(alloc, files, fault)),
    }
}

/// The trees of source files.
fn source_units(alloc: Global, files: &[File]) -> Result<List<SourceUnit>, ReadFault>
    requires { AreSmall files.now }
    ensures parsed { IfOk result (λ units. AreParsed (file_pairs files.now) (files_of units)) }
    ensures fault { IfErr result (Refuses (file_pairs files.now)) }
{
    let mut units = List::new(alloc);
    for file in files {
        let unit = source_unit(alloc, file)?;
        units.add(unit)?;
    }
    Ok(units)
}

/// The tree of a source file.
fn source_unit(alloc: Global, file: &File) -> Result<SourceUnit, ReadFault>
    requires { length file.now.bytes ≤ most Which.FileBytes }
    ensures parsed { IfOk result (λ source. IsParsed (text_of (file_pair file.now)) (file_of source)) }
    ensures fault { IfErr result (IsUnread (file_pair file.now)) }
{
    let path = file.path.copy(alloc)?;
    match unit_of(alloc, file.bytes.items()) {
        Ok(unit) => Ok(SourceUnit { path, unit }),
        Err(UnitFault::OutOfMemory) => Err(ReadFault::OutOfMemory),
        Err(UnitFault::Text(TextFault::Lex(fault))) => {
            Err(refused(alloc, file, SourceFault::Lex(fault)))
        }
        Err(UnitFault::Text(TextFault::Parse(fault))) => {
            Err(refused(alloc, file, SourceFault::Parse(fault)))
        }
    }
}
