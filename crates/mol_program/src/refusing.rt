//! Refusals of source files, each with its place.
ghost use Rattle.std.specs.Prelude.{◌≡◌, ◌≤◌, length};
ghost use Rattle.mol_base.specs.Limits.{most};
ghost use Rattle.mol_base.specs.Lines.{column, line};
ghost use Rattle.mol_program.specs.FaultTexts.{place_at};
ghost use Rattle.mol_base.specs.Files.{AreSmall, file_pair, file_pairs};
ghost use Rattle.mol_program.specs.Programs.{IsRefusedFor, IsWrongWith, Refuses, ReportsNames};

use crate::fault::{ReadFault, SourceFault};
use jav_source::{TextFault, line_and_column_of};
use mol_base::{File, OutOfMemory, Place, Which, line_and_column};
use mol_resolve_faults::ResolveFault;
use std::alloc::Global;

/// A file that is refused for this fault.
pub(crate) fn refused(alloc: Global, file: &File, fault: SourceFault) -> ReadFault
    requires small { length file.now.bytes ≤ most Which.FileBytes }
    requires fault { IsWrongWith file.now.bytes fault }
    ensures { IsRefusedFor (file_pair file.now) fault result }
{
    let (line, column) = line_and_column_in(file.bytes.items(), &fault);
    match file.path.copy(alloc) {
        Ok(file) => ReadFault::Refused(Place { file, line, column }, fault),
        Err(OutOfMemory) => ReadFault::OutOfMemory,
    }
}

/// The line and the column of a fault in the bytes of its file. Both count from 1, the column in characters.
fn line_and_column_in(bytes: &[u8], fault: &SourceFault) -> (u32, u32)
    requires small { length bytes.now ≤ most Which.FileBytes }
    requires fault { IsWrongWith bytes.now fault.now }
    ensures line { result.0 ≡ line bytes.now (place_at bytes.now fault.now) }
    ensures column { result.1 ≡ column bytes.now (place_at bytes.now fault.now) }
{
    match fault {
        SourceFault::Lex(fault) => line_and_column_of(bytes, &TextFault::Lex(*fault)),
        SourceFault::Parse(fault) => line_and_column_of(bytes, &TextFault::Parse(*fault)),
        SourceFault::Resolve(fault) => {
            let at = fault.place().at as usize;
            line_and_column(bytes, at.min(bytes.len()))
        },
    }
}

/// What is answered to the first fault of names of these files, or to want of memory.
pub(crate) fn refused_names(alloc: Global, files: &[File], fault: ResolveFault) -> ReadFault
    requires small { AreSmall files.now }
    requires fault { ReportsNames (file_pairs files.now) fault }
    ensures { Refuses (file_pairs files.now) result }
{
    match fault {
        ResolveFault::OutOfMemory => ReadFault::OutOfMemory,
        fault => {
            let file = &files[fault.place().unit as usize];
            refused(alloc, file, SourceFault::Resolve(fault))
        },
    }
}
