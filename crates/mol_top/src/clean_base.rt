//! Bases that are programs, and whether these are clean.
ghost use Rattle.std.specs.Prelude.{◌≡◌, IfErr, IfOk, OnOk, Some};
ghost use Rattle.mol_faults_rules.specs.Kept.{kept_fault};
ghost use Rattle.mol_faults.specs.First.{IsFirst};
ghost use Rattle.mol_log_rules.specs.Living.{HasNoDead};
ghost use Rattle.mol_base.specs.Files.{ArePathsApart, AreSmall, file_pairs};
ghost use Rattle.mol_report.specs.FaultText.{fault_text};
ghost use Rattle.mol_spell_files.specs.Bundle.{digest_of};
ghost use Rattle.mol_spell_rules.specs.Clean.{Clean};
ghost use Rattle.mol_table_rules.specs.Rules.{IsProgram as KeepsRules};
ghost use Rattle.mol_table_rules.specs.Tidy.{tidy};
ghost use Rattle.mol_top.specs.CleanBases.{CarriesBase, IsBaseStopped, IsProgramOf, IsReadOf};
ghost use Rattle.mol_top.specs.Outside.{IfTold, OnlyReads, store};
ghost use Rattle.mol_top.specs.Refused.{IsRefusalOfFiles, IsRefusalOfProgram};
ghost use Rattle.mol_top.specs.Report.{base_line};

use crate::refusal::{Line, Refusal};
use crate::status::{BaseFault, Status};
use crate::store::read_base;
use mol_base::{File, OutOfMemory, Text};
use mol_faults::first_fault_of_tidied;
use mol_faults_rules::Fault;
use mol_outside::Files;
use mol_program::read_program;
use mol_report::fault_line;
use mol_spell_files::{digest_of_files, program_files};
use mol_spell_names::ProgramIndex;
use mol_table::Table;
use std::alloc::Global;

/// The program that the sources below a folder are.
#[derive(Drop)]
pub struct BaseProgram {
    pub table: Table,
    /// How many files there are.
    pub files: usize,
}

/// The program of a base, clean or not.
///
/// Refuses, in this order, what the reading of a base refuses, the first file that is no source, and the first fault of names. The time is
/// near-linear in the bytes of the sources, and for each look-up of a member in the classes that it goes up.
pub fn read_base_program<F: Files>(
    alloc: Global,
    base: &Text,
    files: &mut F,
) -> Result<BaseProgram, Refusal>
    ensures only_reads { OnlyReads (store F.Files files.old) (store F.Files files.new) }
    ensures base { IfOk result (λ read. IfTold (F.holds files.old) (λ held. IsReadOf base.now held read)) }
    ensures tidied { IfOk result (λ read. tidy read.table ≡ read.table) }
    ensures alive { IfOk result (λ read. HasNoDead read.table) }
    ensures stop { IfErr result (IsBaseStopped base.now (store F.Files files.old) (store F.Files files.new)) }
    ensures carries { IfErr result (λ refusal. CarriesBase base.now refusal.status) }
{
    match read_base(alloc, base, files) {
        Ok(read) => base_program(alloc, read.as_slice()),
        Err(fault) => Err(Refusal::of(alloc, Status::from(fault))),
    }
}

/// The program of these files.
pub fn base_program(alloc: Global, read: &[File]) -> Result<BaseProgram, Refusal>
    requires small { AreSmall read.now }
    requires apart { ArePathsApart (file_pairs read.now) }
    ensures program { IfOk result (IsProgramOf (file_pairs read.now)) }
    ensures alive { IfOk result (λ read. HasNoDead read.table) }
    ensures stop { IfErr result (IsRefusalOfFiles (file_pairs read.now)) }
{
    match read_program(alloc, read) {
        Ok(table) => Ok(BaseProgram {
            table,
            files: read.len(),
        }),
        Err(fault) => Err(Refusal::of(alloc, Status::from(fault))),
    }
}

/// The rules of programs hold of each table. The call does nothing.
pub fn rules(table: &Table)
    ensures { KeepsRules table.now }
{
    let _ = table.ids();
}

/// Refuses a program that is not clean, for its first fault. It makes the indexes of the program for this alone.
pub fn refuse_unclean_table(alloc: Global, table: &Table) -> Result<(), Refusal>
    requires { tidy table.now ≡ table.now }
    ensures clean { OnOk result (Clean table.now) }
    ensures stop { IfErr result (IsRefusalOfProgram table.now) }
{
    match ProgramIndex::new(alloc, table) {
        Ok(program) => refuse_unclean(alloc, &program),
        Err(OutOfMemory) => Err(Refusal::out_of_memory()),
    }
}

/// Refuses a program that is not clean, for its first fault.
pub fn refuse_unclean(alloc: Global, program: &ProgramIndex<'_>) -> Result<(), Refusal>
    requires { tidy program.now ≡ program.now }
    ensures clean { OnOk result (Clean program.now) }
    ensures stop { IfErr result (IsRefusalOfProgram program.now) }
{
    match first_fault_of_tidied(alloc, program) {
        Ok(None) => Ok(()),
        Ok(Some(fault)) => Err(unclean(alloc, program.table(), fault)),
        Err(OutOfMemory) => Err(Refusal::out_of_memory()),
    }
}

/// The refusal of a program for a fault. Its line names addresses of the program.
fn unclean(alloc: Global, table: &Table, fault: Fault) -> Refusal
    requires { IsFirst table.now (Some (kept_fault fault)) }
    ensures { IsRefusalOfProgram table.now result }
{
    match unclean_line(alloc, table, &fault) {
        Ok(line) => Refusal {
            status: Status::BaseRefused(BaseFault::Unclean(fault)),
            line: Line::Made(line),
        },
        Err(OutOfMemory) => Refusal::out_of_memory(),
    }
}

/// The line of a program that is refused for a fault.
fn unclean_line(alloc: Global, table: &Table, fault: &Fault) -> Result<Vec<u8>, OutOfMemory>
    ensures { IfOk result (λ line. line.items ≡ base_line (fault_text table.now (kept_fault fault.now))) }
{
    let mut line = Vec::from_slice(alloc, b"base ")?;
    line.extend_from_slice(fault_line(alloc, table, fault)?.items())?;
    line.push(b'\n')?;
    Ok(line)
}

/// The digest of a program, by which a log names its base. Refuses a program that is not clean, for its first fault. The indexes of the
/// program are made once, for its faults and for its files.
pub fn clean_digest(alloc: Global, table: &Table) -> Result<[u8; 32], Refusal>
    requires { tidy table.now ≡ table.now }
    ensures clean { OnOk result (Clean table.now) }
    ensures digest { IfOk result (λ digest. digest ≡ digest_of table.now) }
    ensures stop { IfErr result (IsRefusalOfProgram table.now) }
{
    match ProgramIndex::new(alloc, table) {
        Ok(program) => index_digest(alloc, &program),
        Err(OutOfMemory) => Err(Refusal::out_of_memory()),
    }
}

/// The same by the indexes of the program.
fn index_digest(alloc: Global, program: &ProgramIndex<'_>) -> Result<[u8; 32], Refusal>
    requires { tidy program.now ≡ program.now }
    ensures clean { OnOk result (Clean program.now) }
    ensures digest { IfOk result (λ digest. digest ≡ digest_of program.now) }
    ensures stop { IfErr result (IsRefusalOfProgram program.now) }
{
    refuse_unclean(alloc, program)?;
    match files_digest(alloc, program) {
        Ok(digest) => Ok(digest),
        Err(OutOfMemory) => Err(Refusal::out_of_memory()),
    }
}

/// The digest of the files of a program.
fn files_digest(alloc: Global, program: &ProgramIndex<'_>) -> Result<[u8; 32], OutOfMemory>
    requires { tidy program.now ≡ program.now }
    ensures { IfOk result (λ digest. digest ≡ digest_of program.now) }
{
    let files = program_files(alloc, program)?;
    digest_of_files(alloc, files.texts.as_slice())
}
