//! Bases of which the sources are kept, so that a table that is used up can be read again.
ghost use Rattle.std.specs.Prelude.{◌≡◌, IfErr, IfOk};
ghost use Rattle.mol_base.specs.Files.{ArePathsApart, AreSmall, file_pairs};
ghost use Rattle.mol_table_rules.specs.Program.{Program};
ghost use Rattle.mol_table_rules.specs.Tidy.{tidy};
ghost use Rattle.mol_top.specs.Bases.{IsBaseOf};
ghost use Rattle.mol_top.specs.CleanBases.{CarriesBase, IsBaseStopped};
ghost use Rattle.mol_top.specs.KeptBases.{AreSources, IsKept};
ghost use Rattle.mol_top.specs.Outside.{IfTold, OnlyReads, store};
ghost use Rattle.mol_top.specs.Refused.{IsRefusalOfFiles};

use crate::clean_base::base_program;
use crate::refusal::Refusal;
use crate::status::Status;
use crate::store::read_base;
use mol_base::{File, OutOfMemory, Text};
use mol_outside::Files;
use mol_program::read_program;
use mol_table::Table;
use std::alloc::Global;

/// The program that the sources below a folder are, and these sources.
#[derive(Drop)]
pub struct KeptBase {
    pub sources: Vec<File>,
    pub table: Table,
}

/// The program of a base, clean or not, with its sources. It refuses what `read_base_program` refuses, in the same time.
pub fn read_kept_base<F: Files>(
    alloc: Global,
    base: &Text,
    files: &mut F,
) -> Result<KeptBase, Refusal>
    ensures only_reads { OnlyReads (store F.Files files.old) (store F.Files files.new) }
    ensures base { IfOk result (λ kept. IfTold (F.holds files.old) (λ held. IsBaseOf base.now held kept.table)) }
    ensures tidied { IfOk result (λ kept. tidy kept.table ≡ kept.table) }
    ensures sources { IfOk result (λ kept. AreSources kept.sources.items kept.table) }
    ensures stop { IfErr result (IsBaseStopped base.now (store F.Files files.old) (store F.Files files.new)) }
    ensures carries { IfErr result (λ refusal. CarriesBase base.now refusal.status) }
{
    match read_base(alloc, base, files) {
        Ok(sources) => kept_program(alloc, sources),
        Err(fault) => Err(Refusal::of(alloc, Status::from(fault))),
    }
}

/// The program of these sources, with them.
fn kept_program(alloc: Global, sources: Vec<File>) -> Result<KeptBase, Refusal>
    requires small { AreSmall sources.items }
    requires apart { ArePathsApart (file_pairs sources.items) }
    ensures kept { IfOk result (IsKept sources.items) }
    ensures stop { IfErr result (IsRefusalOfFiles (file_pairs sources.items)) }
{
    match base_program(alloc, sources.as_slice()) {
        Ok(read) => Ok(KeptBase {
            sources,
            table: read.table,
        }),
        Err(refusal) => Err(refusal),
    }
}

/// The program of which these are the sources, read again from them.
pub fn read_again(alloc: Global, sources: &[File]) -> Result<Table, OutOfMemory>
    requires small { AreSmall sources.now }
    requires apart { ArePathsApart (file_pairs sources.now) }
    ensures { IfOk result (λ table. (base : Program) → AreSources sources.now base → table ≡ base) }
{
    match read_program(alloc, sources) {
        Ok(table) => Ok(table),
        // What reads as a program once does so each time: it is want of memory.
        Err(_) => Err(OutOfMemory),
    }
}
