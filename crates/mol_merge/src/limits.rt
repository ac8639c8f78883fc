//! What is written of a merge, within its limits.
ghost use Rattle.std.specs.Prelude.{◌≡◌, ◌≤◌, ◌++◌, None, Some, IfErr, IfOk, OnOk, length};
ghost use Rattle.mol_base.specs.Files.{file_pairs};
ghost use Rattle.mol_base.specs.Limits.{most};
ghost use Rattle.mol_base.specs.declared.limit.Which.TheVariants.{Operations};
ghost use Rattle.mol_log.specs.Written.{written};
ghost use Rattle.mol_merge.specs.Outcomes.{IsPassed, IsPassing, log_limit, long_log, many_entries};
ghost use Rattle.mol_merge_rules.specs.TwoLogs.{IsMergedLog, ShareNoTag};
ghost use Rattle.mol_spell_files.specs.FileLimits.{IsAbove, files_limit};
ghost use Rattle.mol_spell_files.specs.ProgramTexts.{program_heights, program_texts};
ghost use Rattle.mol_table_rules.specs.Tidy.{tidy};

use crate::merged_log::merged_log;
use crate::outcome::MergeFault;
use mol_base::{File, List, OutOfMemory, Which};
use mol_log::{Log, write_log};
use mol_spell_files::{LimitFault, program_files, refuse_large};
use mol_spell_names::ProgramIndex;
use mol_table::Table;
use std::alloc::Global;

/// The files of a program, where none of their numbers passes a limit of a result. The program is let go of once it is tidied.
pub fn files_within(alloc: Global, program: Table) -> Result<List<File>, MergeFault>
    ensures texts { IfOk result (λ files. file_pairs files ≡ program_texts program) }
    ensures allowed { OnOk result (files_limit (program_texts program) (program_heights program) ≡ None) }
    ensures refused { IfErr result (IsPassing (files_limit (program_texts program) (program_heights program))) }
    ensures above { IfErr result IsPassed }
{
    let tidied = tidied_of(alloc, program)?;
    files_of_tidied(alloc, &tidied)
}

/// A program tidied.
fn tidied_of(alloc: Global, program: Table) -> Result<Table, OutOfMemory>
    ensures is { IfOk result (λ tidied. tidied ≡ tidy program) }
    ensures tidied { IfOk result (λ tidied. tidy tidied ≡ tidied) }
{
    program.tidy(alloc)
}

/// The files of a program that is tidied, where none of their numbers passes a limit.
fn files_of_tidied(alloc: Global, tidied: &Table) -> Result<List<File>, MergeFault>
    requires { tidy tidied.now ≡ tidied.now }
    ensures texts { IfOk result (λ files. file_pairs files ≡ program_texts tidied.now) }
    ensures allowed { OnOk result (files_limit (program_texts tidied.now) (program_heights tidied.now) ≡ None) }
    ensures refused { IfErr result (IsPassing (files_limit (program_texts tidied.now) (program_heights tidied.now))) }
    ensures above { IfErr result IsPassed }
{
    let program = ProgramIndex::new(alloc, tidied)?;
    files_of_program(alloc, &program)
}

/// The same, by the indexes of the program.
fn files_of_program(alloc: Global, program: &ProgramIndex<'_>) -> Result<List<File>, MergeFault>
    requires { tidy program.now ≡ program.now }
    ensures texts { IfOk result (λ files. file_pairs files ≡ program_texts program.now) }
    ensures allowed { OnOk result (files_limit (program_texts program.now) (program_heights program.now) ≡ None) }
    ensures refused { IfErr result (IsPassing (files_limit (program_texts program.now) (program_heights program.now))) }
    ensures above { IfErr result IsPassed }
{
    let files = program_files(alloc, program)?;
    refuse_large(files.texts.as_slice(), files.heights.as_slice())?;
    Ok(List::from_vec(files.texts))
}

/// The log of two that share no tag, where neither its entries nor the bytes of its written form pass a limit.
pub fn log_within(alloc: Global, one: &Log, other: &Log) -> Result<Log, MergeFault>
    requires { ShareNoTag one.now other.now }
    ensures merged { IfOk result (IsMergedLog one.now other.now) }
    ensures allowed { OnOk result (log_limit one.now other.now ≡ None) }
    ensures refused { IfErr result (IsPassing (log_limit one.now other.now)) }
    ensures above { IfErr result IsPassed }
{
    refuse_many(one, other)?;
    let merged = merged_log(alloc, one, other)?;
    refuse_long(alloc, &merged)?;
    Ok(merged)
}

/// Refuses more entries than a log may have.
fn refuse_many(one: &Log, other: &Log) -> Result<(), LimitFault>
    ensures few { OnOk result (length (one.now.entries ++ other.now.entries) ≤ most Operations) }
    ensures allowed { OnOk result (many_entries one.now other.now ≡ None) }
    ensures refused { IfErr result (λ fault. many_entries one.now other.now ≡ Some fault) }
    ensures above { IfErr result IsAbove }
{
    let number = one.entries.items().len() as u64 + other.entries.items().len() as u64;
    if number > Which::Operations.most() {
        return Err(LimitFault {
            which: Which::Operations,
            number,
        });
    }
    Ok(())
}

/// Refuses a log whose written form has more bytes than that of a log may have.
fn refuse_long(alloc: Global, log: &Log) -> Result<(), MergeFault>
    ensures allowed { OnOk result (long_log (written log.now) ≡ None) }
    ensures refused { IfErr result (IsPassing (long_log (written log.now))) }
    ensures above { IfErr result IsPassed }
{
    let text = write_log(alloc, log)?;
    refuse_long_text(text.items())?;
    Ok(())
}

/// Refuses more bytes than a log may have.
fn refuse_long_text(text: &[u8]) -> Result<(), LimitFault>
    ensures allowed { OnOk result (long_log text.now ≡ None) }
    ensures refused { IfErr result (λ fault. long_log text.now ≡ Some fault) }
    ensures above { IfErr result IsAbove }
{
    let number = text.len() as u64;
    if number > Which::LogBytes.most() {
        return Err(LimitFault {
            which: Which::LogBytes,
            number,
        });
    }
    Ok(())
}
