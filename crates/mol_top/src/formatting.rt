//! What `fmt` writes: the program of a base as source files in the one layout.
ghost use Rattle.std.specs.Prelude.{◌≡◌, IfErr, IfOk};
ghost use Rattle.mol_base.specs.Files.{file_pairs};
ghost use Rattle.mol_table_rules.specs.Tidy.{tidy};
ghost use Rattle.mol_top.specs.Answers.{store_status};
ghost use Rattle.mol_top.specs.Carried.{Carries, CarriesOwn, IsInside, NoPath, WritesInside, WritesOwn};
ghost use Rattle.mol_top.specs.Command.{fmt_paths};
ghost use Rattle.mol_top.specs.Formatting.{IsTextWork, MakesFiles, output_refusal};
ghost use Rattle.mol_top.specs.Output.{IsReady};
ghost use Rattle.mol_top.specs.Outside.{IfTold, OnlyReads, store};
ghost use Rattle.mol_top.specs.Prepared.{IsStopped, Prepares};
ghost use Rattle.mol_top.specs.ProgramWork.{IsCleanWork, IsFilesWork, IsProgramStopped, StopsLarge};
ghost use Rattle.mol_top.specs.Steps.{Only, Stops};
ghost use Rattle.mol_top.specs.Words.{fmt_command, fmt_words};

use crate::clean_base::{read_base_program, refuse_unclean, rules};
use crate::command::FmtWords;
use crate::fault::StoreFault;
use crate::output::{Work, below, failure_lines};
use crate::refusal::Refusal;
use crate::report::fmt_report;
use crate::status::Status;
use crate::store::check_out;
use mol_base::{File, OutOfMemory, Text};
use mol_outside::Files;
use mol_spell_files::{ProgramFiles, program_files, refuse_large};
use mol_spell_names::ProgramIndex;
use mol_table::Table;
use std::alloc::Global;

/// All that `fmt` writes and prints: the files of the program below BASE, below OUT.
///
/// Refuses, in this order, what `read_base_program` refuses, a program that is not clean, for its first fault, a folder OUT that is in use,
/// and files that pass a limit. The time is near-linear in the bytes of the sources and of the files, but for what names cost.
pub fn prepare_fmt<F: Files>(
    alloc: Global,
    words: FmtWords<'_>,
    files: &mut F,
) -> Result<Work, Refusal>
    ensures only_reads { OnlyReads (store F.Files files.old) (store F.Files files.new) }
    ensures ready { IfOk result IsReady }
    ensures work { IfOk result (Prepares (fmt_command words.entry) (store F.Files files.old)) }
    ensures inside { IfOk result (WritesOwn (fmt_paths (fmt_words words.entry))) }
    ensures stop { IfErr result (IsStopped (fmt_command words.entry) (store F.Files files.old) (store F.Files files.new)) }
    ensures carries { IfErr result (λ refusal. CarriesOwn (fmt_paths (fmt_words words.entry)) refusal.status) }
{
    let base = read_base_program(alloc, words.base, files)?;
    rules(&base.table);
    program_work(alloc, words.out, &base.table, files)
}

/// All that is written and printed of a program below a folder. The indexes of the program are made once, for its faults and for its files.
fn program_work<F: Files>(
    alloc: Global,
    out: &Text,
    table: &Table,
    files: &mut F,
) -> Result<Work, Refusal>
    requires { tidy table.now ≡ table.now }
    ensures only_reads { OnlyReads (store F.Files files.old) (store F.Files files.new) }
    ensures ready { IfOk result IsReady }
    ensures work { IfOk result (IsCleanWork out.now table.now (store F.Files files.old)) }
    ensures inside { IfOk result (WritesInside out.now) }
    ensures stop { IfErr result (IsProgramStopped out.now table.now (store F.Files files.old) (store F.Files files.new)) }
{
    match ProgramIndex::new(alloc, table) {
        Ok(program) => clean_work(alloc, out, &program, files),
        Err(OutOfMemory) => Err(Refusal::out_of_memory()),
    }
}

/// All that is written and printed of a program, unless it is not clean.
fn clean_work<F: Files>(
    alloc: Global,
    out: &Text,
    program: &ProgramIndex<'_>,
    files: &mut F,
) -> Result<Work, Refusal>
    requires { tidy program.now ≡ program.now }
    ensures only_reads { OnlyReads (store F.Files files.old) (store F.Files files.new) }
    ensures ready { IfOk result IsReady }
    ensures work { IfOk result (IsCleanWork out.now program.now (store F.Files files.old)) }
    ensures inside { IfOk result (WritesInside out.now) }
    ensures stop { IfErr result (IsProgramStopped out.now program.now (store F.Files files.old) (store F.Files files.new)) }
{
    refuse_unclean(alloc, program)?;
    match formatted(alloc, out, program, files) {
        Ok(work) => Ok(work),
        Err(fault) => Err(Refusal::of(alloc, Status::from(fault))),
    }
}

/// All that is written and printed of a clean program.
fn formatted<F: Files>(
    alloc: Global,
    out: &Text,
    program: &ProgramIndex<'_>,
    files: &mut F,
) -> Result<Work, StoreFault>
    requires { tidy program.now ≡ program.now }
    ensures only_reads { OnlyReads (store F.Files files.old) (store F.Files files.new) }
    ensures ready { IfOk result IsReady }
    ensures work { IfOk result (λ work. IfTold (F.holds files.old) (λ held. MakesFiles out.now program.now held work)) }
    ensures inside { IfOk result (WritesInside out.now) }
    ensures stop { IfErr result (Stops (Only out.now) (store F.Files files.old) (store F.Files files.new)
        (output_refusal out.now program.now)) }
    ensures carries { IfErr result (λ fault. Carries (Only out.now) NoPath (IsInside out.now) (store_status fault)) }
{
    check_out(alloc, out, files)?;
    files_work(alloc, out, program)
}

/// All that is written and printed of a program below a folder, unless its files pass a limit.
pub fn files_work(alloc: Global, out: &Text, program: &ProgramIndex<'_>) -> Result<Work, StoreFault>
    requires { tidy program.now ≡ program.now }
    ensures ready { IfOk result IsReady }
    ensures work { IfOk result (IsFilesWork out.now program.now) }
    ensures inside { IfOk result (WritesInside out.now) }
    ensures stop { IfErr result (StopsLarge program.now) }
    ensures carries { IfErr result (λ fault. Carries NoPath NoPath NoPath (store_status fault)) }
{
    let ProgramFiles { texts, heights } = program_files(alloc, program)?;
    refuse_large(texts.as_slice(), heights.as_slice())?;
    Ok(text_work(alloc, out, texts)?)
}

/// What is written and printed of these texts, below a folder.
fn text_work(alloc: Global, out: &Text, texts: Vec<File>) -> Result<Work, OutOfMemory>
    ensures { IfOk result (IsTextWork out.now (file_pairs texts.items)) }
{
    let report = fmt_report(alloc, texts.len())?;
    let files = below(alloc, out, texts)?;
    let failures = failure_lines(alloc, files.as_slice())?;
    Ok(Work {
        conflicts: 0,
        files,
        failures,
        report,
    })
}
