//! What `check` answers: whether the sources of a base are a clean program.
ghost use Rattle.std.specs.Prelude.{IfErr, IfOk};
ghost use Rattle.mol_top.specs.Carried.{CarriesOwn, WritesOwn};
ghost use Rattle.mol_top.specs.Checking.{check_outcome};
ghost use Rattle.mol_top.specs.Command.{check_paths};
ghost use Rattle.mol_top.specs.Output.{IsReady, IsWork};
ghost use Rattle.mol_top.specs.Outside.{OnlyReads, store};
ghost use Rattle.mol_top.specs.Prepared.{IsStopped, Prepares};
ghost use Rattle.mol_top.specs.Words.{check_command, check_words};

use crate::clean_base::{read_base_program, refuse_unclean_table, rules};
use crate::command::CheckWords;
use crate::output::Work;
use crate::refusal::Refusal;
use crate::report::check_report;
use mol_base::OutOfMemory;
use mol_outside::Files;
use std::alloc::Global;

/// What `check` prints. It writes nothing.
///
/// Refuses what `read_base_program` refuses, and then a program that is not clean, for its first fault.
pub fn prepare_check<F: Files>(
    alloc: Global,
    words: CheckWords<'_>,
    files: &mut F,
) -> Result<Work, Refusal>
    ensures only_reads { OnlyReads (store F.Files files.old) (store F.Files files.new) }
    ensures ready { IfOk result IsReady }
    ensures work { IfOk result (Prepares (check_command words.entry) (store F.Files files.old)) }
    ensures inside { IfOk result (WritesOwn (check_paths (check_words words.entry))) }
    ensures stop { IfErr result (IsStopped (check_command words.entry) (store F.Files files.old) (store F.Files files.new)) }
    ensures carries { IfErr result (λ refusal. CarriesOwn (check_paths (check_words words.entry)) refusal.status) }
{
    let base = read_base_program(alloc, words.base, files)?;
    rules(&base.table);
    refuse_unclean_table(alloc, &base.table)?;
    match check_work(alloc, base.files) {
        Ok(work) => Ok(work),
        Err(OutOfMemory) => Err(Refusal::out_of_memory()),
    }
}

/// The report of so many files.
fn check_work(alloc: Global, files: usize) -> Result<Work, OutOfMemory>
    ensures { IfOk result (λ work. IsWork work (check_outcome files)) }
{
    Ok(Work {
        conflicts: 0,
        files: Vec::new(alloc),
        failures: Vec::new(alloc),
        report: check_report(alloc, files)?,
    })
}
