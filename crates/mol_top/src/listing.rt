//! What `ids` answers: the digest of a base, and its identities.
ghost use Rattle.hex.specs.Hex.{encode_lower};
ghost use Rattle.std.specs.Prelude.{◌≡◌, ◌++◌, ◌∷◌, [], codes, IfErr, IfOk};
ghost use Rattle.mol_spell_files.specs.Bundle.{digest_of};
ghost use Rattle.mol_top.specs.Carried.{CarriesOwn, WritesOwn};
ghost use Rattle.mol_top.specs.Command.{ids_paths};
ghost use Rattle.mol_top.specs.Listing.{ids_outcome, ids_report as ids_report_of};
ghost use Rattle.mol_top.specs.Output.{IsReady, IsWork};
ghost use Rattle.mol_top.specs.Outside.{OnlyReads, store};
ghost use Rattle.mol_top.specs.Prepared.{IsStopped, Prepares};
ghost use Rattle.mol_top.specs.Words.{ids_command, ids_words};

use crate::clean_base::{clean_digest, read_base_program, rules};
use crate::command::IdsWords;
use crate::output::Work;
use crate::refusal::Refusal;
use mol_base::OutOfMemory;
use mol_outside::Files;
use mol_report::id_lines;
use mol_table::Table;
use std::alloc::Global;

/// What `ids` prints: the digest of the program below BASE, by which logs name it, and a line for each of its identities. It writes
/// nothing.
///
/// Refuses what `read_base_program` refuses, and then a program that is not clean, for its first fault.
pub fn prepare_ids<F: Files>(
    alloc: Global,
    words: IdsWords<'_>,
    files: &mut F,
) -> Result<Work, Refusal>
    ensures only_reads { OnlyReads (store F.Files files.old) (store F.Files files.new) }
    ensures ready { IfOk result IsReady }
    ensures work { IfOk result (Prepares (ids_command words.entry) (store F.Files files.old)) }
    ensures inside { IfOk result (WritesOwn (ids_paths (ids_words words.entry))) }
    ensures stop { IfErr result (IsStopped (ids_command words.entry) (store F.Files files.old) (store F.Files files.new)) }
    ensures carries { IfErr result (λ refusal. CarriesOwn (ids_paths (ids_words words.entry)) refusal.status) }
{
    let base = read_base_program(alloc, words.base, files)?;
    rules(&base.table);
    let digest = clean_digest(alloc, &base.table)?;
    match ids_work(alloc, &base.table, &digest) {
        Ok(work) => Ok(work),
        Err(OutOfMemory) => Err(Refusal::out_of_memory()),
    }
}

/// What is printed of a program with this digest.
fn ids_work(alloc: Global, table: &Table, digest: &[u8; 32]) -> Result<Work, OutOfMemory>
    requires { digest.now ≡ digest_of table.now }
    ensures { IfOk result (λ work. IsWork work (ids_outcome table.now)) }
{
    Ok(Work {
        conflicts: 0,
        files: Vec::new(alloc),
        failures: Vec::new(alloc),
        report: ids_report(alloc, table, digest)?,
    })
}

/// The digest of a program in hexadecimal, and the lines of its identities.
fn ids_report(alloc: Global, table: &Table, digest: &[u8; 32]) -> Result<Vec<u8>, OutOfMemory>
    requires { digest.now ≡ digest_of table.now }
    ensures { IfOk result (λ report. report.items ≡ ids_report_of table.now) }
{
    let mut report = digest_line(alloc, digest)?;
    report.extend_from_slice(id_lines(alloc, table)?.items())?;
    Ok(report)
}

/// The line of a digest.
fn digest_line(alloc: Global, digest: &[u8; 32]) -> Result<Vec<u8>, OutOfMemory>
    ensures { IfOk result (λ line. line.items ≡ codes "base " ++ encode_lower digest.now ++ 10 ∷ []) }
{
    let digits = hex::encode(alloc, digest)?;
    let line = format!(in alloc; "base {}\n", digits.as_str())?;
    Ok(line.into_bytes())
}
