//! Refusing, and carrying out what was made.
ghost use Rattle.std.specs.Prelude.{List as Items, ◌≡◌, ◌≤◌, ◌<◌, ℕ, length, map, take, slice_get, None, Some, IfOk, IfErr, OnOk, OnErr};
ghost use Rattle.mol_outside.specs.Contents.{HasRisen, appended};
ghost use Rattle.mol_base.specs.Files.{file_pairs};
ghost use Rattle.mol_top.specs.Output.{IsReady, below as below_of, failure_of, written_all};
ghost use Rattle.mol_top.specs.Outside.{sink, state, store};
ghost use Rattle.mol_top.specs.Report.{line_bytes, refusal_line as line_for};
ghost use Rattle.mol_top.specs.Steps.{AnsweredAs, HasPart, IsCarriedOut, IsFinal, IsLeft, IsPutOrCut, IsRefusal, IsWriteFailed, StopsAt};

use crate::Status;
use crate::refusal::Refusal;
use crate::store::join;
use mol_base::{File, List, OutOfMemory, Text};
use mol_outside::{Files, Sink};
use std::alloc::Global;

/// All that a run writes and prints, made before the first write.
#[derive(Drop)]
pub struct Work {
    /// How many conflicts there are; then no file is written.
    pub conflicts: u64,
    /// The files in the order in which they are written.
    pub files: Vec<File>,
    /// For each file the line that is printed where its write fails.
    pub failures: Vec<List<u8>>,
    pub report: Vec<u8>,
}

/// Prints the line of a refusal. It takes no memory.
pub fn refuse<S: Sink>(alloc: Global, refusal: Refusal, out: &mut S) -> Status
    requires { IsRefusal refusal.status }
    ensures answer { AnsweredAs (sink S.Sink out.old) (sink S.Sink out.new) refusal.status result }
    ensures line { IsRefusal result → S.written out.new ≡ appended (line_bytes refusal.line) (S.written out.old) }
    ensures part { IsWriteFailed result → HasPart (line_bytes refusal.line) (sink S.Sink out.old) (sink S.Sink out.new) }
    ensures later { S.faults out.old ≤ S.faults out.new }
{
    let Refusal { status, line } = refusal;
    if out.put(line.bytes()).is_ok() {
        status
    } else {
        Status::WriteFailed(Text::empty(alloc))
    }
}

/// The lines that name the files, one for each, of which a failed write prints one.
pub fn failure_lines(alloc: Global, files: &[File]) -> Result<Vec<List<u8>>, OutOfMemory>
    ensures { IfOk result (λ lines. lines.items ≡ map failure_of files.now) }
{
    let mut lines: Vec<List<u8>> = Vec::new(alloc);
    for file in files {
        let line = failure_line(alloc, &file.path)?;
        lines.push(line)?;
    }
    Ok(lines)
}

/// The line that names a file whose write failed.
fn failure_line(alloc: Global, path: &Text) -> Result<List<u8>, OutOfMemory>
    ensures { IfOk result (λ line. line ≡ line_for (Status.WriteFailed path.now)) }
{
    let line = format!(in alloc; "write-failed {}\n", path.as_str())?;
    Ok(List::from_vec(line.into_bytes()))
}

/// Puts the line that names the file of a failed write. It may be put in part.
fn put_failure<S: Sink>(lines: &[List<u8>], place: usize, out: &mut S)
    requires { place < length lines.now }
    ensures line { (line : Items ℕ) → slice_get lines.now place ≡ Some line → IsPutOrCut line (sink S.Sink out.old) (sink S.Sink out.new) }
    ensures later { S.faults out.old ≤ S.faults out.new }
{
    match out.put(lines[place].items()) {
        Ok(()) => {}
        Err(_) => {}
    }
}

/// Writes what was made, and prints the report. It takes no memory.
pub fn carry_out<F: Files, S: Sink>(alloc: Global, work: Work, files: &mut F, out: &mut S) -> Status
    requires { IsReady work }
    ensures answer { IsCarriedOut work (state F.Files S.Sink files.old out.old) (state F.Files S.Sink files.new out.new) result }
    ensures files { IsFinal result → F.holds files.new ≡ written_all (file_pairs work.files.items) (F.holds files.old) }
    ensures report { IsFinal result → S.written out.new ≡ appended work.report.items (S.written out.old) }
    ensures left { IsLeft work (state F.Files S.Sink files.old out.old) (state F.Files S.Sink files.new out.new) result }
    ensures reads { F.read_faults files.new ≡ F.read_faults files.old }
    ensures writes { F.write_faults files.old ≤ F.write_faults files.new }
    ensures later { S.faults out.old ≤ S.faults out.new }
{
    let mut work = work;
    match write_all(work.files.as_slice(), files) {
        Err(k) => {
            put_failure(work.failures.as_slice(), k, out);
            Status::WriteFailed(work.files.swap_remove(k).path)
        }
        Ok(()) => {
            if out.put(work.report.as_slice()).is_err() {
                return Status::WriteFailed(Text::empty(alloc));
            }
            if work.conflicts == 0 {
                Status::Done
            } else {
                Status::Conflicts(work.conflicts)
            }
        }
    }
}

/// Writes the files in turn. An `Err` is the place of the file whose write failed: those before it are
/// whole, and no other file was written.
pub fn write_all<F: Files>(list: &[File], files: &mut F) -> Result<(), usize>
    ensures all { OnOk result (F.holds files.new ≡ written_all (file_pairs list.now) (F.holds files.old)) }
    ensures place { IfErr result (λ k. k < length list.now) }
    ensures failed { OnErr result (HasRisen (F.write_faults files.old) (F.write_faults files.new)) }
    ensures writes { F.write_faults files.old ≤ F.write_faults files.new }
    ensures reads { F.read_faults files.new ≡ F.read_faults files.old }
    ensures part { IfErr result (λ k. StopsAt list.now k (store F.Files files.old) (store F.Files files.new)) }
{
    for (k, file) in list.iter().enumerate() {
        if files.write(&file.path, file.bytes.items()).is_err() {
            return Err(k);
        }
    }
    Ok(())
}

/// The files below a folder.
pub fn below(alloc: Global, out: &Text, files: Vec<File>) -> Result<Vec<File>, OutOfMemory>
    ensures { IfOk result (λ list. file_pairs list.items ≡ below_of out.now (file_pairs files.items)) }
{
    let mut list: Vec<File> = Vec::new(alloc);
    for file in files {
        let File { path, bytes } = file;
        let path = join(alloc, out, &path)?;
        list.push(File { path, bytes })?;
    }
    Ok(list)
}
