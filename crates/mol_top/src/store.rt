//! Reading listings and files of a store. Nothing is written.
ghost use Rattle.std.specs.Prelude.{◌≡◌, ◌≤◌, ◌<◌, ◌+◌, IfOk, IfErr, OnOk, None, Some, filter, length};
ghost use Rattle.std.specs.Cmp.Lexicographic.{slice_cmp};
ghost use Rattle.std.specs.FinMap.{get};
ghost use Rattle.std.specs.List.Sorted.{IsStrictlySortedBy};
ghost use Rattle.std.specs.Ordering.{nat_cmp};
ghost use Rattle.mol_base.specs.Limits.{most};
ghost use Rattle.mol_outside.specs.Contents.{paths_below};
ghost use Rattle.mol_base.specs.Files.{ArePathsApart, AreSmall, file_pairs, file_paths};
ghost use Rattle.mol_top.specs.Answers.{limit_status, store_status};
ghost use Rattle.mol_spell_files.specs.FileLimits.{IsAbove};
ghost use Rattle.mol_top.specs.Carried.{Carries, CarriesRead, IsInside, IsSourcePath, NoPath};
ghost use Rattle.mol_top.specs.Command.{joined};
ghost use Rattle.mol_top.specs.Files.{is_java};
ghost use Rattle.mol_top.specs.Outside.{IfTold, OnlyReads, store};
ghost use Rattle.mol_top.specs.Refusals.{AreBaseFiles, AreFilesAt, absent_input, out_refusal, size_refusal};
ghost use Rattle.mol_top.specs.Steps.{IsAmong, Only, Stops, StopsBase, StopsFiles};

use crate::fault::StoreFault;
use mol_base::{File, List, OutOfMemory, Text, Which};
use mol_outside::{FileFail, Files};
use mol_spell_files::{LimitFault, fitted};
use std::alloc::Global;

/// A path below a folder: both joined by `/`.
pub fn join(alloc: Global, folder: &Text, path: &Text) -> Result<Text, OutOfMemory>
    ensures { IfOk result (λ full. full ≡ joined folder.now path.now) }
{
    let mut full = String::from_str(alloc, folder.as_str())?;
    full.push('/')?;
    full.push_str(path.as_str())?;
    Ok(Text::from_string(full))
}

/// The bytes of an input file.
pub fn read_input<F: Files>(
    alloc: Global,
    path: &Text,
    files: &mut F,
) -> Result<List<u8>, StoreFault>
    ensures only_reads { OnlyReads (store F.Files files.old) (store F.Files files.new) }
    ensures bytes { IfOk result (λ bytes. IfTold (F.holds files.old) (λ held. get held path.now ≡ Some bytes)) }
    ensures stop { IfErr result (Stops (Only path.now) (store F.Files files.old) (store F.Files files.new) (absent_input path.now)) }
    ensures carries { IfErr result (CarriesRead (Only path.now)) }
{
    match files.read(alloc, path) {
        Ok(Some(bytes)) => Ok(fitted(bytes)),
        Ok(None) => Err(StoreFault::Missing(path.copy(alloc)?)),
        Err(FileFail::Failed) => Err(StoreFault::ReadFailed(path.copy(alloc)?)),
        Err(FileFail::OutOfMemory) => Err(StoreFault::OutOfMemory),
    }
}

/// The paths of all files below a folder, relative to it, ascending.
pub fn list_folder<F: Files>(
    alloc: Global,
    folder: &Text,
    files: &mut F,
) -> Result<List<Text>, StoreFault>
    ensures only_reads { OnlyReads (store F.Files files.old) (store F.Files files.new) }
    ensures paths { IfOk result (λ paths. IfTold (F.holds files.old) (λ held. paths ≡ paths_below folder.now held)) }
    ensures ascending { IfOk result (IsStrictlySortedBy (slice_cmp nat_cmp)) }
    ensures stop { IfErr result (Stops (Only folder.now) (store F.Files files.old) (store F.Files files.new) (λ held. None)) }
    ensures carries { IfErr result (λ fault. Carries (Only folder.now) NoPath NoPath (store_status fault)) }
{
    match files.list(alloc, folder) {
        Ok(paths) => Ok(paths),
        Err(FileFail::Failed) => Err(StoreFault::ReadFailed(folder.copy(alloc)?)),
        Err(FileFail::OutOfMemory) => Err(StoreFault::OutOfMemory),
    }
}

/// Nothing lies below the folder in which files are to be written.
pub fn check_out<F: Files>(alloc: Global, out: &Text, files: &mut F) -> Result<(), StoreFault>
    ensures only_reads { OnlyReads (store F.Files files.old) (store F.Files files.new) }
    ensures free { OnOk result (IfTold (F.holds files.old) (λ held. out_refusal out.now held ≡ None)) }
    ensures stop { IfErr result (Stops (Only out.now) (store F.Files files.old) (store F.Files files.new) (out_refusal out.now)) }
    ensures carries { IfErr result (λ fault. Carries (Only out.now) NoPath (IsInside out.now) (store_status fault)) }
{
    let paths = list_folder(alloc, out, files)?;
    match paths.items().first() {
        None => Ok(()),
        Some(path) => Err(StoreFault::OutInUse(join(alloc, out, path)?)),
    }
}

/// Whether a path ends in `.java`.
fn ends_in_java(path: &[u8]) -> bool
    ensures { result ≡ is_java path.now }
{
    path.len() >= 5 && &path[path.len() - 5..] == b".java".as_slice()
}

/// Those of the paths that end in `.java`.
fn java_paths(alloc: Global, paths: &[Text]) -> Result<Vec<Text>, OutOfMemory>
    ensures { IfOk result (λ chosen. chosen.items ≡ filter is_java paths.now) }
{
    let mut chosen: Vec<Text> = Vec::new(alloc);
    for path in paths {
        if ends_in_java(path.bytes()) {
            let path = path.copy(alloc)?;
            chosen.push(path)?;
        }
    }
    Ok(chosen)
}

/// The bytes of sources and of one more together. Refuses what passes a limit.
fn with_size(total: u64, size: usize) -> Result<u64, LimitFault>
    requires { total ≤ most Which.SourceBytes }
    ensures sum { IfOk result (λ sum. (sum ≡ total + size) × (sum ≤ most Which.SourceBytes)) }
    ensures allowed { OnOk result (size_refusal total size ≡ None) }
    ensures small { OnOk result (size ≤ most Which.FileBytes) }
    ensures refused { IfErr result (λ fault. size_refusal total size ≡ Some (limit_status fault)) }
    ensures above { IfErr result IsAbove }
{
    let size = size as u64;
    if size > Which::FileBytes.most() {
        return Err(LimitFault {
            which: Which::FileBytes,
            number: size,
        });
    }
    let sum = total + size;
    if sum > Which::SourceBytes.most() {
        return Err(LimitFault {
            which: Which::SourceBytes,
            number: sum,
        });
    }
    Ok(sum)
}

/// The files at these paths below a folder, each measured once it is read.
fn read_files<F: Files>(
    alloc: Global,
    base: &Text,
    paths: Vec<Text>,
    files: &mut F,
) -> Result<Vec<File>, StoreFault>
    ensures only_reads { OnlyReads (store F.Files files.old) (store F.Files files.new) }
    ensures files { IfOk result (λ read. IfTold (F.holds files.old) (λ held. AreFilesAt base.now paths.items held read.items)) }
    ensures paths { IfOk result (λ read. file_paths read.items ≡ paths.items) }
    ensures count { IfOk result (λ read. length read.items ≡ length paths.items) }
    ensures sizes { IfOk result (λ read. AreSmall read.items) }
    ensures stop { IfErr result (StopsFiles base.now paths.items (store F.Files files.old) (store F.Files files.new)) }
    ensures carries { IfErr result (CarriesRead (IsAmong base.now paths.items)) }
{
    let mut read: Vec<File> = Vec::new(alloc);
    let mut total = 0;
    for path in paths {
        let full = join(alloc, base, &path)?;
        let bytes = read_input(alloc, &full, files)?;
        total = with_size(total, bytes.items().len())?;
        read.push(File { path, bytes })?;
    }
    Ok(read)
}

/// The files of a base: those below it that end in `.java`, in the order of their paths.
pub fn read_base<F: Files>(
    alloc: Global,
    base: &Text,
    files: &mut F,
) -> Result<Vec<File>, StoreFault>
    ensures only_reads { OnlyReads (store F.Files files.old) (store F.Files files.new) }
    ensures base { IfOk result (λ read. IfTold (F.holds files.old) (λ held. AreBaseFiles base.now held read.items)) }
    ensures few { IfOk result (λ read. (0 < length read.items) × (length read.items ≤ most Which.Files)) }
    ensures apart { IfOk result (λ read. ArePathsApart (file_pairs read.items)) }
    ensures sizes { IfOk result (λ read. AreSmall read.items) }
    ensures stop { IfErr result (StopsBase base.now (store F.Files files.old) (store F.Files files.new)) }
    ensures carries { IfErr result (CarriesRead (IsSourcePath base.now)) }
{
    let listed = list_folder(alloc, base, files)?;
    let paths = java_paths(alloc, listed.items())?;
    if paths.is_empty() {
        return Err(StoreFault::Missing(base.copy(alloc)?));
    }
    let count = paths.len() as u64;
    if count > Which::Files.most() {
        return Err(StoreFault::Limit(LimitFault {
            which: Which::Files,
            number: count,
        }));
    }
    let read = read_files(alloc, base, paths, files)?;
    Ok(read)
}
