//! Real folders: nothing is told of what they hold.
ghost use Rattle.std.specs.Prelude.{◌≡◌, ◌≤◌, IfOk, IfSome, OnOk, OnErr, IsErrOf};
ghost use Rattle.std.specs.List.Sorted.{IsStrictlySortedBy};
ghost use Rattle.std.specs.Ordering.{nat_cmp};
ghost use Rattle.std.specs.Cmp.Lexicographic.{slice_cmp};
ghost use Rattle.std.specs.FinMap.{get};
ghost use Rattle.mol_outside.specs.Contents.{HasRisen, paths_below, raised, untold, written_at};

use crate::{Failed, FileFail, Files};
use mol_base::{List, OutOfMemory, Text};
use std::alloc::{AllocError, Global};
use std::fs::OpenFile;
use std::io::{ErrorKind, Read, Write};
use std::marker::Model;
use std::path::AsPath;
use std::rt::Runtime;
use std::{fs, io};

/// How many turns the reading or the writing of one file takes at most.
const MOST_TURNS: u32 = 2_147_483_648;

/// How many entries a listing visits.
const MOST_ENTRIES: u32 = 1_048_576;

/// The files of the system. Paths are as the system reads them, from the folder that the program runs in.
///
/// A file is a regular file, and a link counts as what it leads to. A pipe, a device and a socket are no
/// files: they are not listed and not opened, a read finds no file there, and a write there fails. So is
/// a link that leads to nothing no file. A listing goes into linked folders too.
///
/// A listing fails past 1,048,576 entries, and at a name that is not UTF-8. A file is read or written piece
/// by piece, none of them empty but the last, and a call fails past 2,147,483,648 pieces. What the system
/// refuses is a failed call, for whatever cause. Want of memory of this program in a write is a failed
/// write; in a listing or a read it is `FileFail::OutOfMemory` and raises no count.
#[derive(Drop)]
pub struct DirFiles<'a, R> {
    rt: &'a R,
    reads: u64,
    writes: u64,
}

impl<'a, R> Model for DirFiles<'a, R> {
    ghost use Rattle.mol_outside.specs.Contents.{FaultCounts};

    ghost Value = { FaultCounts };

    ghost view = { λ d. record { reads = d.reads; writes = d.writes } };
}

impl<'a, R> DirFiles<'a, R> {
    /// The files of the system, with no failed call counted yet. It takes no memory.
    pub fn new(rt: &'a R) -> DirFiles<'a, R>
        ensures { result ≡ record { reads = 0; writes = 0 } }
    {
        DirFiles {
            rt,
            reads: 0,
            writes: 0,
        }
    }
}

impl From<io::Error> for FileFail {
    ghost use Rattle.std.specs.Prelude.{◌≡◌, IsSome};
    ghost use Rattle.std.specs.IoError.{raw_os_error};
    ghost use Rattle.mol_outside.specs.declared.outside.FileFail.TheVariants.{Failed as Fails};

    // what the system refuses is a failed call, for whatever cause
    ghost from_gives = { λ error fail. IsSome (raw_os_error error) → fail ≡ Fails };

    fn from(error: io::Error) -> FileFail {
        if error.raw_os_error().is_none() && error.kind() == ErrorKind::OutOfMemory {
            FileFail::OutOfMemory
        } else {
            FileFail::Failed
        }
    }
}

/// All bytes of an open file, in at most 2^31 turns.
fn read_all<F: Read>(file: &mut F, alloc: Global) -> Result<List<u8>, FileFail> {
    let mut bytes: Vec<u8> = Vec::new(alloc);
    let mut turn = [0u8; 4096];
    for _ in 0u32..MOST_TURNS {
        let taken = file.read(&mut turn)?;
        if taken == 0 {
            return Ok(List::from_vec(bytes));
        }
        bytes.extend_from_slice(&turn[..taken])?;
    }
    Err(FileFail::Failed)
}

/// What stands at a path. A link counts as what it leads to.
#[derive(Clone, Copy, Debug, PartialEq, Eq)]
enum Standing {
    Nothing,
    File,
    Folder,
    /// A pipe, a device or a socket.
    Special,
}

/// What stands at a path.
fn standing_at<R: Runtime, P: AsPath>(rt: &R, path: P) -> io::Result<Standing> {
    match fs::metadata(rt, path) {
        Ok(found) if found.is_file() => Ok(Standing::File),
        Ok(found) if found.is_dir() => Ok(Standing::Folder),
        Ok(_) => Ok(Standing::Special),
        Err(error) if error.kind() == ErrorKind::NotFound => Ok(Standing::Nothing),
        Err(error) => Err(error),
    }
}

/// All bytes of the file at a path, and `None` where there is no file. A folder fails.
fn read_file<R: Runtime>(rt: &R, alloc: Global, path: &Text) -> Result<Option<List<u8>>, FileFail> {
    match standing_at(rt, path.as_str())? {
        Standing::Nothing | Standing::Special => Ok(None),
        Standing::Folder => Err(FileFail::Failed),
        Standing::File => {
            let mut file = fs::open(rt, path.as_str())?;
            Ok(Some(read_all(&mut file, alloc)?))
        }
    }
}

/// Adds the files below `folder` to `files` and the folders to `folders`, all relative to the root.
fn scan<R: Runtime>(
    rt: &R,
    alloc: Global,
    root: &str,
    folder: &str,
    files: &mut Vec<Text>,
    folders: &mut Vec<String>,
    left: &mut u32,
) -> Result<(), FileFail> {
    let here = joined(alloc, root, folder)?;
    let entries = match fs::read_dir(rt, here.as_str()) {
        Ok(entries) => entries,
        Err(error) if error.kind() == ErrorKind::NotFound && folder.is_empty() => return Ok(()),
        Err(error) => return Err(FileFail::from(error)),
    };
    for entry in entries {
        if *left == 0 {
            return Err(FileFail::Failed);
        }
        *left -= 1;
        let entry = entry?;
        let path = joined(alloc, folder, entry.file_name())?;
        match standing_at(rt, entry.path())? {
            Standing::Folder => folders.push(path)?,
            Standing::File => files.push(Text::from_string(path))?,
            Standing::Nothing | Standing::Special => (),
        }
    }
    Ok(())
}

/// `folder/name`, or the name alone.
fn joined(alloc: Global, folder: &str, name: &str) -> Result<String, OutOfMemory> {
    let mut path = String::from_str(alloc, folder)?;
    if !folder.is_empty() && !name.is_empty() {
        path.push('/')?;
    }
    path.push_str(name)?;
    Ok(path)
}

/// The files below a folder in any order, relative to it. An absent folder has none.
fn walk<R: Runtime>(rt: &R, alloc: Global, root: &str) -> Result<Vec<Text>, FileFail> {
    let mut files = Vec::new(alloc);
    let mut folders: Vec<String> = Vec::new(alloc);
    let mut left = MOST_ENTRIES;
    scan(rt, alloc, root, "", &mut files, &mut folders, &mut left)?;
    for _ in 0..=MOST_ENTRIES {
        match folders.pop() {
            None => return Ok(files),
            Some(folder) => scan(
                rt,
                alloc,
                root,
                folder.as_str(),
                &mut files,
                &mut folders,
                &mut left,
            )?,
        }
    }
    Err(FileFail::Failed)
}

/// In order, and each path once.
fn ordered(mut files: Vec<Text>) -> Result<List<Text>, AllocError>
    ensures { IfOk result (IsStrictlySortedBy (slice_cmp nat_cmp)) }
{
    files.sort()?;
    files.dedup();
    Ok(List::from_vec(files))
}

/// The files below a folder, in order.
fn list_files<R: Runtime>(rt: &R, alloc: Global, folder: &Text) -> Result<List<Text>, FileFail>
    ensures { IfOk result (IsStrictlySortedBy (slice_cmp nat_cmp)) }
{
    let files = walk(rt, alloc, folder.as_str())?;
    Ok(ordered(files)?)
}

impl<R: Runtime> Files for DirFiles<'_, R> {
    ghost holds = { λ _. untold };

    ghost read_faults = { λ d. d.reads };

    ghost write_faults = { λ d. d.writes };

    fn list(&mut self, alloc: Global, folder: &Text) -> Result<List<Text>, FileFail>
        ensures after { OnOk result (self.new ≡ self.old) }
        ensures after_failed { IsErrOf result FileFail.Failed → self.new ≡ record self.old { reads = raised self.old.reads } }
        ensures after_no_memory { IsErrOf result FileFail.OutOfMemory → self.new ≡ self.old }

        // what the trait says
        ensures paths { IfOk result (λ paths. IfSome untold (λ files. paths ≡ paths_below folder.now files)) }
        ensures ascending { IfOk result (IsStrictlySortedBy (slice_cmp nat_cmp)) }
        ensures failed { IsErrOf result FileFail.Failed → HasRisen self.old.reads self.new.reads }
        ensures reads { self.old.reads ≤ self.new.reads }
        ensures writes { self.new.writes ≡ self.old.writes }
    {
        let outcome = list_files(self.rt, alloc, folder);
        if let Err(FileFail::Failed) = outcome {
            self.reads = self.reads.saturating_add(1);
        }
        outcome
    }

    fn read(&mut self, alloc: Global, path: &Text) -> Result<Option<List<u8>>, FileFail>
        ensures after { OnOk result (self.new ≡ self.old) }
        ensures after_failed { IsErrOf result FileFail.Failed → self.new ≡ record self.old { reads = raised self.old.reads } }
        ensures after_no_memory { IsErrOf result FileFail.OutOfMemory → self.new ≡ self.old }

        // what the trait says
        ensures found { IfOk result (λ found. IfSome untold (λ files. found ≡ get files path.now)) }
        ensures failed { IsErrOf result FileFail.Failed → HasRisen self.old.reads self.new.reads }
        ensures reads { self.old.reads ≤ self.new.reads }
        ensures writes { self.new.writes ≡ self.old.writes }
    {
        let outcome = read_file(self.rt, alloc, path);
        if let Err(FileFail::Failed) = outcome {
            self.reads = self.reads.saturating_add(1);
        }
        outcome
    }

    fn write(&mut self, path: &Text, bytes: &[u8]) -> Result<(), Failed>
        ensures after { OnOk result (self.new ≡ self.old) }
        ensures after_failed { OnErr result (self.new ≡ record self.old { writes = raised self.old.writes }) }

        // what the trait says
        ensures written { OnOk result (untold ≡ written_at path.now bytes.now untold) }
        ensures failed { OnErr result (HasRisen self.old.writes self.new.writes) }
        ensures writes { self.old.writes ≤ self.new.writes }
        ensures reads { self.new.reads ≡ self.old.reads }
    {
        if write_file(self.rt, path.as_str(), bytes).is_ok() {
            Ok(())
        } else {
            self.writes = self.writes.saturating_add(1);
            Err(Failed)
        }
    }
}

/// Writes a whole file, and makes its folders.
fn write_file<R: Runtime>(rt: &R, path: &str, bytes: &[u8]) -> io::Result<()> {
    if let Some((folder, _)) = path.rsplit_once('/') {
        if !folder.is_empty() {
            fs::create_dir_all(rt, folder)?;
        }
    }
    if standing_at(rt, path)? == Standing::Special {
        return Err(io::Error::from(ErrorKind::InvalidInput));
    }
    let mut file = fs::create(rt, path)?;
    write_whole(&mut file, bytes)
}

/// Writes all bytes, in at most 2^31 turns. A write that takes nothing fails.
pub(crate) fn write_whole<W: Write>(out: &mut W, bytes: &[u8]) -> io::Result<()> {
    let mut rest = bytes;
    for _ in 0u32..MOST_TURNS {
        if rest.is_empty() {
            return Ok(());
        }
        let taken = out.write(rest)?;
        if taken == 0 {
            return Err(io::Error::from(ErrorKind::WriteZero));
        }
        rest = &rest[taken..];
    }
    Err(io::Error::from(ErrorKind::FileTooLarge))
}
