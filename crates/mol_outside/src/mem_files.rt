//! Files over memory, with failing calls.
ghost use Rattle.std.specs.Prelude.{◌≡◌, ◌≤◌, ◌<◌, ◌+◌, ◌-◌, ◌↔◌, [], Some, min, length, map, drop, IfOk, IsErr, IsErrOf, OnOk, OnErr, IfSome, IsTrue, Contains, slice_get, sum_by, option_copied};
ghost use Rattle.std.specs.Ordering.{nat_cmp};
ghost use Rattle.std.specs.List.{filter_map};
ghost use Rattle.std.specs.List.Sorted.{IsStrictlySortedBy};
ghost use Rattle.std.specs.Cmp.Lexicographic.{slice_cmp};
ghost use Rattle.std.specs.FinMap.{insert, find, get, keys, values, len};
ghost use Rattle.mol_outside.specs.Contents.{HasRisen, raised, written_at, elsewhere as other_paths, path_below, paths_below};
ghost use Rattle.mol_outside.specs.Memory.{FailsNext, WriteFails, new_files, after_read, after_failed_read, after_write, after_failed_write};
ghost use Rattle.mol_outside.specs.Stored.{AreWithin, Ascend, HaveTexts, all_stored, filled, size_of};

use crate::place::{place, put_file};
use crate::span::{Span, span_at};
use crate::{Failed, FileFail, Files};
use mol_base::{File, List, OutOfMemory, Text};
use std::alloc::Global;
use std::marker::Model;

/// How many writes go in, each to one of so many places that were free from the start.
const FREE_PLACES: usize = 8192;

/// Files over memory. Writes take no memory.
///
/// Calls are numbered from 1 over listings, reads and writes together; the number stands still at
/// 2^64 - 1. A path is found in steps that grow with the logarithm of the number of files.
#[derive(Drop)]
pub struct MemFiles {
    buffer: Vec<u8>,
    spans: Vec<Span>,
    failing: List<u64>,
    calls: u64,
    left: usize,
    places: usize,
    read_faults: u64,
    write_faults: u64,
}

impl Model for MemFiles {
    ghost use Rattle.std.specs.Prelude.{vec_len, vec_capacity};
    ghost use Rattle.std.specs.FinMap.{from_sorted};
    ghost use Rattle.mol_outside.specs.Memory.{FilesState, files_code};

    ghost Value = { FilesState };

    ghost coded = { files_code };

    ghost use Rattle.mol_outside.specs.Stored.{IsStore, all_stored};

    ghost view = { λ m. record { files = from_sorted (all_stored m.buffer.items m.spans.items); failing = m.failing; calls = m.calls; left = m.left; places = m.places; read_faults = m.read_faults; write_faults = m.write_faults } };

    ghost invariant = { λ m. IsStore m.buffer.items m.spans.items (vec_len m.buffer) (vec_capacity m.buffer) (vec_len m.spans) (vec_capacity m.spans) m.left m.places };
}

impl MemFiles {
    /// Files over memory. Where two have one path, the first counts.
    ///
    /// Calls fail whose numbers stand in `failing`. A write fails too where its path and bytes together
    /// are more bytes than are left of `room`, and after 8,192 writes that went in. No other call
    /// fails. All memory for files and writes is taken here: `Err` is want of it.
    pub fn new(
        alloc: Global,
        files: &List<File>,
        failing: &List<u64>,
        room: usize,
    ) -> Result<MemFiles, OutOfMemory>
        ensures { IfOk result (λ store. store ≡ new_files files.now failing.now room) }
    {
        let files = files.items();
        let Some(bytes) = room_with(files, room) else {
            return Err(OutOfMemory);
        };
        let Some(places) = files.len().checked_add(FREE_PLACES) else {
            return Err(OutOfMemory);
        };
        let mut store = MemFiles {
            buffer: Vec::with_capacity(alloc, bytes)?,
            spans: Vec::with_capacity(alloc, places)?,
            failing: failing.copy(alloc)?,
            calls: 0,
            left: bytes,
            places,
            read_faults: 0,
            write_faults: 0,
        };
        store.fill(files);
        Ok(store)
    }

    /// How many files there are.
    pub fn count(&self) -> usize
        ensures { result ≡ len self.now.files }
    {
        self.spans.len()
    }

    /// The path of the file at place `k`, counted from 0 in the order of the paths.
    pub fn path(&self, k: usize) -> &[u8]
        requires { k < len self.now.files }
        ensures { slice_get (keys self.now.files) k ≡ Some result.now }
    {
        span_at(&self.spans, k, self.buffer.len()).path(&self.buffer)
    }

    /// The bytes of the file at place `k`, counted from 0 in the order of the paths.
    pub fn bytes(&self, k: usize) -> &[u8]
        requires { k < len self.now.files }
        ensures { slice_get (values self.now.files) k ≡ Some result.now }
    {
        span_at(&self.spans, k, self.buffer.len()).bytes(&self.buffer)
    }

    /// Puts a file whose room was looked at.
    fn store(&mut self, path: &Text, bytes: &[u8])
        requires room { length path.now + length bytes.now ≤ self.old.left }
        requires places { 0 < self.old.places }
        ensures { self.new ≡ record self.old { files = insert self.old.files path.now bytes.now; left = self.old.left - (length path.now + length bytes.now); places = self.old.places - 1 } }
    {
        put_file(&mut self.buffer, &mut self.spans, path.bytes(), bytes);
        self.left -= path.bytes().len() + bytes.len();
        self.places -= 1;
    }

    /// Puts files, the last one first.
    fn fill(&mut self, files: &[File])
        requires room { sum_by size_of files.now ≤ self.old.left }
        requires places { length files.now ≤ self.old.places }
        ensures { self.new ≡ filled self.old files.now }
    {
        let mut rest = files.len();
        while rest > 0 {
            rest -= 1;
            let file = &files[rest];
            self.store(&file.path, file.bytes.items());
        }
    }
}

/// The room with the bytes of all paths and files, if a `usize` can count them.
fn room_with(files: &[File], room: usize) -> Option<usize>
    ensures { IfSome result (λ all. all ≡ room + sum_by size_of files.now) }
{
    let mut all = room;
    for file in files {
        all = all.checked_add(file.path.bytes().len())?;
        all = all.checked_add(file.bytes.items().len())?;
    }
    Some(all)
}

/// Counts a call, and says whether it is to fail.
fn is_failing(calls: &mut u64, failing: &List<u64>) -> bool
    ensures count { calls.new ≡ raised calls.old }
    ensures fails { IsTrue result ↔ FailsNext failing.now calls.old }
{
    *calls = calls.saturating_add(1);
    failing.items().contains(&*calls)
}

/// The bytes of the file at a path.
fn find_file(
    alloc: Global,
    buffer: &[u8],
    spans: &[Span],
    path: &[u8],
) -> Result<Option<List<u8>>, OutOfMemory>
    requires within { AreWithin (length buffer.now) spans.now }
    requires ascend { Ascend (all_stored buffer.now spans.now) }
    ensures { IfOk result (λ found. found ≡ find (slice_cmp nat_cmp) path.now (all_stored buffer.now spans.now)) }
{
    match place(buffer, spans, path) {
        Ok(i) => {
            let span = span_at(spans, i, buffer.len());
            Ok(Some(List::from_slice(alloc, span.bytes(buffer))?))
        }
        Err(_) => Ok(None),
    }
}

/// The paths below a folder.
fn list_paths(
    alloc: Global,
    buffer: &[u8],
    spans: &[Span],
    folder: &[u8],
) -> Result<Vec<Text>, OutOfMemory>
    requires within { AreWithin (length buffer.now) spans.now }
    requires texts { HaveTexts (all_stored buffer.now spans.now) }
    ensures { IfOk result (λ paths. paths.items ≡ filter_map (path_below folder.now) (map (λ file. file.0) (all_stored buffer.now spans.now))) }
{
    let mut paths = Vec::new(alloc);
    for i in 0..spans.len() {
        let span = span_at(spans, i, buffer.len());
        if let Some(path) = below(folder, span.path(buffer)) {
            let Ok(path) = std::str::from_utf8(path) else {
                unreachable!();
            };
            paths.push(Text::from_str(alloc, path)?)?;
        }
    }
    Ok(paths)
}

/// What is left of a path behind a folder and a slash.
fn below<'a>(folder: &[u8], path: &'a [u8]) -> Option<&'a [u8]>
    ensures { option_copied result ≡ path_below folder.now path.now }
{
    match path.strip_prefix(folder) {
        Some(rest) => behind_slash(rest),
        None => None,
    }
}

/// What is left of a path behind the slash that it begins with.
fn behind_slash(path: &[u8]) -> Option<&[u8]>
    ensures { option_copied result ≡ path_below [] path.now }
{
    match path {
        [slash, rest @ ..] if *slash == b'/' => Some(rest),
        _ => None,
    }
}

impl Files for MemFiles {
    ghost holds = { λ m. Some m.files };

    ghost read_faults = { λ m. m.read_faults };

    ghost write_faults = { λ m. m.write_faults };

    fn list(&mut self, alloc: Global, folder: &Text) -> Result<List<Text>, FileFail>
        ensures exactly { IsErrOf result FileFail.Failed ↔ FailsNext self.old.failing self.old.calls }
        ensures after { OnOk result (self.new ≡ after_read self.old) }
        ensures after_failed { IsErrOf result FileFail.Failed → self.new ≡ after_failed_read self.old }
        ensures after_no_memory { IsErrOf result FileFail.OutOfMemory → self.new ≡ after_read self.old }

        // what the trait says
        ensures paths { IfOk result (λ paths. paths ≡ paths_below folder.now self.old.files) }
        ensures ascending { IfOk result (IsStrictlySortedBy (slice_cmp nat_cmp)) }
        ensures holds { Some self.new.files ≡ Some self.old.files }
        ensures failed { IsErrOf result FileFail.Failed → HasRisen self.old.read_faults self.new.read_faults }
        ensures reads { self.old.read_faults ≤ self.new.read_faults }
        ensures writes { self.new.write_faults ≡ self.old.write_faults }
    {
        if is_failing(&mut self.calls, &self.failing) {
            self.read_faults = self.read_faults.saturating_add(1);
            return Err(FileFail::Failed);
        }
        let paths = list_paths(alloc, &self.buffer, &self.spans, folder.bytes())?;
        Ok(List::from_vec(paths))
    }

    fn read(&mut self, alloc: Global, path: &Text) -> Result<Option<List<u8>>, FileFail>
        ensures exactly { IsErrOf result FileFail.Failed ↔ FailsNext self.old.failing self.old.calls }
        ensures after { OnOk result (self.new ≡ after_read self.old) }
        ensures after_failed { IsErrOf result FileFail.Failed → self.new ≡ after_failed_read self.old }
        ensures after_no_memory { IsErrOf result FileFail.OutOfMemory → self.new ≡ after_read self.old }

        // what the trait says
        ensures found { IfOk result (λ found. found ≡ get self.old.files path.now) }
        ensures holds { Some self.new.files ≡ Some self.old.files }
        ensures failed { IsErrOf result FileFail.Failed → HasRisen self.old.read_faults self.new.read_faults }
        ensures reads { self.old.read_faults ≤ self.new.read_faults }
        ensures writes { self.new.write_faults ≡ self.old.write_faults }
    {
        if is_failing(&mut self.calls, &self.failing) {
            self.read_faults = self.read_faults.saturating_add(1);
            return Err(FileFail::Failed);
        }
        Ok(find_file(alloc, &self.buffer, &self.spans, path.bytes())?)
    }

    /// Writes a file. It takes no memory, and a write that fails changes no file.
    fn write(&mut self, path: &Text, bytes: &[u8]) -> Result<(), Failed>
        ensures exactly { IsErr result ↔ WriteFails self.old (length path.now + length bytes.now) }
        ensures after { OnOk result (self.new ≡ after_write path.now bytes.now self.old) }
        ensures after_failed { OnErr result (self.new ≡ after_failed_write self.old) }

        // what the trait says
        ensures written { OnOk result (Some self.new.files ≡ written_at path.now bytes.now (Some self.old.files)) }
        ensures elsewhere { other_paths path.now (Some self.new.files) ≡ other_paths path.now (Some self.old.files) }
        ensures failed { OnErr result (HasRisen self.old.write_faults self.new.write_faults) }
        ensures writes { self.old.write_faults ≤ self.new.write_faults }
        ensures reads { self.new.read_faults ≡ self.old.read_faults }
    {
        let fails = is_failing(&mut self.calls, &self.failing);
        if fails
            || self.places == 0
            || self.left < path.bytes().len()
            || self.left - path.bytes().len() < bytes.len()
        {
            self.write_faults = self.write_faults.saturating_add(1);
            return Err(Failed);
        }
        self.store(path, bytes);
        Ok(())
    }
}
