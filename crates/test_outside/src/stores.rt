//! Stores of files and sinks, over memory and over the system.
use mol_base::{File, List, OutOfMemory, Text};
use mol_outside::{DirFiles, FileFail, Files, MemFiles, MemSink, Sink, StdSink};
use std::alloc::Global;
use std::fs;
use std::test::Fail;

/// A call on a store, with what it is to answer: the paths of a listing in their order, the text of a read.
#[derive(Clone, Copy)]
enum Call<'a> {
    Lists(&'a str, &'a [&'a str]),
    Reads(&'a str, Option<&'a str>),
    Writes(&'a str, &'a str),
}

use Call::{Lists, Reads, Writes};

/// How a call ended.
#[derive(Clone, Copy, Debug, PartialEq, Eq)]
enum End {
    AsWanted,
    Otherwise,
    Failed,
}

/// Files over memory that hold these texts at these paths.
fn memory(
    alloc: Global,
    files: &[(&str, &str)],
    failing: &[u64],
    room: usize,
) -> Result<MemFiles, OutOfMemory> {
    let mut list = List::new(alloc);
    for (path, text) in files {
        list.add(File {
            path: Text::from_str(alloc, path)?,
            bytes: List::from_slice(alloc, text.as_bytes())?,
        })?;
    }
    MemFiles::new(alloc, &list, &List::from_slice(alloc, failing)?, room)
}

/// Whether a listing gave these paths, in this order.
fn are_paths(paths: &[Text], want: &[&str]) -> bool {
    paths.len() == want.len()
        && paths
            .iter()
            .zip(want.iter())
            .all(|(path, want)| path.as_str() == *want)
}

/// Whether a read gave this text.
fn is_text(found: &Option<List<u8>>, want: Option<&str>) -> bool {
    match (found, want) {
        (None, None) => true,
        (Some(bytes), Some(want)) => bytes.items() == want.as_bytes(),
        _ => false,
    }
}

/// How a listing ends.
fn end_of_list<F: Files>(
    files: &mut F,
    alloc: Global,
    folder: &Text,
    want: &[&str],
) -> Result<End, OutOfMemory> {
    match files.list(alloc, folder) {
        Ok(paths) if are_paths(paths.items(), want) => Ok(End::AsWanted),
        Ok(_) => Ok(End::Otherwise),
        Err(FileFail::Failed) => Ok(End::Failed),
        Err(FileFail::OutOfMemory) => Err(OutOfMemory),
    }
}

/// How a read ends.
fn end_of_read<F: Files>(
    files: &mut F,
    alloc: Global,
    path: &Text,
    want: Option<&str>,
) -> Result<End, OutOfMemory> {
    match files.read(alloc, path) {
        Ok(found) if is_text(&found, want) => Ok(End::AsWanted),
        Ok(_) => Ok(End::Otherwise),
        Err(FileFail::Failed) => Ok(End::Failed),
        Err(FileFail::OutOfMemory) => Err(OutOfMemory),
    }
}

/// How a call ends.
fn end_of<F: Files>(files: &mut F, alloc: Global, call: Call<'_>) -> Result<End, OutOfMemory> {
    match call {
        Lists(folder, want) => end_of_list(files, alloc, &Text::from_str(alloc, folder)?, want),
        Reads(path, want) => end_of_read(files, alloc, &Text::from_str(alloc, path)?, want),
        Writes(path, text) => {
            let path = Text::from_str(alloc, path)?;
            Ok(match files.write(&path, text.as_bytes()) {
                Ok(()) => End::AsWanted,
                Err(_) => End::Failed,
            })
        }
    }
}

/// The place of the first call that ends in another way than is said beside it, or their number.
fn first_other<F: Files>(
    files: &mut F,
    alloc: Global,
    calls: &[(Call<'_>, End)],
) -> Result<usize, OutOfMemory> {
    for (k, (call, want)) in calls.iter().enumerate() {
        if end_of(files, alloc, *call)? != *want {
            return Ok(k);
        }
    }
    Ok(calls.len())
}

/// Whether the store has these files and no other, ascending by their paths.
fn has_files(store: &MemFiles, files: &[(&str, &str)]) -> bool {
    let mut k = 0;
    for (path, text) in files {
        if k >= store.count() {
            return false;
        }
        if store.path(k) != path.as_bytes() || store.bytes(k) != text.as_bytes() {
            return false;
        }
        k += 1;
    }
    k == store.count()
}

/// The calls 2, 5 and 9 fail.
const NUMBERED: [(Call<'static>, End); 9] = [
    (Lists("d", &["x"]), End::AsWanted),
    (Reads("e", None), End::Failed),
    (Reads("e", Some("2")), End::AsWanted),
    (Writes("e", "3"), End::AsWanted),
    (Writes("e", "4"), End::Failed),
    (Reads("e", Some("3")), End::AsWanted),
    (Writes("c", ""), End::AsWanted),
    (Reads("d", None), End::AsWanted),
    (Lists("d", &[]), End::Failed),
];

#[test]
fn calls_fail_by_their_numbers(rt: HostRuntime) -> Result<(), Fail> {
    let alloc = rt.alloc();
    let mut files = memory(alloc, &[("d/x", "1"), ("e", "2")], &[2, 5, 9], 100)?;
    assert_eq!(rt; first_other(&mut files, alloc, NUMBERED.as_slice())?, 9);
    assert!(rt; has_files(&files, &[("c", ""), ("d/x", "1"), ("e", "3")]));
    Ok(())
}

const SORTED: [(Call<'static>, End); 4] = [
    (
        Lists("top", &["A/z", "a-b/c", "a.java", "a/b.java"]),
        End::AsWanted,
    ),
    (Lists("top/a", &["b.java"]), End::AsWanted),
    (Lists("tops", &[]), End::AsWanted),
    (Reads("top/a", None), End::AsWanted),
];

#[test]
fn listings_are_sorted_by_bytes(rt: HostRuntime) -> Result<(), Fail> {
    let alloc = rt.alloc();
    let paths = [
        ("top/a/b.java", ""),
        ("top", ""),
        ("top/a-b/c", ""),
        ("top/a.java", ""),
        ("topper/x", ""),
        ("top/A/z", ""),
        ("to/y", ""),
    ];
    let mut files = memory(alloc, paths.as_slice(), &[], 0)?;
    assert_eq!(rt; first_other(&mut files, alloc, SORTED.as_slice())?, 4);
    Ok(())
}

/// Of seven bytes: three of a path and five do not fit, three and four do, and then not one more.
const ROOM: [(Call<'static>, End); 4] = [
    (Writes("abc", "12345"), End::Failed),
    (Writes("abc", "1234"), End::AsWanted),
    (Reads("abc", Some("1234")), End::AsWanted),
    (Writes("d", ""), End::Failed),
];

#[test]
fn room_ends(rt: HostRuntime) -> Result<(), Fail> {
    let alloc = rt.alloc();
    let mut files = memory(alloc, &[], &[], 7)?;
    assert_eq!(rt; first_other(&mut files, alloc, ROOM.as_slice())?, 4);
    Ok(())
}

#[test]
fn places_end_after_8192_writes(rt: HostRuntime) -> Result<(), Fail> {
    let alloc = rt.alloc();
    let mut files = memory(alloc, &[], &[], 10_000)?;
    for _ in 0..8192 {
        assert_eq!(rt; end_of(&mut files, alloc, Writes("a", ""))?, End::AsWanted);
    }
    assert_eq!(rt; end_of(&mut files, alloc, Writes("a", ""))?, End::Failed);
    Ok(())
}

#[test]
fn a_sink_keeps_what_went_in(rt: HostRuntime) -> Result<(), Fail> {
    let alloc = rt.alloc();
    let mut sink = MemSink::new(alloc, &List::from_slice(alloc, &[2])?, 5)?;
    let puts = [
        ("abc", true),
        ("d", false),
        ("def", false),
        ("de", true),
        ("f", false),
    ];
    for (piece, goes_in) in puts {
        assert_eq!(rt; sink.put(piece.as_bytes()).is_ok(), goes_in, "{piece}");
    }
    assert_eq!(rt; sink.bytes(), b"abcde".as_slice());
    let mut out = StdSink::new(&rt);
    assert!(rt; out.put(b"a line on standard output\n".as_slice()).is_ok());
    Ok(())
}

const FOLDER: &str = "mol_outside_files";

/// A folder is no file to read and no folder of a file is a place to write; a file is no folder to list.
const REAL: [(Call<'static>, End); 11] = [
    (Lists("mol_outside_files", &[]), End::AsWanted),
    (Reads("mol_outside_files/a", None), End::AsWanted),
    (
        Writes("mol_outside_files/a/b.java", "class B { }\n"),
        End::AsWanted,
    ),
    (Writes("mol_outside_files/a-b/c", "longer"), End::AsWanted),
    (Writes("mol_outside_files/a-b/c", ""), End::AsWanted),
    (
        Reads("mol_outside_files/a/b.java", Some("class B { }\n")),
        End::AsWanted,
    ),
    (Reads("mol_outside_files/a-b/c", Some("")), End::AsWanted),
    (
        Lists("mol_outside_files", &["a-b/c", "a/b.java"]),
        End::AsWanted,
    ),
    (Writes("mol_outside_files/a", ""), End::Failed),
    (Reads("mol_outside_files", None), End::Failed),
    (Lists("mol_outside_files/a-b/c", &[]), End::Failed),
];

#[test]
fn real_files_are_written_and_read(rt: HostRuntime) -> Result<(), Fail> {
    let alloc = rt.alloc();
    let _ = fs::remove_dir_all(&rt, FOLDER);
    let mut files = DirFiles::new(&rt);
    assert_eq!(rt; first_other(&mut files, alloc, REAL.as_slice())?, 11);
    fs::remove_dir_all(&rt, FOLDER)?;
    Ok(())
}
