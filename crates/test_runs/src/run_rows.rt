//! The rows of runs. Printed are the line of each run, its exit status, how many files are there then, what it prints, and each file that
//! was not there before or held other bytes.
//!
//! A row is one of these lines, and any other one is printed as it is. `%` and two hexadecimal digits stand for a byte in the text of a
//! file.
//!
//! - `file PATH TEXT`: from here on there is this file, in place of an earlier one of this path.
//! - `none`: from here on there is no file.
//! - `run WORDS`: a run of these words, in which no call fails.
//! - `run-failing CALL PUT ROOM WORDS`: a run in which the call on files and the put of these numbers fail, counted from 1 (0 for none),
//!   and writes have so many bytes of room.
//! - `run-after COUNT WORDS`: a run after so many writes of other files. What it writes is not printed.
//!
//! The words of a run are set apart by spaces, and `''` is an empty one.
use crate::escapes::bytes_of;
use crate::given::file;
use crate::left::{Failing, run_after, run_over};
use mol_base::{File, List, OutOfMemory};
use std::alloc::Global;

/// What is printed for these rows.
pub fn answers(alloc: Global, rows: &str) -> Result<String, OutOfMemory> {
    let mut shown = String::new(alloc);
    let mut files = String::new(alloc);
    for line in rows.lines() {
        let answer = answer(alloc, &mut files, line)?;
        shown.push_str(answer.as_str())?;
    }
    Ok(shown)
}

/// What is printed for a line. `files` has the lines of the files that are there.
fn answer(alloc: Global, files: &mut String, line: &str) -> Result<String, OutOfMemory> {
    let (word, rest) = line.split_once(' ').unwrap_or((line, ""));
    match word {
        "file" => add_file(alloc, files, rest),
        "none" => {
            files.clear();
            Ok(String::new(alloc))
        }
        "run" => outcome(alloc, files.as_str(), line, Failing::NONE, rest),
        "run-failing" => failing_outcome(alloc, files.as_str(), line, rest),
        "run-after" => later_outcome(alloc, files.as_str(), line, rest),
        _ => Ok(format!(in alloc; "{line}\n")?),
    }
}

/// Adds the line of a file, for which nothing is printed.
fn add_file(alloc: Global, files: &mut String, line: &str) -> Result<String, OutOfMemory> {
    files.push_str(line)?;
    files.push('\n')?;
    Ok(String::new(alloc))
}

/// What is printed for a run, before the words of which stands what fails in it.
fn failing_outcome(
    alloc: Global,
    files: &str,
    line: &str,
    rest: &str,
) -> Result<String, OutOfMemory> {
    let (call, rest) = rest.split_once(' ').unwrap_or((rest, ""));
    let (put, rest) = rest.split_once(' ').unwrap_or((rest, ""));
    let (room, words) = rest.split_once(' ').unwrap_or((rest, ""));
    let failing = Failing {
        call: call.parse().unwrap_or(0),
        put: put.parse().unwrap_or(0),
        room: room.parse().unwrap_or(0),
    };
    outcome(alloc, files, line, failing, words)
}

/// What is printed for a run after writes, before the words of which stands how many.
fn later_outcome(
    alloc: Global,
    files: &str,
    line: &str,
    rest: &str,
) -> Result<String, OutOfMemory> {
    let (count, words) = rest.split_once(' ').unwrap_or((rest, ""));
    let files = files_of(alloc, files)?;
    let left = run_after(alloc, &files, count.parse().unwrap_or(0), words)?;
    Ok(format!(in alloc; "{line}\n{left}")?)
}

/// What is printed for a run of these words: its line, and what it leaves.
fn outcome(
    alloc: Global,
    files: &str,
    line: &str,
    failing: Failing,
    words: &str,
) -> Result<String, OutOfMemory> {
    let files = files_of(alloc, files)?;
    let left = run_over(alloc, &files, failing, words)?;
    Ok(format!(in alloc; "{line}\n{left}")?)
}

/// The files of these lines, the last one first: a store keeps the first one of a path.
fn files_of(alloc: Global, lines: &str) -> Result<List<File>, OutOfMemory> {
    let mut files = List::new(alloc);
    for line in lines.rsplit('\n') {
        if !line.is_empty() {
            files.add(file_of(alloc, line)?)?;
        }
    }
    Ok(files)
}

/// The file of a line: its path, a space, and its bytes.
fn file_of(alloc: Global, line: &str) -> Result<File, OutOfMemory> {
    let (path, text) = line.split_once(' ').unwrap_or((line, ""));
    let bytes = bytes_of(alloc, text)?;
    file(alloc, path, &bytes)
}
