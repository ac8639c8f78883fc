//! The rows of changes of programs. Printed are the name of each change; each fault of what it leaves on a line of its own, with the
//! addresses from before the change, and below it the cells that it rests on; and of each file that is asked for its path and its text.
//!
//! Between two paragraphs stands an empty line. The first line of each is its name. Where that begins with `base`, the other lines are
//! entries of a log that make a program from nothing. Each other paragraph changes the last such program: its lines are entries, and then
//! perhaps one of the word `print` and the paths of files, with a space before each.
use crate::case::Case;
use crate::changed::change;
use mol_base::OutOfMemory;
use std::alloc::Global;

/// What is printed for these rows.
pub fn answers(alloc: Global, rows: &str) -> Result<String, OutOfMemory> {
    let mut shown = String::new(alloc);
    let mut base = String::new(alloc);
    for paragraph in rows.split("\n\n") {
        let case = Case::new(paragraph.trim_end());
        let answer = answer(alloc, &mut base, &case)?;
        shown.push_str(answer.as_str())?;
    }
    Ok(shown)
}

/// What is printed for a paragraph. `base` has the entries of the last program: those of another one take their place, and nothing is
/// printed.
fn answer(alloc: Global, base: &mut String, case: &Case<'_>) -> Result<String, OutOfMemory> {
    if case.name.starts_with("base") {
        base.clear();
        base.push_str(case.entries)?;
        return Ok(String::new(alloc));
    }
    match change(alloc, base.as_str(), case) {
        Ok(text) => Ok(text),
        Err(fault) => Ok(format!(in alloc; "{}: {}\n", case.name, fault.name())?),
    }
}
