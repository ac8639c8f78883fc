//! Reserved words, operators, modifiers and the paths of classes.
use crate::escapes::bytes_of;
use mol_base::{
    List, Modified, OutOfMemory, Text, are_in_order, binary_level, is_assignment, is_prefix,
    is_reserved, is_sign, is_step, path_of,
};
use std::alloc::Global;

/// Whether a word is reserved.
pub fn reserved(alloc: Global, word: &str) -> Result<String, OutOfMemory> {
    let is = is_reserved(word.as_bytes());
    Ok(format!(in alloc; "{is}")?)
}

/// The level of the operator between two operands that a text is, if it is one.
pub fn level(alloc: Global, text: &str) -> Result<String, OutOfMemory> {
    let bytes = bytes_of(alloc, text)?;
    let level = binary_level(bytes.as_slice());
    Ok(format!(in alloc; "{level:?}")?)
}

/// Whether a text is an assignment, a step, a prefix and a sign.
pub fn operator(alloc: Global, text: &str) -> Result<String, OutOfMemory> {
    let text = text.as_bytes();
    Ok(format!(in alloc;
        "{} {} {} {}",
        is_assignment(text),
        is_step(text),
        is_prefix(text),
        is_sign(text)
    )?)
}

/// What modifiers stand before, by its name.
fn modified_of(name: &str) -> Option<Modified> {
    match name {
        "class" => Some(Modified::Class),
        "field" => Some(Modified::Field),
        "method" => Some(Modified::Method),
        "abstract-method" => Some(Modified::AbstractMethod),
        "kept-method" => Some(Modified::KeptMethod),
        "constructor" => Some(Modified::Constructor),
        _ => None,
    }
}

/// Whether modifiers are allowed before what is named first, and whether they stand in the order in which they are printed.
pub fn modifiers(alloc: Global, rest: &str) -> Result<String, OutOfMemory> {
    let (name, words) = rest.split_once(' ').unwrap_or((rest, ""));
    let Some(modified) = modified_of(name) else {
        return Ok(String::from_str(alloc, "no name")?);
    };
    let words = words_of(alloc, words)?;
    let allowed = modified.allows(words.items());
    let ordered = are_in_order(words.items());
    Ok(format!(in alloc; "{allowed} {ordered}")?)
}

/// The words of a text, which one space separates.
fn words_of(alloc: Global, text: &str) -> Result<List<Text>, OutOfMemory> {
    let mut words = List::new(alloc);
    for word in text.split(' ') {
        if !word.is_empty() {
            words.add(Text::from_str(alloc, word)?)?;
        }
    }
    Ok(words)
}

/// The path of a class, from its package and its name.
pub fn path(alloc: Global, rest: &str) -> Result<String, OutOfMemory> {
    let (package, name) = rest.split_once(' ').unwrap_or((rest, ""));
    let path = path_of(alloc, package.as_bytes(), name.as_bytes())?;
    let path = str::from_utf8(path.as_slice()).unwrap_or("no text");
    Ok(String::from_str(alloc, path)?)
}
