//! Parses texts and prints what the parser answers of each, and what the calls on trees answer. A line of standard input is the name of a
//! language and pieces of a text, separated by spaces; a piece `N*PIECE` stands for N of it, and a piece `\n` for the end of a line. A
//! first word `prefixes` asks for every prefix of the tokens, `tree` for the tree, and `compare` for the calls on the trees of two texts, with a
//! piece `beside` between them.
#![tactic(auto)]

mod answer;
mod compared;
mod languages;
mod pieces;
mod trees;

use answer::{answer_of, prefixes_of, tree_of};
use compared::compared_of;
use jav_lex::{Token, lex};
use languages::Language;
use mol_base::{List, OutOfMemory};
use pieces::text_of;
use std::alloc::Global;
use std::io::{self, Read};

/// The greatest text that is read, in bytes: those whose places fit the tokens.
const LONGEST: usize = 1 << 30;

/// What the parser answers of the text of a line.
fn line_answer(alloc: Global, line: &str) -> Result<String, OutOfMemory> {
    let (word, rest) = line.split_once(' ').unwrap_or((line, ""));
    let (name, pieces) = if word == "prefixes" || word == "tree" || word == "compare" {
        rest.split_once(' ').unwrap_or((rest, ""))
    } else {
        (word, rest)
    };
    match Language::named(name) {
        Some(language) => text_answer(alloc, word, language, pieces),
        None => Ok(String::from_str(alloc, "no language")?),
    }
}

/// What the parser answers of a text in a language, by the first word of its line.
fn text_answer(
    alloc: Global,
    word: &str,
    language: Language,
    pieces: &str,
) -> Result<String, OutOfMemory> {
    let (first, second) = pieces.split_once(" beside ").unwrap_or((pieces, ""));
    match tokens_of(alloc, first)? {
        Ok(tokens) if word == "prefixes" => prefixes_of(alloc, language, tokens.items()),
        Ok(tokens) if word == "tree" => tree_of(alloc, language, tokens.items()),
        Ok(tokens) if word == "compare" => compared_beside(alloc, language, tokens.items(), second),
        Ok(tokens) => answer_of(alloc, language, tokens.items()),
        Err(why) => Ok(why),
    }
}

/// What the calls answer of the tree of these tokens and that of a second text.
fn compared_beside(
    alloc: Global,
    language: Language,
    first: &[Token],
    second: &str,
) -> Result<String, OutOfMemory> {
    match tokens_of(alloc, second)? {
        Ok(tokens) => compared_of(alloc, language, first, tokens.items()),
        Err(why) => Ok(why),
    }
}

/// The tokens of a text, or why there are none.
fn tokens_of(alloc: Global, pieces: &str) -> Result<Result<List<Token>, String>, OutOfMemory> {
    let text = text_of(alloc, pieces)?;
    if LONGEST < text.len() {
        return Ok(Err(String::from_str(alloc, "too long")?));
    }
    match lex(alloc, text.as_bytes()) {
        Ok(tokens) => Ok(Ok(tokens)),
        Err(fault) => Ok(Err(format!(in alloc; "{fault}")?)),
    }
}

fn main(rt: HostRuntime) -> io::Result<()> {
    let mut input = String::new(rt.alloc());
    rt.stdin().read_to_string(&mut input)?;
    for line in input.lines() {
        match line_answer(rt.alloc(), line) {
            Ok(text) => println!(rt; "{line}: {text}")?,
            Err(OutOfMemory) => println!(rt; "{line}: out of memory")?,
        }
    }
    Ok(())
}
