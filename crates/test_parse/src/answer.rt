//! What the parser answers of tokens, as text: places are numbers of tokens, counted from 0.
use crate::languages::Language;
use crate::trees::{block_shown, members_shown, type_shown};
use jav_lex::Token;
use jav_parse::{ParseFault, parse_body, parse_member, parse_type};
use mol_base::OutOfMemory;
use std::alloc::Global;

/// `ok`, or the fault and where it is.
pub fn answer_of(
    alloc: Global,
    language: Language,
    tokens: &[Token],
) -> Result<String, OutOfMemory> {
    let Some(fault) = language.fault_of(alloc, tokens) else {
        return Ok(String::from_str(alloc, "ok")?);
    };
    let place = |at: u32| place_of(alloc, tokens, at);
    match fault {
        ParseFault::Expected(at) => Ok(format!(in alloc; "expected {}", place(at)?)?),
        ParseFault::Refused(feature, at) => Ok(format!(in alloc;
            "refused {feature:?} {}",
            place(at)?
        )?),
        ParseFault::CommentPlace(at) => Ok(format!(in alloc; "comment-place {}", place(at)?)?),
        ParseFault::TooDeep(at) => Ok(format!(in alloc; "too-deep {}", place(at)?)?),
        ParseFault::TooMany(at) => Ok(format!(in alloc; "too-many {}", place(at)?)?),
        ParseFault::OutOfMemory => Err(OutOfMemory),
    }
}

/// The number of the token that starts at this byte, or `end` for the byte at which the last token ends; else the byte.
fn place_of(alloc: Global, tokens: &[Token], at: u32) -> Result<String, OutOfMemory> {
    if let Some(number) = tokens.iter().position(|token| token.start == at) {
        return Ok(format!(in alloc; "{number}")?);
    }
    if end_of(tokens) == at {
        return Ok(String::from_str(alloc, "end")?);
    }
    Ok(format!(in alloc; "byte {at}")?)
}

/// Where the last token ends; 0 without tokens.
fn end_of(tokens: &[Token]) -> u32 {
    match tokens {
        [] => 0,
        [.., last] => last.end,
    }
}

/// How many prefixes of the tokens are trees, how many end too early, and how many have another fault.
pub fn prefixes_of(
    alloc: Global,
    language: Language,
    tokens: &[Token],
) -> Result<String, OutOfMemory> {
    let mut trees = 0_u64;
    let mut early = 0_u64;
    let mut others = 0_u64;
    for count in 0..=tokens.len() {
        let front = &tokens[..count];
        match language.fault_of(alloc, front) {
            None => trees = trees.saturating_add(1),
            Some(ParseFault::Expected(at)) if at == end_of(front) => early = early.saturating_add(
                1,
            ),
            Some(ParseFault::OutOfMemory) => return Err(OutOfMemory),
            Some(_) => others = others.saturating_add(1),
        }
    }
    Ok(format!(in alloc; "{trees} trees, {early} end too early, {others} others")?)
}

/// The tree of these tokens in one of the languages of members, bodies and types.
pub fn tree_of(alloc: Global, language: Language, tokens: &[Token]) -> Result<String, OutOfMemory> {
    match language {
        Language::Member => member_tree(alloc, tokens),
        Language::Body => body_tree(alloc, tokens),
        Language::Type => type_tree(alloc, tokens),
        Language::Unit | Language::Expr => Ok(String::from_str(alloc, "not shown")?),
    }
}

fn member_tree(alloc: Global, tokens: &[Token]) -> Result<String, OutOfMemory> {
    match parse_member(alloc, tokens) {
        Ok(members) => members_shown(alloc, members.items()),
        Err(_) => Ok(String::from_str(alloc, "no tree")?),
    }
}

fn body_tree(alloc: Global, tokens: &[Token]) -> Result<String, OutOfMemory> {
    match parse_body(alloc, tokens) {
        Ok(body) => block_shown(alloc, &body),
        Err(_) => Ok(String::from_str(alloc, "no tree")?),
    }
}

fn type_tree(alloc: Global, tokens: &[Token]) -> Result<String, OutOfMemory> {
    match parse_type(alloc, tokens) {
        Ok(ty) => type_shown(alloc, &ty),
        Err(_) => Ok(String::from_str(alloc, "no tree")?),
    }
}
