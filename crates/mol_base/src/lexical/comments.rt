//! Comments (JLS 3.7).
ghost use Rattle.std.specs.Prelude.{◌≡◌, ◌+◌, ◌<◌, ◌≤◌, length};
ghost use Rattle.mol_base.specs.Lexical.Comments as spec;

use crate::TokenKind;
use crate::lexical::bytes::{byte_at, is_line_end};
use crate::lexical::front::{Flaw, Front};

/// The comment at the front of bytes that begin with `//`.
#[tactic(auto, unfolding(crate::specs::Lexical::Comments::line_comment))]
pub fn line_comment(bytes: &[u8]) -> Front
    ensures { result ≡ spec.line_comment bytes.now }
{
    Front::Taken(TokenKind::Comment, line_len(bytes))
}

/// The comment at the front of bytes that begin with `/*`.
#[tactic(auto, unfolding(crate::specs::Lexical::Comments::block_comment))]
pub fn block_comment(bytes: &[u8]) -> Front
    ensures { result ≡ spec.block_comment bytes.now }
{
    let [_, _, body @ ..] = bytes else {
        return Front::Wrong(Flaw::OpenComment, 0);
    };
    let before = before_close(body);
    if before < body.len() {
        Front::Taken(TokenKind::Comment, 2 + before + 2)
    } else {
        Front::Wrong(Flaw::OpenComment, 0)
    }
}

/// How many bytes stand before the end of the line.
fn line_len(bytes: &[u8]) -> usize
    ensures { result ≡ spec.line_len bytes.now }
{
    let mut passed = 0;
    let mut rest = bytes;
    while let [first, after @ ..] = rest {
        if is_line_end(*first) {
            return passed;
        }
        passed += 1;
        rest = after;
    }
    passed
}

/// How many bytes stand before the first `*/`: all of them where there is none.
fn before_close(bytes: &[u8]) -> usize
    ensures same { result ≡ spec.before_close bytes.now }
    ensures closed { result < length bytes.now → result + 2 ≤ length bytes.now }
{
    let mut passed = 0;
    let mut rest = bytes;
    while let [first, after @ ..] = rest {
        if *first == b'*' && byte_at(after, 0) == b'/' {
            return passed;
        }
        passed += 1;
        rest = after;
    }
    passed
}
