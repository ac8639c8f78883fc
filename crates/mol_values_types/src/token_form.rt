//! Which words a tree may keep as they are: names, literals and comments.
ghost use Rattle.std.specs.Prelude.{◌≡◌};
ghost use Rattle.mol_values_types.specs.TokenForms as spec;

use mol_base::{TokenKind, text_kind};

/// Whether the bytes are an identifier: one token, no keyword, at most 255 bytes (JLS 3.8).
pub fn is_name(bytes: &[u8]) -> bool
    ensures { result ≡ spec.is_name bytes.now }
{
    matches!(text_kind(bytes), Some(TokenKind::Word))
}

/// Whether the bytes are identifiers joined by dots (JLS 6.2).
pub fn is_dotted(bytes: &[u8]) -> bool
    ensures { result ≡ spec.is_dotted bytes.now }
{
    bytes.split(|byte| *byte == b'.').all(|part| is_name(part))
}

/// Whether the bytes are a literal (JLS 3.10).
pub fn is_literal(bytes: &[u8]) -> bool
    ensures { result ≡ spec.is_literal bytes.now }
{
    matches!(text_kind(bytes), Some(TokenKind::Literal))
}

/// Whether the bytes are a comment (JLS 3.7).
pub fn is_comment(bytes: &[u8]) -> bool
    ensures { result ≡ spec.is_comment bytes.now }
{
    matches!(text_kind(bytes), Some(TokenKind::Comment))
}
