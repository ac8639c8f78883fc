//! The words that no identifier is spelled as.
ghost use Rattle.std.specs.Prelude.{◌≡◌};
ghost use Rattle.mol_base.specs.ReservedWords as spec;

use crate::lexical::{is_keyword, is_word_literal};

/// Whether the bytes are a reserved word: one of the 50 keywords (JLS 3.9), or one of the literals
/// `true`, `false` and `null` (JLS 3.10.3, 3.10.7). It takes no memory.
pub fn is_reserved(name: &[u8]) -> bool
    ensures { result ≡ spec.is_reserved name.now }
{
    is_keyword(name) || is_word_literal(name)
}
