//! The lexical rules of Java, as far as the language of this project has them: what stands at the front
//! of a source, and whether some bytes are one token.
mod bytes;
mod comments;
mod front;
mod names;
mod numbers;
mod quoted;
mod symbols;

pub use bytes::before_unicode_escape;
pub(crate) use bytes::byte_at;
pub use front::{Flaw, Front, front_of, text_kind};
pub(crate) use names::{is_keyword, is_word_literal};
