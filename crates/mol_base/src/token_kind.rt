//! What sort of token a piece of a Java source is.

/// The five sorts of tokens. `true`, `false` and `null` are literals; comments are tokens too.
#[derive(Clone, Copy, Debug, PartialEq, Eq)]
pub enum TokenKind {
    Word,
    Keyword,
    Literal,
    Symbol,
    Comment,
}
