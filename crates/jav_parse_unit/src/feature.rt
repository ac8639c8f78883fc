//! Parts of Java that are left out, by the token at which a source shows them.
ghost use Rattle.std.specs.Prelude.{◌≡◌, ◌∷◌, [], map};
ghost use Rattle.jav_lex.specs.Token.{seen, all_seen};
ghost use Rattle.jav_parse_unit.specs.Features as spec;
ghost use Rattle.jav_parse_unit.specs.FeatureTables.{found};

use jav_lex::Token;
use mol_base::TokenKind;
use std::fmt;

/// A part of Java that is left out.
#[derive(Clone, Copy, Debug, PartialEq, Eq)]
pub enum Feature {
    /// `<`
    Generics,
    Interface,
    Implements,
    Enum,
    Switch,
    Case,
    Default,
    Do,
    Synchronized,
    Assert,
    Native,
    Strictfp,
    Goto,
    Const,
    Float,
    Double,
    Try,
    Catch,
    Finally,
    Throws,
    /// `->`
    Lambda,
    /// `::`
    MethodReference,
    /// `...`
    Varargs,
    /// `@`
    Annotation,
    /// `*`
    OnDemand,
    /// `static` where it can't stand.
    StaticPlace,
    /// `class` where it can't stand.
    NestedClass,
    /// `:`
    Label,
    /// `{` where it can't stand.
    Braces,
    /// `[` where it can't stand.
    ArrayDeclarator,
    /// `(` after `this`.
    ThisCall,
}

impl Feature {
    /// Its name in messages: the word that shows it, or what its symbol is for.
    pub fn name(self) -> &'static str
        ensures { result.now ≡ spec.name self }
    {
        match self {
            Feature::Generics => "generics",
            Feature::Interface => "interface",
            Feature::Implements => "implements",
            Feature::Enum => "enum",
            Feature::Switch => "switch",
            Feature::Case => "case",
            Feature::Default => "default",
            Feature::Do => "do",
            Feature::Synchronized => "synchronized",
            Feature::Assert => "assert",
            Feature::Native => "native",
            Feature::Strictfp => "strictfp",
            Feature::Goto => "goto",
            Feature::Const => "const",
            Feature::Float => "float",
            Feature::Double => "double",
            Feature::Try => "try",
            Feature::Catch => "catch",
            Feature::Finally => "finally",
            Feature::Throws => "throws",
            Feature::Lambda => "lambda",
            Feature::MethodReference => "method-reference",
            Feature::Varargs => "varargs",
            Feature::Annotation => "annotation",
            Feature::OnDemand => "on-demand",
            Feature::StaticPlace => "static-place",
            Feature::NestedClass => "nested-class",
            Feature::Label => "label",
            Feature::Braces => "braces",
            Feature::ArrayDeclarator => "array-declarator",
            Feature::ThisCall => "this-call",
        }
    }
}

impl fmt::Display for Feature {
    fn fmt<W: fmt::Write>(&self, f: &mut fmt::Formatter<W>) -> fmt::Result {
        f.write_str(self.name())
    }
}

pub const SYMBOLS: [(&[u8], Feature); 9] = [
    (b"<", Feature::Generics),
    (b"->", Feature::Lambda),
    (b"::", Feature::MethodReference),
    (b"...", Feature::Varargs),
    (b"@", Feature::Annotation),
    (b"*", Feature::OnDemand),
    (b":", Feature::Label),
    (b"{", Feature::Braces),
    (b"[", Feature::ArrayDeclarator),
];

pub const KEYWORDS: [(&[u8], Feature); 21] = [
    (b"interface", Feature::Interface),
    (b"implements", Feature::Implements),
    (b"enum", Feature::Enum),
    (b"switch", Feature::Switch),
    (b"case", Feature::Case),
    (b"default", Feature::Default),
    (b"do", Feature::Do),
    (b"synchronized", Feature::Synchronized),
    (b"assert", Feature::Assert),
    (b"native", Feature::Native),
    (b"strictfp", Feature::Strictfp),
    (b"goto", Feature::Goto),
    (b"const", Feature::Const),
    (b"float", Feature::Float),
    (b"double", Feature::Double),
    (b"try", Feature::Try),
    (b"catch", Feature::Catch),
    (b"finally", Feature::Finally),
    (b"throws", Feature::Throws),
    (b"static", Feature::StaticPlace),
    (b"class", Feature::NestedClass),
];

/// The feature of the row with this text.
fn looked_up(rows: &[(&[u8], Feature)], text: &[u8]) -> Option<Feature>
    ensures { result ≡ found (map (λ row. (row.0.now, row.1)) rows.now) text.now }
{
    let mut after = rows;
    while let [row, rest @ ..] = after {
        if text == row.0 {
            return Some(row.1);
        }
        after = rest;
    }
    None
}

fn is_this(token: &Token) -> bool
    ensures { result ≡ spec.ends_in_this (seen token.now ∷ []) }
{
    token.kind == TokenKind::Keyword && token.text.bytes() == b"this".as_slice()
}

/// Whether the last token is `this`.
fn ends_in_this(before: &[Token]) -> bool
    ensures { result ≡ spec.ends_in_this (all_seen before.now) }
{
    match before {
        [] => false,
        [.., last] => is_this(last),
    }
}

/// The feature that the bad token after the tokens `before` shows.
pub fn feature_at(before: &[Token], bad: &Token) -> Option<Feature>
    ensures { result ≡ spec.feature_at (all_seen before.now) (seen bad.now) }
{
    let text = bad.text.bytes();
    match bad.kind {
        TokenKind::Symbol => {
            if text != b"(".as_slice() {
                looked_up(&SYMBOLS, text)
            } else if ends_in_this(before) {
                Some(Feature::ThisCall)
            } else {
                None
            }
        }
        TokenKind::Keyword => looked_up(&KEYWORDS, text),
        _ => None,
    }
}
