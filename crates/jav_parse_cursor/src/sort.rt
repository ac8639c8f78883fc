//! What the grammar knows of a token.
ghost use Rattle.std.specs.Prelude.{◌≡◌, map};
ghost use Rattle.jav_lex.specs.Token.{seen};
ghost use Rattle.jav_parse_cursor.specs.Sorts as spec;

use jav_lex::Token;
use mol_base::TokenKind;

/// The sorts of tokens that the grammar tells apart.
#[derive(Clone, Copy, PartialEq, Eq)]
pub enum Sort {
    /// There is no token.
    End,
    Comment,
    Name,
    Literal,
    /// `(`
    Open,
    /// `)`
    Close,
    /// `{`
    Begin,
    /// `}`
    Finish,
    /// `[`
    Left,
    /// `]`
    Right,
    Semi,
    Comma,
    Dot,
    /// `@`
    At,
    /// `?`
    Question,
    Colon,
    /// `=`
    Equals,
    /// A compound assignment.
    Compound,
    /// `++` and `--`.
    Step,
    /// `!` and `~`.
    Not,
    /// `+` and `-`.
    Sign,
    /// `||`
    Or,
    /// `&&`
    And,
    /// `|`
    BitOr,
    /// `^`
    Xor,
    /// `&`
    BitAnd,
    /// `==` and `!=`.
    Equality,
    /// `<`, `>`, `<=` and `>=`.
    Relation,
    /// `<<`, `>>` and `>>>`.
    Shift,
    /// `*`, `/` and `%`.
    Product,
    Public,
    Protected,
    Private,
    Abstract,
    Static,
    Final,
    Transient,
    Volatile,
    Package,
    Import,
    Class,
    Extends,
    /// A primitive type.
    Prim,
    Void,
    If,
    Else,
    While,
    For,
    Return,
    Throw,
    Break,
    Continue,
    New,
    Super,
    This,
    InstanceOf,
    /// No tree has this token.
    Other,
}

#[tactic(auto, unfolding(crate::specs::Sorts::same_sort))]
pub fn same_sort(a: Sort, b: Sort) -> bool
    ensures { result ≡ spec.same_sort a b }
{
    a == b
}

/// The symbols that the grammar knows.
pub const SYMBOLS: [(&[u8], Sort); 47] = [
    (b".", Sort::Dot),
    (b"(", Sort::Open),
    (b")", Sort::Close),
    (b";", Sort::Semi),
    (b",", Sort::Comma),
    (b"=", Sort::Equals),
    (b"{", Sort::Begin),
    (b"}", Sort::Finish),
    (b"[", Sort::Left),
    (b"]", Sort::Right),
    (b"+", Sort::Sign),
    (b"-", Sort::Sign),
    (b"<", Sort::Relation),
    (b">", Sort::Relation),
    (b"==", Sort::Equality),
    (b"!=", Sort::Equality),
    (b"<=", Sort::Relation),
    (b">=", Sort::Relation),
    (b"&&", Sort::And),
    (b"||", Sort::Or),
    (b"!", Sort::Not),
    (b"++", Sort::Step),
    (b"--", Sort::Step),
    (b"*", Sort::Product),
    (b"/", Sort::Product),
    (b"%", Sort::Product),
    (b"?", Sort::Question),
    (b":", Sort::Colon),
    (b"@", Sort::At),
    (b"+=", Sort::Compound),
    (b"-=", Sort::Compound),
    (b"*=", Sort::Compound),
    (b"/=", Sort::Compound),
    (b"&=", Sort::Compound),
    (b"|=", Sort::Compound),
    (b"^=", Sort::Compound),
    (b"%=", Sort::Compound),
    (b"&", Sort::BitAnd),
    (b"|", Sort::BitOr),
    (b"^", Sort::Xor),
    (b"~", Sort::Not),
    (b"<<", Sort::Shift),
    (b">>", Sort::Shift),
    (b">>>", Sort::Shift),
    (b"<<=", Sort::Compound),
    (b">>=", Sort::Compound),
    (b">>>=", Sort::Compound),
];

/// The keywords that the grammar knows.
pub const KEYWORDS: [(&[u8], Sort); 31] = [
    (b"new", Sort::New),
    (b"this", Sort::This),
    (b"return", Sort::Return),
    (b"if", Sort::If),
    (b"int", Sort::Prim),
    (b"public", Sort::Public),
    (b"private", Sort::Private),
    (b"static", Sort::Static),
    (b"final", Sort::Final),
    (b"void", Sort::Void),
    (b"boolean", Sort::Prim),
    (b"else", Sort::Else),
    (b"for", Sort::For),
    (b"while", Sort::While),
    (b"throw", Sort::Throw),
    (b"super", Sort::Super),
    (b"protected", Sort::Protected),
    (b"import", Sort::Import),
    (b"instanceof", Sort::InstanceOf),
    (b"break", Sort::Break),
    (b"continue", Sort::Continue),
    (b"char", Sort::Prim),
    (b"long", Sort::Prim),
    (b"byte", Sort::Prim),
    (b"short", Sort::Prim),
    (b"abstract", Sort::Abstract),
    (b"transient", Sort::Transient),
    (b"volatile", Sort::Volatile),
    (b"class", Sort::Class),
    (b"extends", Sort::Extends),
    (b"package", Sort::Package),
];

/// The sort of the row with this text.
fn looked_up(rows: &[(&[u8], Sort)], text: &[u8]) -> Sort
    ensures { result ≡ spec.looked_up (map (λ row. (row.0.now, row.1)) rows.now) text.now }
{
    let mut after = rows;
    while let [row, rest @ ..] = after {
        if row.0 == text {
            return row.1;
        }
        after = rest;
    }
    Sort::Other
}

/// What the grammar knows of a token.
#[tactic(auto, unfolding(crate::specs::Sorts::sort_of))]
pub fn sort_of(token: &Token) -> Sort
    ensures { result ≡ spec.sort_of (seen token.now) }
{
    match token.kind {
        TokenKind::Word => Sort::Name,
        TokenKind::Literal => Sort::Literal,
        TokenKind::Comment => Sort::Comment,
        TokenKind::Symbol => looked_up(&SYMBOLS, token.text.bytes()),
        TokenKind::Keyword => looked_up(&KEYWORDS, token.text.bytes()),
    }
}
