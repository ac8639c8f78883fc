//! Why a source has no tree.
use jav_lex::LexFault;
use jav_parse_unit::{Feature, ParseFault};
use mol_base::OutOfMemory;

/// What is wrong with the text of a source: with its bytes, or else with its tokens.
#[derive(Clone, Copy, Debug, PartialEq, Eq)]
pub enum TextFault {
    Lex(LexFault),
    Parse(ParseFault),
}

/// Why a call answers nothing of a source.
#[derive(Clone, Copy, Debug, PartialEq, Eq)]
pub enum UnitFault {
    Text(TextFault),
    OutOfMemory,
}

impl TextFault {
    ghost use Rattle.std.specs.Prelude.{◌≡◌};
    ghost use Rattle.jav_source.specs.FaultTexts.{place, name, feature};

    /// The byte at which the fault is, counted from 0.
    pub fn at(&self) -> u32
        ensures { result ≡ place self.now }
    {
        match self {
            TextFault::Lex(fault) => lexical_place(*fault),
            TextFault::Parse(fault) => syntax_place(*fault),
        }
    }

    /// Its name in messages: the words of the variant in lower case, joined by `-`.
    pub fn name(&self) -> &'static str
        ensures { result.now ≡ name self.now }
    {
        match self {
            TextFault::Lex(fault) => lexical_name(*fault),
            TextFault::Parse(fault) => syntax_name(*fault),
        }
    }

    /// The part of Java that is refused, where it is one.
    pub fn feature(&self) -> Option<Feature>
        ensures { result ≡ feature self.now }
    {
        match self {
            TextFault::Lex(_) => None,
            TextFault::Parse(fault) => refused_feature(*fault),
        }
    }
}

ghost use Rattle.std.specs.Prelude.{◌≡◌};
ghost use Rattle.jav_lex.specs.Fault.{place as place_in_bytes};
ghost use Rattle.jav_source.specs.FaultTexts.{syntax_at, refused, lexical_word, syntax_word};

fn lexical_place(fault: LexFault) -> u32
    ensures { result ≡ place_in_bytes fault }
{
    match fault {
        LexFault::NotUtf8(at) => at,
        LexFault::BadChar(at) => at,
        LexFault::OpenString(at) => at,
        LexFault::OpenComment(at) => at,
        LexFault::BadEscape(at) => at,
        LexFault::UnicodeEscape(at) => at,
        LexFault::FloatLiteral(at) => at,
        LexFault::BadNumber(at) => at,
        LexFault::TextBlock(at) => at,
        LexFault::NameTooLong(at) => at,
        LexFault::OutOfMemory => 0,
    }
}

fn syntax_place(fault: ParseFault) -> u32
    ensures { result ≡ syntax_at fault }
{
    match fault {
        ParseFault::Expected(at) => at,
        ParseFault::Refused(_, at) => at,
        ParseFault::CommentPlace(at) => at,
        ParseFault::TooDeep(at) => at,
        ParseFault::TooMany(at) => at,
        ParseFault::OutOfMemory => 0,
    }
}

fn refused_feature(fault: ParseFault) -> Option<Feature>
    ensures { result ≡ refused fault }
{
    match fault {
        ParseFault::Expected(_) => None,
        ParseFault::Refused(feature, _) => Some(feature),
        ParseFault::CommentPlace(_) => None,
        ParseFault::TooDeep(_) => None,
        ParseFault::TooMany(_) => None,
        ParseFault::OutOfMemory => None,
    }
}

fn lexical_name(fault: LexFault) -> &'static str
    ensures { result.now ≡ lexical_word fault }
{
    match fault {
        LexFault::NotUtf8(_) => "not-utf8",
        LexFault::BadChar(_) => "bad-char",
        LexFault::OpenString(_) => "open-string",
        LexFault::OpenComment(_) => "open-comment",
        LexFault::BadEscape(_) => "bad-escape",
        LexFault::UnicodeEscape(_) => "unicode-escape",
        LexFault::FloatLiteral(_) => "float-literal",
        LexFault::BadNumber(_) => "bad-number",
        LexFault::TextBlock(_) => "text-block",
        LexFault::NameTooLong(_) => "name-too-long",
        LexFault::OutOfMemory => "out-of-memory",
    }
}

fn syntax_name(fault: ParseFault) -> &'static str
    ensures { result.now ≡ syntax_word fault }
{
    match fault {
        ParseFault::Expected(_) => "expected",
        ParseFault::Refused(_, _) => "refused",
        ParseFault::CommentPlace(_) => "comment-place",
        ParseFault::TooDeep(_) => "too-deep",
        ParseFault::TooMany(_) => "too-many",
        ParseFault::OutOfMemory => "out-of-memory",
    }
}

impl UnitFault {
    ghost use Rattle.std.specs.Prelude.{◌≡◌};
    ghost use Rattle.jav_source.specs.Sources.{of_lexical, of_syntax};

    /// A lexical fault, or want of memory.
    pub fn of_lexical(fault: LexFault) -> UnitFault
        ensures { result ≡ of_lexical fault }
    {
        match fault {
            LexFault::OutOfMemory => UnitFault::OutOfMemory,
            fault => UnitFault::Text(TextFault::Lex(fault)),
        }
    }

    /// A syntax fault, or want of memory.
    pub fn of_syntax(fault: ParseFault) -> UnitFault
        ensures { result ≡ of_syntax fault }
    {
        match fault {
            ParseFault::OutOfMemory => UnitFault::OutOfMemory,
            fault => UnitFault::Text(TextFault::Parse(fault)),
        }
    }
}

impl From<OutOfMemory> for UnitFault {
    ghost use Rattle.std.specs.Prelude.{◌≡◌};
    ghost use Rattle.jav_source.specs.declared.fault.UnitFault.TheVariants.{OutOfMemory as Wants};

    ghost from_gives = { λ _ fault. fault ≡ Wants };

    fn from(_: OutOfMemory) -> UnitFault {
        UnitFault::OutOfMemory
    }
}
