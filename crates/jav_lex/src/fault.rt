//! Why a source has no tokens.
use mol_base::OutOfMemory;
use mol_base::lexical::Flaw;

/// What is wrong with a source, and the byte at which it is.
#[derive(Clone, Copy, Debug, PartialEq, Eq, thiserror::Error)]
pub enum LexFault {
    /// The first ill-formed sequence of bytes begins there (RFC 3629).
    #[error("not UTF-8 at byte {0}")]
    NotUtf8(u32),
    /// A character that begins no token, or `_` alone.
    #[error("no token begins with the character at byte {0}")]
    BadChar(u32),
    /// A string or character literal that begins there does not end as one.
    #[error("the literal at byte {0} does not end")]
    OpenString(u32),
    /// The comment that begins there does not end.
    #[error("the comment at byte {0} does not end")]
    OpenComment(u32),
    /// The backslash there begins no escape.
    #[error("no escape at byte {0}")]
    BadEscape(u32),
    /// A Unicode escape, which this language does not have.
    #[error("Unicode escape at byte {0}")]
    UnicodeEscape(u32),
    /// A floating-point literal, which this language does not have.
    #[error("floating-point literal at byte {0}")]
    FloatLiteral(u32),
    /// A run of letters and digits after a digit that is no number.
    #[error("no number at byte {0}")]
    BadNumber(u32),
    /// A text block, which this language does not have.
    #[error("text block at byte {0}")]
    TextBlock(u32),
    /// A name of more than 255 bytes.
    #[error("name of more than 255 bytes at byte {0}")]
    NameTooLong(u32),
    #[error("out of memory")]
    OutOfMemory,
}

impl From<OutOfMemory> for LexFault {
    ghost use Rattle.std.specs.Prelude.{◌≡◌};
    ghost use Rattle.jav_lex.specs.declared.fault.LexFault.TheVariants.{OutOfMemory as Wants};

    ghost from_gives = { λ _ fault. fault ≡ Wants };

    fn from(_: OutOfMemory) -> LexFault {
        LexFault::OutOfMemory
    }
}

impl LexFault {
    ghost use Rattle.std.specs.Prelude.{◌≡◌};
    ghost use Rattle.jav_lex.specs.Fault.{flawed};

    /// The fault of a flaw at a byte.
    pub fn of_flaw(flaw: Flaw, at: u32) -> LexFault
        ensures { result ≡ flawed flaw at }
    {
        match flaw {
            Flaw::BadChar => LexFault::BadChar(at),
            Flaw::OpenString => LexFault::OpenString(at),
            Flaw::OpenComment => LexFault::OpenComment(at),
            Flaw::BadEscape => LexFault::BadEscape(at),
            Flaw::FloatLiteral => LexFault::FloatLiteral(at),
            Flaw::BadNumber => LexFault::BadNumber(at),
            Flaw::TextBlock => LexFault::TextBlock(at),
            Flaw::NameTooLong => LexFault::NameTooLong(at),
        }
    }
}
