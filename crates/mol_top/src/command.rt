//! The commands, and their words.
ghost use Rattle.std.specs.Prelude.{[], ◌≡◌, ◌∷◌, option_map};
ghost use Rattle.mol_top.specs.Command.{command, is_path as is_path_word};
ghost use Rattle.mol_top.specs.Words.{command_of};

use mol_base::Text;

/// The words of `merge BASE LOG1 LOG2 OUT` after the first.
#[derive(Clone, Copy)]
pub struct MergeWords<'a> {
    pub base: &'a Text,
    pub first: &'a Text,
    pub second: &'a Text,
    pub out: &'a Text,
}

/// The words of `check BASE` after the first.
#[derive(Clone, Copy)]
pub struct CheckWords<'a> {
    pub base: &'a Text,
}

/// The words of `fmt BASE OUT` after the first.
#[derive(Clone, Copy)]
pub struct FmtWords<'a> {
    pub base: &'a Text,
    pub out: &'a Text,
}

/// The words of `ids BASE` after the first.
#[derive(Clone, Copy)]
pub struct IdsWords<'a> {
    pub base: &'a Text,
}

/// The words of `replay BASE LOG OUT` after the first.
#[derive(Clone, Copy)]
pub struct ReplayWords<'a> {
    pub base: &'a Text,
    pub log: &'a Text,
    pub out: &'a Text,
}

/// A command with its words.
#[derive(Clone, Copy)]
pub enum Command<'a> {
    Merge(MergeWords<'a>),
    Check(CheckWords<'a>),
    Fmt(FmtWords<'a>),
    Ids(IdsWords<'a>),
    Replay(ReplayWords<'a>),
}

/// The command that the words spell, if they spell one. The words are counted exactly, and an empty word is no path.
pub fn parse<'a>(words: &'a [Text]) -> Option<Command<'a>>
    ensures { option_map command_of result ≡ command words.now }
{
    match words {
        [verb, base] => over_base(verb, base),
        [verb, base, out] => to_out(verb, base, out),
        [verb, base, log, out] => with_log(verb, base, log, out),
        [verb, base, first, second, out] => with_logs(verb, base, first, second, out),
        _ => None,
    }
}

/// The command of two words.
fn over_base<'a>(verb: &Text, base: &'a Text) -> Option<Command<'a>>
    ensures { option_map command_of result ≡ command (verb.now ∷ base.now ∷ []) }
{
    if verb.bytes() == b"check".as_slice() && is_path(base) {
        Some(Command::Check(CheckWords { base }))
    } else if verb.bytes() == b"ids".as_slice() && is_path(base) {
        Some(Command::Ids(IdsWords { base }))
    } else {
        None
    }
}

/// The command of three words.
fn to_out<'a>(verb: &Text, base: &'a Text, out: &'a Text) -> Option<Command<'a>>
    ensures { option_map command_of result ≡ command (verb.now ∷ base.now ∷ out.now ∷ []) }
{
    if verb.bytes() == b"fmt".as_slice() && is_path(base) && is_path(out) {
        Some(Command::Fmt(FmtWords { base, out }))
    } else {
        None
    }
}

/// The command of four words.
fn with_log<'a>(verb: &Text, base: &'a Text, log: &'a Text, out: &'a Text) -> Option<Command<'a>>
    ensures { option_map command_of result ≡ command (verb.now ∷ base.now ∷ log.now ∷ out.now ∷ []) }
{
    if verb.bytes() == b"replay".as_slice() && is_path(base) && is_path(log) && is_path(out) {
        Some(Command::Replay(ReplayWords { base, log, out }))
    } else {
        None
    }
}

/// The command of five words.
fn with_logs<'a>(
    verb: &Text,
    base: &'a Text,
    first: &'a Text,
    second: &'a Text,
    out: &'a Text,
) -> Option<Command<'a>>
    ensures { option_map command_of result ≡ command (verb.now ∷ base.now ∷ first.now ∷ second.now ∷ out.now ∷ []) }
{
    if verb.bytes() == b"merge".as_slice()
        && is_path(base)
        && is_path(first)
        && is_path(second)
        && is_path(out)
    {
        Some(Command::Merge(MergeWords {
            base,
            first,
            second,
            out,
        }))
    } else {
        None
    }
}

/// Whether a word is a path: an empty one is none.
fn is_path(word: &Text) -> bool
    ensures { result ≡ is_path_word word.now }
{
    !word.bytes().is_empty()
}
