//! The words with which a statement or a part of one begins, taken from the front of others.
ghost use Rattle.std.specs.Prelude.{◌≡◌};
ghost use Rattle.mol_log_body.specs.BodyReader.{at_note};
ghost use Rattle.mol_log_body.specs.StatementHeads as spec;
ghost use Rattle.mol_log_words.specs.Reader.{take};
ghost use Rattle.mol_log_words.specs.Reads.{Reads};

use crate::stmt_head::{self, Choice, ElseHead, NodeHead, StartHead};
use mol_log_words::{Cursor, Fault};

/// Takes the word with which a statement begins whose parts are no higher than `depth`.
pub fn take_node_head(words: &mut Cursor<'_>, first: bool, depth: u32) -> Result<NodeHead, Fault>
    ensures { Reads (take (spec.node_head_of first depth) words.old) result words.new }
{
    let found = stmt_head::node_head_of(first, depth, words.next_word()?.bytes());
    words.accept(found)
}

/// Takes the word that says what follows the branch of an `if`.
pub fn take_else_head(words: &mut Cursor<'_>, depth: u32) -> Result<ElseHead, Fault>
    ensures { Reads (take (spec.else_head_of depth) words.old) result words.new }
{
    let found = stmt_head::else_head_of(depth, words.next_word()?.bytes());
    words.accept(found)
}

/// Takes the word that says how a `for` starts.
pub fn take_start_head(words: &mut Cursor<'_>, depth: u32) -> Result<StartHead, Fault>
    ensures { Reads (take (spec.start_head_of depth) words.old) result words.new }
{
    let found = stmt_head::start_head_of(depth, words.next_word()?.bytes());
    words.accept(found)
}

/// Takes one of two words, the one that says yes only where `deeper` holds.
pub fn take_choice(words: &mut Cursor<'_>, choice: Choice, deeper: bool) -> Result<bool, Fault>
    ensures { Reads (take (spec.choice_of choice deeper) words.old) result words.new }
{
    let found = stmt_head::choice_of(choice, deeper, words.next_word()?.bytes());
    words.accept(found)
}

/// Takes the word `block`.
pub fn take_block(words: &mut Cursor<'_>) -> Result<(), Fault>
    ensures { Reads (take (spec.marked spec.is_block) words.old) result words.new }
{
    let found = stmt_head::is_block(words.next_word()?.bytes()).then_some(());
    words.accept(found)
}

/// Takes the word `note`.
pub fn take_note(words: &mut Cursor<'_>) -> Result<(), Fault>
    ensures { Reads (take (spec.marked spec.is_note) words.old) result words.new }
{
    let found = stmt_head::is_note(words.next_word()?.bytes()).then_some(());
    words.accept(found)
}

/// Whether the next word is `note`.
#[tactic(auto, unfolding(crate::specs::BodyReader::at_note))]
pub fn is_at_note(words: &Cursor<'_>) -> bool
    ensures { result ≡ at_note words.now }
{
    match words.next_word() {
        Ok(word) => stmt_head::is_note(word.bytes()),
        Err(_) => false,
    }
}
