//! Modifiers and comments, as the values of cells.
ghost use Rattle.std.specs.Prelude.{◌≡◌, IfOk};
ghost use Rattle.mol_resolve_entities.specs.Parts.{words_value, front_value};

use mol_base::{List, OutOfMemory, Text};
use mol_values_types::{Notes, Value, Words, copy_texts};
use std::alloc::Global;

/// What stands before a member: its modifiers and comments.
#[derive(Drop)]
pub(crate) struct Front {
    pub words: Value,
    pub notes: Value,
}

impl Front {
    /// These modifiers and comments.
    pub fn new(alloc: Global, words: &[Text], front: &[Text]) -> Result<Front, OutOfMemory>
        ensures words { IfOk result (λ made. made.words ≡ words_value words.now) }
        ensures notes { IfOk result (λ made. made.notes ≡ front_value front.now) }
    {
        Ok(Front {
            words: words_value(alloc, words)?,
            notes: front_value(alloc, front)?,
        })
    }
}

/// Modifiers.
pub(crate) fn words_value(alloc: Global, words: &[Text]) -> Result<Value, OutOfMemory>
    ensures { IfOk result (λ value. value ≡ words_value words.now) }
{
    Ok(Value::Words(Words {
        texts: copy_texts(alloc, words)?,
    }))
}

/// Comments before a member.
fn front_value(alloc: Global, front: &[Text]) -> Result<Value, OutOfMemory>
    ensures { IfOk result (λ value. value ≡ front_value front.now) }
{
    Ok(Value::Notes(Notes {
        front: copy_texts(alloc, front)?,
        head: List::new(alloc),
        tail: List::new(alloc),
    }))
}
