//! Whole lists of words.
ghost use Rattle.mol_base.specs.Limits.{most};
ghost use Rattle.mol_base.specs.declared.limit.Which.TheVariants.{Height};
ghost use Rattle.mol_log_body.specs.Bodies.{IsBody};
ghost use Rattle.mol_log_body.specs.BodyReader as reader;
ghost use Rattle.mol_log_words.specs.Reads.{IsReading, Reads};

use crate::stmt::block;
use mol_base::Text;
use mol_log_expr::{MAX_HEIGHT, Scope};
use mol_log_words::{BadWord, Cursor, Fault, whole};
use mol_values_types::IBody;
use std::alloc::Global;

/// The body that the words spell: at most 500 high, each local by its number among those in scope (JLS 6.3, 14).
/// `BadWord::Bad` has a place among the words, from 0: that of the first word with which they are no longer the
/// front of such a body, or how many they are where they are but a front of one.
pub fn read_body(alloc: Global, words: &[Text]) -> Result<IBody, BadWord>
    ensures { IsReading (IsBody (most Height)) words.now result }
{
    let mut cursor = Cursor::new(words);
    let read = body(alloc, &mut cursor, MAX_HEIGHT);
    whole(read, words.len(), cursor.left())
}

/// A body no higher than `depth`.
fn body(alloc: Global, words: &mut Cursor<'_>, depth: u32) -> Result<IBody, Fault>
    ensures { Reads (reader.body depth words.old) result words.new }
{
    let mut scope = Scope::new(alloc);
    let block = block(alloc, words, true, depth, &mut scope)?;
    Ok(IBody { block })
}
