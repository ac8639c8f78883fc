//! Comments from words, and the statements and blocks to which they belong.
ghost use Rattle.std.specs.Prelude.{◌≡◌, [], true};
ghost use Rattle.mol_log_body.specs.Bodies.{stmt_of};
ghost use Rattle.mol_log_body.specs.BodyReader as reader;
ghost use Rattle.mol_log_body.specs.ReadsIn.{result_map};
ghost use Rattle.mol_log_words.specs.Reads.{Reads};

use crate::stmt_head::NodeHead;
use crate::take::{is_at_note, take_node_head, take_note};
use mol_base::{List, Text};
use mol_log_words::{Bounds, Cursor, Fault, TextForm};
use mol_values_types::{IBlock, IStmt, IStmtNode};
use std::alloc::Global;

/// A count and so many comments.
pub fn comments(alloc: Global, words: &mut Cursor<'_>) -> Result<List<Text>, Fault>
    ensures { Reads (reader.comments words.old) result words.new }
{
    let count = words.count(Bounds::Any, true)?;
    let mut all = List::new(alloc);
    for _turn in 0..count {
        let item = words.text(alloc, TextForm::Comment)?;
        all.add(item)?;
    }
    // so great a count was cut off, and no memory holds as many
    if count == u64::MAX {
        return Err(Fault::OutOfMemory);
    }
    Ok(all)
}

/// The comments before a statement, and the word with which it begins.
#[derive(Drop)]
pub struct Opening {
    pub notes: List<Text>,
    pub head: NodeHead,
}

/// Any number of comments before a statement, and then its first word, with parts no higher than `depth`.
pub fn open_stmt(
    alloc: Global,
    words: &mut Cursor<'_>,
    first: bool,
    depth: u32,
) -> Result<Opening, Fault>
    ensures { Reads (reader.opening first depth [] words.old) result words.new }
{
    let mut notes = List::new(alloc);
    while is_at_note(words) {
        take_note(words)?;
        let note = words.text(alloc, TextForm::Comment)?;
        notes.add(note)?;
    }
    let head = take_node_head(words, first, depth)?;
    Ok(Opening { notes, head })
}

/// The statement that was read after these comments.
pub fn noted(notes: List<Text>, node: Result<IStmtNode, Fault>) -> Result<IStmt, Fault>
    ensures { result ≡ result_map (stmt_of notes) node }
{
    let node = node?;
    Ok(IStmt { notes, node })
}

/// Takes the comments before the last brace of the block of these statements.
pub fn block_of(alloc: Global, words: &mut Cursor<'_>, items: List<IStmt>) -> Result<IBlock, Fault>
    ensures { Reads (reader.block_after items words.old) result words.new }
{
    let tail = comments(alloc, words)?;
    Ok(IBlock { items, tail })
}
