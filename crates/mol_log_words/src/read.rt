//! Whole lists of words.
ghost use Rattle.std.specs.Prelude.{◌≡◌};
ghost use Rattle.mol_log_words.specs.Reads.{IsReading, answered};
ghost use Rattle.mol_log_words.specs.Types.{IsType, most_dimensions};

use crate::cursor::Cursor;
use crate::fault::{BadWord, Fault};
use crate::type_role::TypeRole;
use crate::types::{MAX_DIMENSIONS, type_name};
use mol_base::Text;
use mol_values_types::IType;
use std::alloc::Global;

/// The type that the words spell, which may stand at a place of this role and has at most 255 dimensions
/// (JVMS 4.11). `BadWord::Bad` has a place among the words, from 0: that of the first word with which they
/// are no longer the front of such a type, or how many they are where they are but a front of one.
pub fn read_type(alloc: Global, role: TypeRole, words: &[Text]) -> Result<IType, BadWord>
    ensures { IsReading (IsType role most_dimensions) words.now result }
{
    let mut cursor = Cursor::new(words);
    let read = type_name(alloc, &mut cursor, role, MAX_DIMENSIONS);
    whole(read, words.len(), cursor.left())
}

/// What was read of a whole list of `count` words, of which `left` are left (at most `count`): where some are
/// left the first of them is the first bad one.
#[tactic(auto, unfolding(crate::specs::Reads::answered))]
pub fn whole<T: Drop>(read: Result<T, Fault>, count: usize, left: usize) -> Result<T, BadWord>
    ensures { result ≡ answered count left read }
{
    match read {
        Ok(tree) => {
            if left == 0 {
                Ok(tree)
            } else {
                Err(BadWord::Bad(count.saturating_sub(left)))
            }
        }
        Err(Fault::Bad) => Err(BadWord::Bad(count.saturating_sub(left))),
        Err(Fault::OutOfMemory) => Err(BadWord::OutOfMemory),
    }
}
