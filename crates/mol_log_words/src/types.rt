//! Types from words.
ghost use Rattle.mol_log_words.specs.TypeReader as reader;
ghost use Rattle.mol_log_words.specs.Reads.{Reads};

use crate::cursor::Cursor;
use crate::fault::Fault;
use crate::text_form::TextForm;
use crate::type_head::TypeHead;
use crate::type_role::TypeRole;
use mol_base::Boxed;
use mol_values_types::IType;
use std::alloc::Global;

/// The greatest number of dimensions of an array (JVMS 4.11).
pub const MAX_DIMENSIONS: u32 = 255;

/// Takes a type that may stand at a place of this role, with at most so many dimensions.
#[cycle(type_name)]
#[tactic(auto, using(crate::proofs::TypeTurns::type_steps))]
pub fn type_name(
    alloc: Global,
    words: &mut Cursor<'_>,
    role: TypeRole,
    dimensions: u32,
) -> Result<IType, Fault>
    ensures { Reads (reader.type_name role dimensions words.old) result words.new }
{
    let head = words.type_head(role, 0 < dimensions)?;
    type_after(alloc, words, head, dimensions)
}

/// Takes what follows the first word of a type.
#[cycle(type_name)]
fn type_after(
    alloc: Global,
    words: &mut Cursor<'_>,
    head: TypeHead,
    dimensions: u32,
) -> Result<IType, Fault>
    ensures { Reads (reader.type_by (reader.items dimensions) head words.old) result words.new }
{
    match head {
        TypeHead::Boolean => Ok(IType::Boolean),
        TypeHead::Byte => Ok(IType::Byte),
        TypeHead::Short => Ok(IType::Short),
        TypeHead::Char => Ok(IType::Char),
        TypeHead::Int => Ok(IType::Int),
        TypeHead::Long => Ok(IType::Long),
        TypeHead::Void => Ok(IType::Void),
        TypeHead::Class => Ok(IType::Class(words.id()?)),
        TypeHead::Imported => {
            let full = words.text(alloc, TextForm::Dotted)?;
            let rest = words.text(alloc, TextForm::Rest)?;
            Ok(IType::Imported(full, Boxed::new(alloc, rest)?))
        }
        TypeHead::Written => Ok(IType::Written(words.text(alloc, TextForm::Dotted)?)),
        TypeHead::Array => {
            let ty = items(alloc, words, dimensions)?;
            Ok(IType::Array(Boxed::new(alloc, ty)?))
        }
    }
}

/// Takes the type of the items of an array that has at most so many dimensions.
#[cycle(type_name)]
#[tactic(auto, using(crate::proofs::TypeTurns::items_steps))]
fn items(alloc: Global, words: &mut Cursor<'_>, dimensions: u32) -> Result<IType, Fault>
    ensures { Reads (reader.items dimensions words.old) result words.new }
{
    if dimensions == 0 {
        return Err(Fault::Bad);
    }
    type_name(alloc, words, TypeRole::Value, dimensions - 1)
}
