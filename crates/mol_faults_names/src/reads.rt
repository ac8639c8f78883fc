//! Values that names read as.
use crate::word::Word;
use mol_scope::StaticType;

/// What the last of several names is the name of, and the static type of its value.
#[derive(Clone, Copy)]
pub(crate) struct Reads<'b> {
    pub word: Word<'b>,
    pub ty: StaticType<'b>,
}
