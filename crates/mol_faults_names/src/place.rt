//! Where names are read.
use mol_scope::NamePlace;
use mol_spell_places::BodyLocals;

/// A place in the file of a class of a table where names are read, and the locals that were declared up to there.
#[derive(Clone, Copy)]
pub struct InsteadPlace<'p, 'a, 'b> {
    pub names: &'p NamePlace<'a, 'b>,
    pub locals: &'b BodyLocals<'a>,
}
