//! Entries of logs.
ghost use Rattle.mol_log.specs.entries.EntryForms.{IsEntry};

use mol_base::Stamp;
use mol_op::Op;

/// An operation with the stamp under which it was recorded.
#[derive(Drop)]
pub struct Entry {
    pub stamp: Stamp,
    pub op: Op,
    // The forms of a row hold, and the trees are within the limits: bodies and first values at most 500 high, arrays of at
    // most 255 dimensions, at most 255 arguments and parameters, and each local in scope.
    pub ghost formed: { ∥ IsEntry stamp op ∥₁ },
}
