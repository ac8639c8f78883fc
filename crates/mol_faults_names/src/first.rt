//! What the leftmost of several names reads as.
ghost use Rattle.std.specs.Prelude.{◌≡◌};
ghost use Rattle.mol_faults_names.specs.Kept.{leftmost_of};
ghost use Rattle.mol_scope.specs.declared.first_names.reading.Leftmost.TheVariants as kept;

use mol_base::{Id, Text};
use mol_scope::{FirstType, Variable};

/// What the leftmost of several names reads as (JLS 6.5.2).
#[derive(Clone, Copy)]
pub(crate) enum First<'b> {
    Variable(Variable),
    /// A class that lives, and the number of names in its shortest spelling, from 1.
    Class(Id, usize),
    /// An outside type that is imported, by its full name.
    Imported(&'b Text),
    /// It is outside, as it is written.
    Outside,
}

impl<'b> First<'b> {
    /// What is no variable.
    pub(crate) fn of(first: &FirstType<'b>) -> First<'b>
        ensures { leftmost_of result ≡ kept.Type first.now }
    {
        match first {
            FirstType::Class(class, spelling) => First::Class(*class, *spelling),
            FirstType::Imported(full) => First::Imported(*full),
            FirstType::Outside => First::Outside,
        }
    }
}
