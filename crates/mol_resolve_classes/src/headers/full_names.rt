//! The first classes of full names.
ghost use Rattle.std.specs.Prelude.{◌≡◌, Some, slice_get};
ghost use Rattle.mol_resolve_classes.specs.headers.Headers.{first_named, name_of};

use jav_names::Spelling;
use jav_scope::{Scope, SourceUnit};

/// The number of the first class that has the full name of the class of this file, which stands at this place. It takes no memory.
pub(crate) fn first_of(scope: &Scope<'_>, place: usize, source: &SourceUnit) -> usize
    requires { slice_get scope.now place ≡ Some source.now }
    ensures { first_named scope.now (name_of source.now) ≡ Some result }
{
    let unit = &source.unit;
    let full = Spelling::Pair(unit.package.bytes(), unit.class.name.bytes());
    match scope.class_named(&full) {
        Some(first) => first as usize,
        // There is none that comes before it.
        None => place,
    }
}
