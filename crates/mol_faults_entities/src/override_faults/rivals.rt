//! Methods that are named alike.
ghost use Rattle.std.specs.Prelude.{◌≡◌, ◌-◌, ◌↔◌, IsFalse, length, slice_get};
ghost use Rattle.std.specs.List.Sorted.{IsSorted};
ghost use Rattle.mol_faults_entities.specs.override_faults.Declarations.{key_of, naming_of};
ghost use Rattle.mol_faults_entities.specs.override_faults.Overridden.{AreOfOneMethod, methods_cmp, methods_differ};

use crate::override_faults::declaration::Declaration;
use crate::override_faults::key::Key;

/// Whether declarations of two methods are named so, among these, which are sorted by what they are named and by method. The time is
/// logarithmic in their number.
pub(crate) fn are_rivals(by_method: &[Declaration<'_>], key: &Key<'_>) -> bool
    requires { IsSorted methods_cmp by_method.now }
    ensures { IsFalse result ↔ AreOfOneMethod by_method.now (naming_of (key_of key.now)) }
{
    let start = by_method.partition_point(|row| row.key.compare_naming(key).is_lt());
    let later = &by_method[start..];
    let count = later.partition_point(|row| row.key.compare_naming(key).is_eq());
    ends_differ(&later[..count])
}

/// Whether the first and the last of these are of two methods.
fn ends_differ(named: &[Declaration<'_>]) -> bool
    ensures { result ≡ methods_differ (slice_get named.now 0) (slice_get named.now (length named.now - 1)) }
{
    match (named.first(), named.last()) {
        (Some(first), Some(last)) => first.method != last.method,
        _ => false,
    }
}
