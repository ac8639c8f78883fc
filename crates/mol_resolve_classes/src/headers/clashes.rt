//! Imports of one simple name.
ghost use Rattle.std.specs.Prelude.{◌≡◌, ◌<◌, Some, length, slice_get};
ghost use Rattle.std.specs.List.{list_any};
ghost use Rattle.jav_names.specs.LookUps.{import_of};
ghost use Rattle.jav_names.specs.index.Spelled.{spelled};
ghost use Rattle.jav_scope.specs.declared.source.SourceUnit.{SourceUnit};
ghost use Rattle.mol_resolve_classes.specs.headers.Clashes.{is_another, differs};
ghost use Rattle.mol_resolve_classes.specs.headers.Headers.{name_of, fails};
ghost use Rattle.mol_resolve_rules.specs.FaultKinds as kind;

use jav_names::Spelling;
use jav_scope::{Scope, SourceUnit, simple_name};
use mol_base::Text;

/// Whether an import of the file of this number, which is this one, and another import or the own class have one simple name and
/// different full names (JLS 7.5.1). It takes no memory. The time is that of a look-up for each import.
pub fn imports_clash(scope: &Scope<'_>, unit: u32, source: &SourceUnit) -> bool
    requires { slice_get scope.now unit ≡ Some source.now }
    ensures { result ≡ fails scope.now kind.import_clash (unit, source.now) }
{
    if class_differs(scope, unit, source) {
        return true;
    }
    imports_differ(scope, unit, source.unit.imports.items())
}

/// Whether for one of these imports of the file of this number another is found by its simple name.
fn imports_differ(scope: &Scope<'_>, unit: u32, imports: &[Text]) -> bool
    requires { unit < length scope.now }
    ensures { (source : SourceUnit) → slice_get scope.now unit ≡ Some source
        → result ≡ list_any (differs source.unit.imports) imports.now }
{
    for import in imports {
        if import_differs(scope, unit, import) {
            return true;
        }
    }
    false
}

/// Whether what the file of this number imports by the simple name of its own class is another.
fn class_differs(scope: &Scope<'_>, unit: u32, source: &SourceUnit) -> bool
    requires { slice_get scope.now unit ≡ Some source.now }
    ensures { result ≡ differs source.now.unit.imports (name_of source.now) }
{
    let name = source.unit.class.name.as_str();
    let full = Spelling::Pair(source.unit.package.bytes(), name.as_bytes());
    another_first(scope, unit, simple_name(name), &full)
}

/// Whether what the file of this number imports by the simple name of this import is another.
fn import_differs(scope: &Scope<'_>, unit: u32, import: &Text) -> bool
    requires { unit < length scope.now }
    ensures { (source : SourceUnit) → slice_get scope.now unit ≡ Some source → result ≡ differs source.unit.imports import.now }
{
    let full = Spelling::Whole(import.bytes());
    another_first(scope, unit, simple_name(import.as_str()), &full)
}

/// Whether what the file of this number imports by a simple name has not this full name.
fn another_first(scope: &Scope<'_>, unit: u32, simple: &str, full: &Spelling<'_>) -> bool
    requires { unit < length scope.now }
    ensures { (source : SourceUnit) → slice_get scope.now unit ≡ Some source
        → result ≡ is_another (import_of source.unit.imports simple.now) (spelled full.now) }
{
    match scope.import_of(unit, simple) {
        Some(import) => !full.compare(import.bytes()).is_eq(),
        None => false,
    }
}
