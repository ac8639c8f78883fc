//! Names that stand alone, and the first of several with dots between them.
ghost use Rattle.std.specs.Prelude.{◌≡◌, ◌<◌, ℕ, Bool, IfOk, None, Some, length, slice_get};
ghost use Rattle.jav_scope.specs.Entries.{classes_in};
ghost use Rattle.jav_scope.specs.declared.source.SourceUnit.{SourceUnit};
ghost use Rattle.jav_names.specs.DottedNames.{Names};
ghost use Rattle.jav_names.specs.LookUps.{leftmost, leftmost_type, simple_type};
ghost use Rattle.jav_names.specs.UnitViews.{MemberKey, header_of};
ghost use Rattle.mol_resolve_names.specs.chains.InMembers.{reader_in};
ghost use Rattle.mol_resolve_readings.specs.locals.Scoped.{locals_of};
ghost use Rattle.mol_resolve_readings.specs.meant.Kept.{view_meant, view_part};
ghost use Rattle.mol_resolve_readings.specs.reads.Chains.{chain_by};
ghost use Rattle.mol_resolve_readings.specs.reads.Reads.{Reads};
ghost use Rattle.mol_resolve_readings.specs.declared.reads.chain.Chain.TheVariants.{NoClass};
ghost use Rattle.mol_resolve_rules.specs.Locals.{Locals as Seen};
ghost use Rattle.mol_resolve_rules.specs.Readers.{Reader, place_of};
ghost use Rattle.mol_resolve_rules.specs.ReadTrees as trees;

use crate::chains::Parameter;
use crate::lone_names::value::value;
use crate::lone_names::variable::variable_named;
use jav_scope::Found;
use mol_base::{OutOfMemory, Text};
use mol_resolve_faults::{FaultKind, FirstFault};
use mol_resolve_members::Finder;
use mol_resolve_readings::{Locals, Meant};
use std::alloc::Global;

/// A name that stands alone, in a member of the class of the file of this number, from 0, with these parameters and locals in scope: a
/// variable, or what may come from an outside superclass (JLS 6.5.6.1). Where it is neither, an unknown name is noted at this place.
pub fn name_alone(
    alloc: Global,
    finder: &Finder<'_>,
    class: u32,
    params: &[Parameter],
    locals: &Locals,
    faults: &mut FirstFault,
    at: u32,
    name: &Text,
) -> Result<Option<Meant>, OutOfMemory>
    ensures { IfOk result (λ value. (source : SourceUnit) (in_constructor : Bool) →
        let reader = reader_in finder.now class source params.now in_constructor in
        Reads (trees.name_meant reader at name.now (locals_of locals.now) None) (view_part value) faults.old faults.new) }
{
    match variable_named(finder, class, params, locals, name) {
        Found::Found(variable) => Ok(Some(value(alloc, &variable)?)),
        Found::Outside => Ok(Some(Meant::outside_name(alloc, name)?)),
        Found::NotFound => {
            faults.note(FaultKind::UnknownName, at);
            Ok(None)
        },
    }
}

/// The first of several names with dots between them, in the same place, where they do not begin with the name of a class: a variable, an
/// imported class outside, or what is outside as it is written (JLS 6.5.2).
pub fn name_before(
    alloc: Global,
    finder: &Finder<'_>,
    class: u32,
    params: &[Parameter],
    locals: &Locals,
    name: &Text,
) -> Result<Option<Meant>, OutOfMemory>
    requires { class < length finder.now }
    ensures { IfOk result (λ value. (source : SourceUnit) (in_constructor : Bool) (follow : Names)
        → slice_get finder.now class ≡ Some source →
        let reader = reader_in finder.now class source params.now in_constructor in
        chain_by 1 (leftmost reader.view (place_of reader (locals_of locals.now)) name.now follow) ≡ NoClass
        → view_part value ≡ (trees.name_meant reader 0 name.now (locals_of locals.now) (Some follow)).value) }
{
    match variable_named(finder, class, params, locals, name) {
        Found::Found(variable) => Ok(Some(value(alloc, &variable)?)),
        Found::Outside => outside(alloc, finder, class, name),
        Found::NotFound => outside(alloc, finder, class, name),
    }
}

/// The first of several names, where it is no variable and begins the name of no class.
fn outside(
    alloc: Global,
    finder: &Finder<'_>,
    class: u32,
    name: &Text,
) -> Result<Option<Meant>, OutOfMemory>
    requires { class < length finder.now }
    ensures { IfOk result (λ value. (source : SourceUnit) (reader : Reader ℕ MemberKey) (locals : Seen ℕ) (follow : Names)
        → slice_get finder.now class ≡ Some source →
        let classes = classes_in finder.now in
        let read = leftmost_type classes name.now follow (simple_type classes (header_of (class, source.unit)) name.now) in
        chain_by 1 read ≡ NoClass → view_part value ≡ (trees.name_before reader name.now locals read).value) }
{
    match finder.scope().import_of(class, name.as_str()) {
        Some(import) => Ok(Some(Meant::outside_class(alloc, import)?)),
        None => Ok(Some(Meant::outside_name(alloc, name)?)),
    }
}
