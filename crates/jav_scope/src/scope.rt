//! The scope of a list of source files.
ghost use Rattle.std.specs.Prelude.{◌≡◌, ◌<◌, IfOk, Some, length, option_copied, option_map, slice_get};
ghost use Rattle.jav_names.specs.DottedNames.{cut};
ghost use Rattle.jav_names.specs.index.Spelled.{spelled};
ghost use Rattle.jav_names.specs.LookUps.{class_named, import_of, type_named};
ghost use Rattle.jav_names.specs.UnitViews.{header_of};
ghost use Rattle.jav_scope.specs.Answers.{type_answered};
ghost use Rattle.jav_scope.specs.Entries.{classes_in};
ghost use Rattle.jav_scope.specs.declared.source.SourceUnit.{SourceUnit};

use crate::found::Found;
use crate::members::Members;
use crate::source::SourceUnit;
use crate::superclasses::superclasses;
use crate::type_names::TypeNames;
use jav_names::Spelling;
use mol_base::{List, OutOfMemory, Text};
use std::alloc::Global;
use std::marker::Model;

/// The classes and members of source files, by their names. Contracts see the files: a class and its file go by the number of the
/// file in the list, from 0.
#[derive(Drop)]
pub struct Scope<'a> {
    pub(crate) names: TypeNames<'a>,
    pub(crate) superclasses: Vec<Found<u32>>,
    pub(crate) members: Members,
}

impl<'a> Model for Scope<'a> {
    ghost use Rattle.std.specs.Prelude.{List};
    ghost use Rattle.std.specs.Coded.{coded_list};
    ghost use Rattle.jav_scope.specs.contracts.source.SourceUnit as source;
    ghost use Rattle.jav_scope.specs.declared.source.SourceUnit.{SourceUnit};
    ghost use Rattle.jav_scope.specs.Scopes.{Stands};

    ghost Value = { List SourceUnit };

    ghost coded = { coded_list source.the_row.coded };

    ghost view = { λ scope. scope.names };

    ghost invariant = { λ scope. Stands scope.names scope.superclasses.items scope.members };
}

impl<'a> Scope<'a> {
    /// The scope of source files. The time is near-linear in their size: full names, imports and members are sorted by their names.
    /// `Err` is want of memory.
    pub fn new(alloc: Global, units: &'a List<SourceUnit>) -> Result<Scope<'a>, OutOfMemory>
        ensures { IfOk result (λ scope. scope ≡ units.now) }
    {
        let sources = units.items();
        let names = TypeNames::of(alloc, sources)?;
        let superclasses = superclasses(alloc, &names, sources)?;
        let members = Members::of(alloc, sources)?;
        Ok(Scope {
            names,
            superclasses,
            members,
        })
    }

    /// The class of a full name (JLS 6.7), of several that of least number. It takes no memory. The time is logarithmic in the number
    /// of classes.
    pub fn class_named(&self, name: &Spelling<'_>) -> Option<u32>
        ensures { result ≡ option_map (λ class. class.key) (class_named (classes_in self.now) (spelled name.now)) }
    {
        self.names.class_named(name)
    }

    /// The import of a simple name in the file of this number, of several the first (JLS 7.5.1). It takes no memory. The time is
    /// logarithmic in the number of imports of all files.
    pub fn import_of(&self, unit: u32, name: &str) -> Option<&'a Text>
        requires { unit < length self.now }
        ensures { (source : SourceUnit) → slice_get self.now unit ≡ Some source
            → option_copied result ≡ import_of source.unit.imports name.now }
    {
        self.names.import_of(unit, name)
    }

    /// What a type's name, simple or with dots, reads as in the file of this number: a class by its number, an outside type, or
    /// nothing (JLS 6.5.5). It takes no memory. The time is logarithmic in the numbers of classes and imports.
    pub fn type_named(&self, unit: u32, name: &Text) -> Found<u32>
        requires { unit < length self.now }
        ensures { (source : SourceUnit) → slice_get self.now unit ≡ Some source → result
            ≡ type_answered (type_named (classes_in self.now) (header_of (unit, source.unit)) (cut name.now).first (cut name.now).rest) }
    {
        self.names.type_named(unit, name)
    }
}
