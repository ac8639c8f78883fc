//! What the names of types read as.
ghost use Rattle.std.specs.Prelude.{◌≡◌, ◌<◌, IfOk, Some, option_map, option_copied, length, slice_get};
ghost use Rattle.jav_names.specs.DottedNames.{Name, cut};
ghost use Rattle.jav_names.specs.LookUps.{class_named, class_or_imported, class_or_written, import_of, simple_type, type_named};
ghost use Rattle.jav_names.specs.UnitViews.{header_of};
ghost use Rattle.jav_names.specs.index.Spelled.{spelled};
ghost use Rattle.jav_scope.specs.Answers.{reading_of, reading_answered, type_answered};
ghost use Rattle.jav_scope.specs.Entries.{classes_in};
ghost use Rattle.jav_scope.specs.declared.source.SourceUnit.{SourceUnit};

use crate::entries::{full_names, imported_names};
use crate::found::Found;
use crate::reading::Reading;
use crate::source::SourceUnit;
use jav_names::Spelling;
use jav_names::index::Index;
use mol_base::{OutOfMemory, Text};
use std::alloc::Global;
use std::marker::Model;

/// The classes of source files by their full names, and the imports of each file by their simple names. Contracts see the files.
#[derive(Drop)]
pub(crate) struct TypeNames<'a> {
    sources: &'a [SourceUnit],
    full_names: Index,
    imports: Index,
}

impl<'a> Model for TypeNames<'a> {
    ghost use Rattle.std.specs.Prelude.{List};
    ghost use Rattle.std.specs.Coded.{coded_list};
    ghost use Rattle.jav_scope.specs.contracts.source.SourceUnit as source;
    ghost use Rattle.jav_scope.specs.declared.source.SourceUnit.{SourceUnit};
    ghost use Rattle.jav_scope.specs.Entries.{AreNamesIndexed};

    ghost Value = { List SourceUnit };

    ghost coded = { coded_list source.the_row.coded };

    ghost view = { λ names. names.sources.now };

    ghost invariant = { λ names. AreNamesIndexed names.sources.now names.full_names names.imports };
}

impl<'a> TypeNames<'a> {
    /// The names of the classes of source files.
    pub fn of(alloc: Global, sources: &'a [SourceUnit]) -> Result<TypeNames<'a>, OutOfMemory>
        ensures { IfOk result (λ names. names ≡ sources.now) }
    {
        let class_entries = full_names(alloc, sources)?;
        let import_entries = imported_names(alloc, sources)?;
        let full_names = Index::new(class_entries)?;
        let imports = Index::new(import_entries)?;
        Ok(TypeNames {
            sources,
            full_names,
            imports,
        })
    }

    /// The class of a full name. It takes no memory.
    pub fn class_named(&self, name: &Spelling<'_>) -> Option<u32>
        ensures { result ≡ option_map (λ class. class.key) (class_named (classes_in self.now) (spelled name.now)) }
    {
        match self.full_names.first(0, 0, name) {
            Some(entry) => Some(entry.place),
            None => None,
        }
    }

    /// The import of a simple name in the file of this number, the first of several. It takes no memory.
    pub fn import_of(&self, unit: u32, name: &str) -> Option<&'a Text>
        requires { unit < length self.now }
        ensures { (source : SourceUnit) → slice_get self.now unit ≡ Some source
            → option_copied result ≡ import_of source.unit.imports name.now }
    {
        let sources = self.sources;
        let imports = sources[unit as usize].unit.imports.items();
        match self
            .imports
            .first(unit, 0, &Spelling::Whole(name.as_bytes()))
        {
            Some(entry) => imports.get(entry.place as usize),
            None => None,
        }
    }

    /// What a simple name reads as in the file of this number. It takes no memory.
    pub fn simple(&self, unit: u32, name: &str) -> Reading
        requires { unit < length self.now }
        ensures { (source : SourceUnit) → slice_get self.now unit ≡ Some source
            → result ≡ reading_of (simple_type (classes_in self.now) (header_of (unit, source.unit)) name.now) }
    {
        if let Some(full) = self.import_of(unit, name) {
            return self.class_or_imported(full);
        }
        let sources = self.sources;
        let own = &sources[unit as usize].unit;
        if own.class.name.bytes() == name.as_bytes() {
            return Reading::Class(unit);
        }
        self.class_or_written(&Spelling::Pair(own.package.bytes(), name.as_bytes()))
    }

    /// The class of an import, if there is one; else an outside type.
    fn class_or_imported(&self, full: &Text) -> Reading
        ensures { result ≡ reading_of (class_or_imported (class_named (classes_in self.now) full.now) full.now) }
    {
        match self.class_named(&Spelling::Whole(full.bytes())) {
            Some(class) => Reading::Class(class),
            None => Reading::Imported,
        }
    }

    /// The class of a full name, if there is one; else a type as it is written.
    fn class_or_written(&self, name: &Spelling<'_>) -> Reading
        ensures { (text : Name) → result ≡ reading_of (class_or_written (class_named (classes_in self.now) (spelled name.now)) text) }
    {
        match self.class_named(name) {
            Some(class) => Reading::Class(class),
            None => Reading::Written,
        }
    }

    /// What the name of a type, simple or with dots, reads as in the file of this number. It takes no memory.
    pub fn type_named(&self, unit: u32, name: &Text) -> Found<u32>
        requires { unit < length self.now }
        ensures { (source : SourceUnit) → slice_get self.now unit ≡ Some source → result
            ≡ type_answered (type_named (classes_in self.now) (header_of (unit, source.unit)) (cut name.now).first (cut name.now).rest) }
    {
        let text = name.as_str();
        let Some((first, _rest)) = text.split_once('.') else {
            return answer(self.simple(unit, text));
        };
        match self.simple(unit, first) {
            Reading::Imported => Found::Outside,
            Reading::Written => answer(self.class_or_written(&Spelling::Whole(name.bytes()))),
            Reading::Class(_) => Found::NotFound,
            Reading::Nothing => Found::NotFound,
        }
    }
}

/// A class, an outside type or nothing.
fn answer(reading: Reading) -> Found<u32>
    ensures { result ≡ reading_answered reading }
{
    match reading {
        Reading::Class(class) => Found::Found(class),
        Reading::Imported => Found::Outside,
        Reading::Written => Found::Outside,
        Reading::Nothing => Found::NotFound,
    }
}
