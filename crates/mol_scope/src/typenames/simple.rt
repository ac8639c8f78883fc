//! What simple names of types read as.
ghost use Rattle.std.specs.Prelude.{◌≡◌, ◌&&◌};
ghost use Rattle.std.specs.Str.{bytes_eq};
ghost use Rattle.jav_names.specs.index.Spelled.{spelled};
ghost use Rattle.jav_names.specs.DottedNames.{Name};
ghost use Rattle.jav_names.specs.LookUps.{class_named, class_or_imported, class_or_written, simple_type};
ghost use Rattle.mol_table_rules.specs.Program.{name_at};
ghost use Rattle.mol_table_rules.specs.Renumber.{is_living_class};
ghost use Rattle.mol_scope.specs.typenames.Readings.{classes_of, header_of, reading_of};

use crate::typenames::class_file::ClassFile;
use crate::typenames::reading::TypeReading;
use jav_names::Spelling;
use mol_base::Text;
use mol_scope_classes::{is_living_class, name_of, package_of};

impl<'a> ClassFile<'a> {
    /// What a simple name reads as: an import, the class of the file, a class of its package, in this order (JLS 6.4.1, 7.5.1). It takes no
    /// memory. The time is logarithmic in the numbers of classes and imports.
    pub fn simple(&self, name: &str) -> TypeReading<'a>
        ensures { reading_of name.now result ≡ simple_type (classes_of self.now) (header_of self.now) name.now }
    {
        if let Some(full) = self.imports.first(name) {
            return self.class_or_imported(full);
        }
        if self.is_own(name) {
            return TypeReading::Class(self.class);
        }
        let package = package_of(self.classes.table(), &self.class);
        self.class_or_written(&Spelling::Pair(package.as_bytes(), name.as_bytes()))
    }

    /// Whether the class of the file lives and has this name.
    fn is_own(&self, name: &str) -> bool
        ensures { result
            ≡ (is_living_class self.now.classes.now self.now.class && bytes_eq (name_at self.now.classes.now self.now.class) name.now) }
    {
        let table = self.classes.table();
        is_living_class(table, &self.class) && name_of(table, &self.class) == name
    }

    /// The class of an import, if there is one; else an outside type.
    fn class_or_imported(&self, full: &'a Text) -> TypeReading<'a>
        ensures { (text : Name) → reading_of text result ≡ class_or_imported (class_named (classes_of self.now) full.now) full.now }
    {
        match self.classes.class_named(&Spelling::Whole(full.bytes())) {
            Some(class) => TypeReading::Class(class),
            None => TypeReading::Imported(full, ""),
        }
    }

    /// The class of a full name, if there is one; else a type as it is written.
    pub(crate) fn class_or_written(&self, name: &Spelling<'_>) -> TypeReading<'a>
        ensures { (text : Name) → reading_of text result ≡ class_or_written (class_named (classes_of self.now) (spelled name.now)) text }
    {
        match self.classes.class_named(name) {
            Some(class) => TypeReading::Class(class),
            None => TypeReading::Written,
        }
    }
}
