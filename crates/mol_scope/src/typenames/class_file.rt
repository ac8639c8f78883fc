//! Where the names of types are read.
ghost use Rattle.std.specs.Prelude.{◌≡◌};
ghost use Rattle.jav_names.specs.DottedNames.{cut};
ghost use Rattle.jav_names.specs.LookUps.{type_named};
ghost use Rattle.mol_scope.specs.typenames.Readings.{classes_of, header_of, reading_of};

use crate::typenames::reading::TypeReading;
use jav_names::Spelling;
use jav_scope::ImportIndex;
use mol_base::Id;
use mol_scope_classes::ClassIndex;

/// The source file of a class, which need not live: the classes of the program, and the imports of the file.
#[derive(Clone, Copy)]
pub struct ClassFile<'a> {
    pub classes: &'a ClassIndex<'a>,
    pub class: Id,
    pub imports: &'a ImportIndex<'a>,
}

impl<'a> ClassFile<'a> {
    /// What the name of a type, simple or with dots, reads as in the file (JLS 6.5.5). It takes no memory. The time is linear in the
    /// length of the name and logarithmic in the numbers of classes and imports.
    pub fn type_named(&self, text: &'a str) -> TypeReading<'a>
        ensures { reading_of text.now result
            ≡ type_named (classes_of self.now) (header_of self.now) (cut text.now).first (cut text.now).rest }
    {
        let Some((first, rest)) = text.split_once('.') else {
            return self.simple(text);
        };
        match self.simple(first) {
            TypeReading::Imported(full, _) => TypeReading::Imported(full, rest),
            TypeReading::Written => self.class_or_written(&Spelling::Whole(text.as_bytes())),
            TypeReading::Class(_) => TypeReading::Nothing,
            TypeReading::Nothing => TypeReading::Nothing,
        }
    }
}
