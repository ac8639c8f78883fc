//! What names of a program are, and read as, where they are written.
ghost use Rattle.std.specs.Prelude.{◌≡◌};
ghost use Rattle.mol_base.specs.declared.ident.Id.{Id as Identity};
ghost use Rattle.mol_resolve_rules.specs.Locals.{Locals};
ghost use Rattle.mol_resolve_rules.specs.StaticTypes.{class_of_only_declaration};
ghost use Rattle.mol_spell_rules.specs.SpelledExpressions.{local_text, param_name, reads_field, reads_method};
ghost use Rattle.mol_spell_rules.specs.Writers.{Writer, is_hidden};
ghost use Rattle.mol_table_rules.specs.Program.{name_at, owner_at, package_at};
ghost use Rattle.mol_spell_expr.specs.Importables.{importable_of};

use crate::importable::Importable;
use mol_base::Id;

/// What is asked where values of a program are written: in the file of a class, with locals in scope. No call takes memory.
pub trait Names {
    /// The program, the place where its names are read that are written, and what has a simple name in the file.
    ghost writer: { Self → Writer };

    /// The locals that were declared so far, and those that are in scope.
    ghost locals: { Self → Locals Identity };

    // ---- what is written

    /// The name of a class, a field or a method; empty where nothing has one.
    fn name_of(&self, id: &Id) -> &str
        ensures { result.now ≡ name_at (writer self.now).program id.now };

    /// The package of a class; empty where the identity is none of a class.
    fn package_of(&self, class: &Id) -> &str
        ensures { result.now ≡ package_at (writer self.now).program class.now };

    /// The name of a local by its number; `$` where none of that number is declared.
    fn local_name(&self, number: u32) -> &str
        ensures { result.now ≡ local_text (locals self.now) number };

    /// The name of a parameter; `$` where it is not, or no longer, in the list of its method.
    fn param_name(&self, id: &Id) -> &str
        ensures { result.now ≡ param_name (writer self.now) (locals self.now) id.now };

    /// The class in which a field stands.
    fn owner_of(&self, field: &Id) -> Option<Id>
        ensures { result ≡ owner_at (writer self.now).program field.now };

    /// The class in which a static method or a constructor is declared, which need not live; of several declarations the first
    /// counts. `None` where nothing declares it, or the declaration has no class.
    fn declaring_class(&self, method: &Id) -> Option<Id>
        ensures { result ≡ class_of_only_declaration (writer self.now).program method.now };

    // ---- what it reads as

    /// Whether a class or an imported type has its simple name in the file.
    fn is_simple(&self, what: Importable<'_>) -> bool
        ensures { result ≡ (writer self.now).is_simple (importable_of what.entry) };

    /// Whether a local, a parameter or a field of the program has this name here, so that it goes before a class of this name.
    fn is_variable(&self, name: &str) -> bool
        ensures { result ≡ is_hidden (writer self.now).reader (locals self.now) name.now };

    /// Whether the simple name of a field reads as that field.
    fn reads_field(&self, field: &Id) -> bool
        ensures { result ≡ reads_field (writer self.now) (locals self.now) field.now };

    /// Whether the simple name of a method, with so many arguments, reads as that method.
    fn reads_method(&self, method: &Id, arity: u32) -> bool
        ensures { result ≡ reads_method (writer self.now) (locals self.now) method.now arity };
}
