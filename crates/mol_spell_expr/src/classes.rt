//! Classes and imported types as they are spelled (JLS 6.5.5, 6.7).
ghost use Rattle.std.specs.Prelude.{◌≡◌, ◌++◌, ◌∷◌, IfOk};
ghost use Rattle.jav_names.specs.DottedNames.{dot};
ghost use Rattle.mol_spell_rules.specs.SpelledExpressions.{importable_names, names_tree};
ghost use Rattle.mol_spell_rules.specs.Writers.{full_of, simple_of, spelled, text_of};
ghost use Rattle.mol_spell_expr.specs.Importables.{hides_at, importable_of, is_spelled_simply};

use crate::dotted::names_tree;
use crate::expr_writer::ExprWriter;
use crate::importable::Importable;
use crate::names::Names;
use crate::trees::named;
use crate::type_place::TypePlace;
use jav_scope::simple_name;
use jav_tree::Expr;
use mol_base::{OutOfMemory, Text};
use std::alloc::Global;

impl<N: Names> ExprWriter<'_, N> {
    /// What is spelled, in an expression: its names with dots between them.
    pub(crate) fn class_tree(&self, what: Importable<'_>) -> Result<Expr, OutOfMemory>
        ensures { IfOk result (λ tree. tree ≡ names_tree
            (importable_names (N.writer self.now.names.now) (N.locals self.now.names.now) (importable_of what.entry))) }
    {
        if self.is_spelled_simply(TypePlace::Expression, what) {
            named(self.alloc, self.simple_name(what))
        } else {
            let full = self.full_name(what)?;
            names_tree(self.alloc, full.as_str())
        }
    }

    /// What is spelled, as the name of a type.
    pub(crate) fn class_text(
        &self,
        place: TypePlace,
        what: Importable<'_>,
    ) -> Result<Text, OutOfMemory>
        ensures { let writer = N.writer self.now.names.now in
            let hides = hides_at writer (N.locals self.now.names.now) place in
            IfOk result (λ text. text ≡ text_of (spelled writer hides (importable_of what.entry))) }
    {
        if self.is_spelled_simply(place, what) {
            Text::from_str(self.alloc, self.simple_name(what))
        } else {
            self.full_name(what)
        }
    }

    /// Whether it is spelled by its simple name at such a place.
    fn is_spelled_simply(&self, place: TypePlace, what: Importable<'_>) -> bool
        ensures { let writer = N.writer self.now.names.now in
            let hides = hides_at writer (N.locals self.now.names.now) place in
            result ≡ is_spelled_simply writer hides (importable_of what.entry) }
    {
        self.names.is_simple(what) && !self.is_hidden(place, self.simple_name(what))
    }

    /// Whether a name is hidden at such a place.
    fn is_hidden(&self, place: TypePlace, name: &str) -> bool
        ensures { result ≡ hides_at (N.writer self.now.names.now) (N.locals self.now.names.now) place name.now }
    {
        match place {
            TypePlace::Declaration => false,
            TypePlace::Expression => self.names.is_variable(name),
        }
    }

    /// The simple name.
    fn simple_name<'b>(&'b self, what: Importable<'b>) -> &'b str
        ensures { result.now ≡ simple_of (N.writer self.now.names.now).program (importable_of what.entry) }
    {
        match what {
            Importable::Class(class) => self.names.name_of(class),
            Importable::Import(full) => simple_name(full.as_str()),
        }
    }

    /// The full name.
    fn full_name(&self, what: Importable<'_>) -> Result<Text, OutOfMemory>
        ensures { IfOk result (λ text. text ≡ full_of (N.writer self.now.names.now).program (importable_of what.entry)) }
    {
        match what {
            Importable::Class(class) => {
                let package = self.names.package_of(class);
                with_dot(self.alloc, package, self.names.name_of(class))
            },
            Importable::Import(full) => full.copy(self.alloc),
        }
    }
}

/// Two names with a dot between them.
pub(crate) fn with_dot(alloc: Global, front: &str, back: &str) -> Result<Text, OutOfMemory>
    ensures { IfOk result (λ text. text ≡ front.now ++ dot ∷ back.now) }
{
    let mut text = String::from_str(alloc, front)?;
    text.push_str(".")?;
    text.push_str(back)?;
    Ok(Text::from_string(text))
}
