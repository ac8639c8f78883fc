//! Classes and imported types as they are spelled (JLS 6.5.5, 6.7).
ghost use Rattle.std.specs.Prelude.{◌≡◌, ◌++◌, ◌∷◌, [], IfOk, OnOk};
ghost use Rattle.jav_names.specs.DottedNames.{cut, dot};
ghost use Rattle.mol_scope.specs.asked.Answers.{dotted_of};
ghost use Rattle.mol_faults_expr.specs.Paths.{names_of};
ghost use Rattle.mol_spell_rules.specs.Writers.{full_of, simple_of, spelled};
ghost use Rattle.mol_spell_expr.specs.Importables.{hides_at, importable_of, is_spelled_simply};

use crate::expr_reader::ExprReader;
use jav_scope::simple_name;
use mol_base::{OutOfMemory, Text};
use mol_scope::DottedText;
use mol_spell_expr::{Importable, Names, TypePlace};
use std::alloc::Global;

/// What may be imported as it is spelled: by its simple name, or by its full name, which is cut at its dots.
#[derive(Drop)]
pub(crate) struct Spelled {
    pub text: Text,
    pub is_simple: bool,
}

impl Spelled {
    /// The first of its names, and the text of those that follow.
    pub fn dotted(&self) -> DottedText<'_>
        ensures { dotted_of result ≡ names_of self.now }
    {
        let text = self.text.as_str();
        if self.is_simple {
            return DottedText {
                front: text,
                rest: None,
            };
        }
        match text.split_once('.') {
            Some((front, rest)) => DottedText {
                front,
                rest: Some(rest),
            },
            None => DottedText {
                front: text,
                rest: None,
            },
        }
    }

    /// Its names, one after the other.
    pub fn names(&self, alloc: Global) -> Result<Vec<Text>, OutOfMemory>
        ensures { IfOk result (λ names. names.items ≡ (names_of self.now).first ∷ (names_of self.now).rest) }
    {
        let mut names = Vec::new(alloc);
        let text = self.text.as_str();
        if self.is_simple {
            add_name(alloc, &mut names, text)?;
            return Ok(names);
        }
        add_cut(alloc, &mut names, text)?;
        Ok(names)
    }
}

/// Adds the names of a text, which are cut at its dots.
fn add_cut(alloc: Global, names: &mut Vec<Text>, text: &str) -> Result<(), OutOfMemory>
    ensures { OnOk result (names.new.items ≡ names.old.items ++ (cut text.now).first ∷ (cut text.now).rest) }
{
    let mut rest = text;
    while let Some((name, behind)) = rest.split_once('.') {
        add_name(alloc, names, name)?;
        rest = behind;
    }
    add_name(alloc, names, rest)
}

/// Adds a copy of a name.
pub(crate) fn add_name(alloc: Global, names: &mut Vec<Text>, name: &str) -> Result<(), OutOfMemory>
    ensures { OnOk result (names.new.items ≡ names.old.items ++ name.now ∷ []) }
{
    let name = Text::from_str(alloc, name)?;
    names.push(name)?;
    Ok(())
}

impl<N: Names> ExprReader<'_, '_, N> {
    /// What is spelled at such a place.
    pub(crate) fn spelled(
        &self,
        place: TypePlace,
        what: Importable<'_>,
    ) -> Result<Spelled, OutOfMemory>
        ensures { let writer = N.writer self.now.names.now in
            let hides = hides_at writer (N.locals self.now.names.now) place in
            IfOk result (λ kept. names_of kept ≡ spelled writer hides (importable_of what.entry)) }
    {
        if self.is_spelled_simply(place, what) {
            let text = Text::from_str(self.alloc, self.simple_name(what))?;
            return Ok(Spelled {
                text,
                is_simple: true,
            });
        }
        let text = self.full_name(what)?;
        Ok(Spelled {
            text,
            is_simple: false,
        })
    }

    /// Whether it is spelled by its simple name at such a place.
    fn is_spelled_simply(&self, place: TypePlace, what: Importable<'_>) -> bool
        ensures { let writer = N.writer self.now.names.now in
            let hides = hides_at writer (N.locals self.now.names.now) place in
            result ≡ is_spelled_simply writer hides (importable_of what.entry) }
    {
        self.names.is_simple(what) && !self.is_hidden(place, self.simple_name(what))
    }

    /// Whether a name is hidden at such a place.
    fn is_hidden(&self, place: TypePlace, name: &str) -> bool
        ensures { result ≡ hides_at (N.writer self.now.names.now) (N.locals self.now.names.now) place name.now }
    {
        match place {
            TypePlace::Declaration => false,
            TypePlace::Expression => self.names.is_variable(name),
        }
    }

    /// The simple name.
    fn simple_name<'b>(&'b self, what: Importable<'b>) -> &'b str
        ensures { result.now ≡ simple_of (N.writer self.now.names.now).program (importable_of what.entry) }
    {
        match what {
            Importable::Class(class) => self.names.name_of(class),
            Importable::Import(full) => simple_name(full.as_str()),
        }
    }

    /// The full name.
    fn full_name(&self, what: Importable<'_>) -> Result<Text, OutOfMemory>
        ensures { IfOk result (λ text. text ≡ full_of (N.writer self.now.names.now).program (importable_of what.entry)) }
    {
        match what {
            Importable::Class(class) => {
                let package = self.names.package_of(class);
                with_dot(self.alloc, package, self.names.name_of(class))
            },
            Importable::Import(full) => full.copy(self.alloc),
        }
    }
}

/// Two names with a dot between them.
pub(crate) fn with_dot(alloc: Global, front: &str, back: &str) -> Result<Text, OutOfMemory>
    ensures { IfOk result (λ text. text ≡ front.now ++ dot ∷ back.now) }
{
    let mut text = String::from_str(alloc, front)?;
    text.push_str(".")?;
    text.push_str(back)?;
    Ok(Text::from_string(text))
}
