//! Types as they are written (JLS 4, 6.5.5).
ghost use Rattle.std.specs.Prelude.{◌≡◌, IfOk};
ghost use Rattle.jav_tree.specs.declared.types.TypeName.TheVariants as types;
ghost use Rattle.jav_names.specs.TypeTexts.{imported_text};
ghost use Rattle.mol_spell_rules.specs.SpelledTypes.{spelled_type};
ghost use Rattle.mol_spell_rules.specs.Writers.{spelled, text_of};
ghost use Rattle.mol_spell_expr.specs.Importables.{hides_at, importable_of};

use crate::classes::with_dot;
use crate::expr_writer::ExprWriter;
use crate::importable::Importable;
use crate::names::Names;
use crate::type_place::TypePlace;
use jav_tree::TypeName;
use mol_base::{Boxed, OutOfMemory, Text};
use mol_values_types::IType;
use std::alloc::Global;

impl<N: Names> ExprWriter<'_, N> {
    /// A type as it is written at such a place. `Err` is want of memory.
    pub fn type_name(&self, place: TypePlace, ty: &IType) -> Result<TypeName, OutOfMemory>
        ensures { let writer = N.writer self.now.names.now in
            let locals = N.locals self.now.names.now in
            IfOk result (λ tree. tree ≡ (spelled_type writer (hides_at writer locals place) locals ty.now).tree) }
    {
        match ty {
            IType::Boolean => primitive(self.alloc, "boolean"),
            IType::Byte => primitive(self.alloc, "byte"),
            IType::Short => primitive(self.alloc, "short"),
            IType::Char => primitive(self.alloc, "char"),
            IType::Int => primitive(self.alloc, "int"),
            IType::Long => primitive(self.alloc, "long"),
            IType::Void => Ok(TypeName::Void),
            IType::Class(class) => self.imported(place, Importable::Class(class), ""),
            IType::Imported(full, rest) => {
                self.imported(place, Importable::Import(full), rest.get().as_str())
            },
            IType::Written(text) => written(self.alloc, text),
            IType::Array(item) => {
                let item = self.type_name(place, item.get())?;
                array_of(self.alloc, item)
            },
        }
    }

    /// What may be imported, and after a dot the names that follow it, if there are any.
    fn imported(
        &self,
        place: TypePlace,
        what: Importable<'_>,
        rest: &str,
    ) -> Result<TypeName, OutOfMemory>
        ensures { let writer = N.writer self.now.names.now in
            let hides = hides_at writer (N.locals self.now.names.now) place in
            IfOk result (λ tree. tree
            ≡ types.Named (imported_text (text_of (spelled writer hides (importable_of what.entry))) rest.now)) }
    {
        let text = self.class_text(place, what)?;
        let text = imported_text(self.alloc, text, rest)?;
        Ok(TypeName::Named(text))
    }
}

/// A full name or a simple one, and after a dot the names that follow it, if there are any.
fn imported_text(alloc: Global, text: Text, rest: &str) -> Result<Text, OutOfMemory>
    ensures { IfOk result (λ whole. whole ≡ imported_text text rest.now) }
{
    if rest.is_empty() {
        Ok(text)
    } else {
        with_dot(alloc, text.as_str(), rest)
    }
}

/// The primitive type of a name.
fn primitive(alloc: Global, name: &str) -> Result<TypeName, OutOfMemory>
    ensures { IfOk result (λ tree. tree ≡ types.Prim name.now) }
{
    let name = Text::from_str(alloc, name)?;
    Ok(TypeName::Prim(name))
}

/// A type by its name as it is written.
fn written(alloc: Global, text: &Text) -> Result<TypeName, OutOfMemory>
    ensures { IfOk result (λ tree. tree ≡ types.Named text.now) }
{
    let text = text.copy(alloc)?;
    Ok(TypeName::Named(text))
}

/// An array of items of a type.
fn array_of(alloc: Global, item: TypeName) -> Result<TypeName, OutOfMemory>
    ensures { IfOk result (λ tree. tree ≡ types.ArrayOf item) }
{
    let item = Boxed::new(alloc, item)?;
    Ok(TypeName::ArrayOf(item))
}
