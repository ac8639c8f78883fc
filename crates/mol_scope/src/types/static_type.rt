//! The static types of values, as far as names ask for them.
ghost use Rattle.std.specs.Prelude.{◌≡◌};
ghost use Rattle.jav_names.specs.StaticTypes.{item, of_literal, of_type, outside_call, outside_field};
ghost use Rattle.mol_resolve_rules.specs.ProgramViews.{seen};
ghost use Rattle.mol_resolve_rules.specs.ReadTrees.{arrays};
ghost use Rattle.mol_scope.specs.types.Kept.{view_value};

use mol_base::{Id, Text};
use mol_values_types::IType;

/// The static type of a value. It points to types of the program, and has no memory of its own.
#[derive(Clone, Copy)]
pub enum StaticType<'a> {
    /// Of a primitive type, whichever that is.
    Primitive,
    /// `null`.
    Null,
    /// What a call of a method gives that gives no value.
    Void,
    /// None of the others, as a choice between two values that have no type in common.
    Mixed,
    /// Of a type outside, whichever that is.
    Outside,
    /// Of a class of the program.
    Class(Id),
    /// An array whose items are arrays of so many dimensions of this type, or of the type itself where that is 0.
    Array(&'a IType, usize),
}

impl<'a> StaticType<'a> {
    /// That of a value of a type: a variable, a call or a cast (JLS 6.5.6, 15.11.1, 15.12.3, 15.16).
    pub fn of_type(ty: &'a IType) -> StaticType<'a>
        ensures { view_value result ≡ of_type (seen ty.now) }
    {
        match ty {
            IType::Void => StaticType::Void,
            IType::Class(class) => StaticType::Class(*class),
            IType::Imported(_, _) => StaticType::Outside,
            IType::Written(_) => StaticType::Outside,
            IType::Array(item) => StaticType::Array(item.get(), 0),
            _ => StaticType::Primitive,
        }
    }

    /// That of an array of so many dimensions of a type, as `new` makes it (JLS 15.10.1); of a value of the type itself where that is 0.
    pub fn of_arrays(ty: &'a IType, dimensions: usize) -> StaticType<'a>
        ensures { view_value result ≡ of_type (arrays dimensions (seen ty.now)) }
    {
        if dimensions == 0 {
            return StaticType::of_type(ty);
        }
        StaticType::Array(ty, dimensions - 1)
    }

    /// That of a literal by its text (JLS 15.8.1).
    pub fn of_literal(text: &Text) -> StaticType<'a>
        ensures { view_value result ≡ of_literal text.now }
    {
        match text.bytes() {
            b"null" => StaticType::Null,
            [b'"', ..] => StaticType::Outside,
            _ => StaticType::Primitive,
        }
    }

    /// That of an item of a value (JLS 15.10.3). Of what has no items it is mixed.
    pub fn item(&self) -> StaticType<'a>
        ensures { view_value result ≡ item (view_value self.now) }
    {
        match self {
            StaticType::Array(ty, dimensions) => StaticType::of_arrays(ty, *dimensions),
            StaticType::Outside => StaticType::Outside,
            _ => StaticType::Mixed,
        }
    }

    /// That of a field outside, of a value of this type: `length` of an array is primitive (JLS 10.7).
    pub fn outside_field(&self, name: &Text) -> StaticType<'a>
        ensures { view_value result ≡ outside_field (view_value self.now) name.now }
    {
        match self {
            StaticType::Array(_, _) if name.bytes() == b"length".as_slice() => {
                StaticType::Primitive
            },
            _ => StaticType::Outside,
        }
    }

    /// That of a call of a method outside, on a value of this type and with so many arguments: `clone()` of an array gives an array of its
    /// type (JLS 10.7).
    pub fn outside_call(&self, name: &Text, arity: usize) -> StaticType<'a>
        ensures { view_value result ≡ outside_call (view_value self.now) name.now arity }
    {
        match self {
            StaticType::Array(ty, dimensions)
                if name.bytes() == b"clone".as_slice() && arity == 0 => {
                StaticType::Array(ty, *dimensions)
            },
            _ => StaticType::Outside,
        }
    }
}
