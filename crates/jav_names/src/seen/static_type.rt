//! The static types of values, as far as names ask for them.
ghost use Rattle.std.specs.Prelude.{◌≡◌, IfOk};
ghost use Rattle.std.specs.Ordering.{nat_cmp};
ghost use Rattle.jav_names.specs.StaticTypes.{of_type, of_literal, item, outside_field, outside_call, same_value};
ghost use Rattle.jav_names.specs.seen.Kept.{view_type, view_value};

use crate::seen::seen_type::SeenType;
use mol_base::{OutOfMemory, Text};
use std::alloc::Global;

/// The static type of a value.
#[derive(Drop)]
pub enum StaticType {
    /// Of a primitive type, whichever that is.
    Primitive,
    /// `null`.
    Null,
    /// What a call of a method gives that gives no value.
    Void,
    /// None of the others, as a choice between two values that have no type in common.
    Mixed,
    /// Of a type outside, whichever that is.
    Outside,
    /// Of a class of the sources, by the number of its file.
    Class(u32),
    /// An array of items of this type.
    Array(SeenType),
    /// Of a type whose name reads as nothing.
    Unread,
}

impl StaticType {
    /// That of a value of a type: a variable, a call or a cast (JLS 6.5.6, 15.11.1, 15.12.3, 15.16). `Err` is want of memory.
    pub fn of_type(alloc: Global, ty: &SeenType) -> Result<StaticType, OutOfMemory>
        ensures { IfOk result (λ value. view_value value ≡ of_type (view_type ty.now)) }
    {
        match ty {
            SeenType::Primitive(_) => Ok(StaticType::Primitive),
            SeenType::Void => Ok(StaticType::Void),
            SeenType::Class(class) => Ok(StaticType::Class(*class)),
            SeenType::Outside(_) => Ok(StaticType::Outside),
            SeenType::Array(item) => Ok(StaticType::Array(item.get().copy(alloc)?)),
            SeenType::Unread => Ok(StaticType::Unread),
        }
    }

    /// That of a literal by its text (JLS 15.8.1). It takes no memory.
    pub fn of_literal(text: &Text) -> StaticType
        ensures { view_value result ≡ of_literal text.now }
    {
        match text.bytes() {
            b"null" => StaticType::Null,
            [b'"', ..] => StaticType::Outside,
            _ => StaticType::Primitive,
        }
    }

    /// That of an item of a value (JLS 15.10.3). Of what has no items it is mixed. `Err` is want of memory.
    pub fn item(&self, alloc: Global) -> Result<StaticType, OutOfMemory>
        ensures { IfOk result (λ value. view_value value ≡ item (view_value self.now)) }
    {
        match self {
            StaticType::Array(item) => StaticType::of_type(alloc, item),
            StaticType::Outside => Ok(StaticType::Outside),
            StaticType::Unread => Ok(StaticType::Unread),
            _ => Ok(StaticType::Mixed),
        }
    }

    /// That of a field outside, of a value of this type: `length` of an array is primitive (JLS 10.7). It takes no memory.
    pub fn outside_field(&self, name: &Text) -> StaticType
        ensures { view_value result ≡ outside_field (view_value self.now) name.now }
    {
        match self {
            StaticType::Array(_) if name.bytes() == b"length".as_slice() => StaticType::Primitive,
            _ => StaticType::Outside,
        }
    }

    /// That of a call of a method outside, on a value of this type and with so many arguments: `clone()` of an array gives an array of
    /// its type (JLS 10.7). `Err` is want of memory.
    pub fn outside_call(
        &self,
        alloc: Global,
        name: &Text,
        arity: usize,
    ) -> Result<StaticType, OutOfMemory>
        ensures { IfOk result (λ value. view_value value ≡ outside_call (view_value self.now) name.now arity) }
    {
        match self {
            StaticType::Array(item) if name.bytes() == b"clone".as_slice() && arity == 0 => {
                Ok(StaticType::Array(item.copy(alloc)?))
            },
            _ => Ok(StaticType::Outside),
        }
    }

    /// Whether two static types are equal. What is unread equals nothing. It takes no memory.
    pub fn same(&self, other: &StaticType) -> bool
        ensures { result ≡ same_value nat_cmp (view_value self.now) (view_value other.now) }
    {
        match (self, other) {
            (StaticType::Primitive, StaticType::Primitive) => true,
            (StaticType::Null, StaticType::Null) => true,
            (StaticType::Void, StaticType::Void) => true,
            (StaticType::Mixed, StaticType::Mixed) => true,
            (StaticType::Outside, StaticType::Outside) => true,
            (StaticType::Class(first), StaticType::Class(second)) => first == second,
            (StaticType::Array(first), StaticType::Array(second)) => first.same(second),
            _ => false,
        }
    }
}
