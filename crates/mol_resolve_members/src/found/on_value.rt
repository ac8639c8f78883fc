//! Members of values, and through the names of classes.
ghost use Rattle.std.specs.Prelude.{◌≡◌};
ghost use Rattle.jav_names.specs.seen.Kept.{view_value};
ghost use Rattle.jav_names.specs.LookUps.{field_from, field_on, field_through, method_from, method_on, method_through, on_instance};
ghost use Rattle.jav_names.specs.OnValues.{is_static_kind};
ghost use Rattle.jav_scope.specs.Entries.{view_in};
ghost use Rattle.mol_resolve_members.specs.found.Found.{IsField, IsMethod};
ghost use Rattle.mol_resolve_members.specs.found.OnValues.{AnswersOn, Chosen};

use crate::found::finder::Finder;
use crate::found::found_member::{FoundField, FoundMethod};
use jav_names::StaticType;
use jav_scope::{Found, is_object_method};
use mol_base::Text;

/// What a name after a value and a dot comes to.
#[derive(Clone, Copy)]
pub enum OnValue<T> {
    Member(T),
    /// A static member, which may not be reached so.
    Static,
    Outside,
    /// There is none.
    Missing,
    /// The value is of a type that has no members.
    NoMembers,
    /// The name of the value's type reads as nothing.
    Unread,
}

impl<'a> Finder<'a> {
    /// A field of a value of this type (JLS 15.11.1); `length` of an array is outside (JLS 10.7). It takes no memory.
    pub fn field_on(&self, name: &Text, ty: &StaticType) -> OnValue<FoundField<'a>>
        ensures { AnswersOn (IsField self.now) result (field_on (view_in self.now) name.now (view_value ty.now)) }
    {
        match ty {
            StaticType::Class(class) => self.instance_field(*class, name),
            StaticType::Outside => OnValue::Outside,
            StaticType::Array(_) => {
                if name.bytes() == b"length".as_slice() {
                    OnValue::Outside
                } else {
                    OnValue::Missing
                }
            },
            StaticType::Primitive | StaticType::Null | StaticType::Void | StaticType::Mixed => {
                OnValue::NoMembers
            },
            StaticType::Unread => OnValue::Unread,
        }
    }

    /// A method of a value of this type, which takes so many arguments (JLS 15.12.1); arrays have those of `Object` (JLS 10.7), which are
    /// outside. It takes no memory.
    pub fn method_on(&self, name: &Text, arity: u32, ty: &StaticType) -> OnValue<FoundMethod<'a>>
        ensures { AnswersOn (IsMethod self.now) result (method_on (view_in self.now) name.now arity (view_value ty.now)) }
    {
        match ty {
            StaticType::Class(class) => self.instance_method(*class, name, arity),
            StaticType::Outside => OnValue::Outside,
            StaticType::Array(_) => {
                if is_object_method(name, arity) {
                    OnValue::Outside
                } else {
                    OnValue::Missing
                }
            },
            StaticType::Primitive | StaticType::Null | StaticType::Void | StaticType::Mixed => {
                OnValue::NoMembers
            },
            StaticType::Unread => OnValue::Unread,
        }
    }

    /// A field through the name of a class (JLS 6.5.6.2): a static one, and no other. It takes no memory.
    pub fn field_through(&self, class: u32, name: &Text) -> Option<FoundField<'a>>
        ensures { Chosen (IsField self.now) result (field_through (view_in self.now) class name.now) }
    {
        match self.field_of(class, name) {
            Found::Found(field) => field.is_static.then_some(field),
            Found::Outside | Found::NotFound => None,
        }
    }

    /// A method through the name of a class (JLS 15.12.1): a static one, and no other. It takes no memory.
    pub fn method_through(&self, class: u32, name: &Text, arity: u32) -> Option<FoundMethod<'a>>
        ensures { Chosen (IsMethod self.now) result (method_through (view_in self.now) class name.now arity) }
    {
        match self.method_of(class, name, arity) {
            Found::Found(method) => method.is_static.then_some(method),
            Found::Outside | Found::NotFound => None,
        }
    }

    /// A field of an instance of a class.
    fn instance_field(&self, class: u32, name: &Text) -> OnValue<FoundField<'a>>
        ensures { AnswersOn (IsField self.now) result
            (on_instance (λ field. field.is_static) (field_from (view_in self.now) class name.now)) }
    {
        match self.field_of(class, name) {
            Found::Found(field) => {
                if field.is_static {
                    OnValue::Static
                } else {
                    OnValue::Member(field)
                }
            },
            Found::Outside => OnValue::Outside,
            Found::NotFound => OnValue::Missing,
        }
    }

    /// A method of an instance of a class.
    fn instance_method(&self, class: u32, name: &Text, arity: u32) -> OnValue<FoundMethod<'a>>
        ensures { AnswersOn (IsMethod self.now) result
            (on_instance (λ declared. is_static_kind declared.kind) (method_from (view_in self.now) class name.now arity)) }
    {
        match self.method_of(class, name, arity) {
            Found::Found(method) => {
                if method.is_static {
                    OnValue::Static
                } else {
                    OnValue::Member(method)
                }
            },
            Found::Outside => OnValue::Outside,
            Found::NotFound => OnValue::Missing,
        }
    }
}
