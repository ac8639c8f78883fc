//! The look-ups of members.
ghost use Rattle.std.specs.Prelude.{◌≡◌, ℕ, Contains, IfOk};
ghost use Rattle.jav_names.specs.LookUps.{constructor_from, field_from, method_from, super_constructor, super_method};
ghost use Rattle.jav_names.specs.UnitViews.{MemberKey};
ghost use Rattle.jav_names.specs.Views.{ViewDeclaration, ViewField};
ghost use Rattle.jav_scope.specs.Answers.{declaration_ref, field_ref};
ghost use Rattle.jav_scope.specs.Entries.{view_in};
ghost use Rattle.mol_resolve_members.specs.found.Found.{Answers, HasMethod, IsConstructor, IsField, IsMethod, of_object};
ghost use Rattle.mol_resolve_members.specs.places.Listings.{HasMember};
ghost use Rattle.mol_resolve_members.specs.sources.Sources.{files_of};
ghost use Rattle.mol_resolve_rules.specs.Numbering.{ids_of};

use crate::found::found_member::{FoundConstructor, FoundField, FoundMethod};
use crate::members::Members;
use crate::numbers::Numbers;
use jav_scope::{Found, MemberRef, Scope, is_object_method};
use mol_base::{Id, OutOfMemory, Text};
use std::alloc::Global;
use std::marker::Model;

/// Finds the members of source files, with their types and their identities in a base. Contracts see the files.
#[derive(Drop)]
pub struct Finder<'a> {
    scope: &'a Scope<'a>,
    members: &'a Members<'a>,
    numbers: &'a Numbers<'a>,
}

impl<'a> Model for Finder<'a> {
    ghost use Rattle.std.specs.Prelude.{◌≡◌, List};
    ghost use Rattle.std.specs.Coded.{coded_list};
    ghost use Rattle.jav_scope.specs.contracts.source.SourceUnit as source;
    ghost use Rattle.jav_scope.specs.declared.source.SourceUnit.{SourceUnit};

    ghost Value = { List SourceUnit };

    ghost coded = { coded_list source.the_row.coded };

    ghost view = { λ finder. finder.scope.now };

    ghost invariant = { λ finder. (finder.members.now ≡ finder.scope.now) × (finder.numbers.now ≡ finder.scope.now) };
}

impl<'a> Finder<'a> {
    /// Finds the members of the files that a scope is made of. It takes no memory.
    pub fn new(
        scope: &'a Scope<'a>,
        members: &'a Members<'a>,
        numbers: &'a Numbers<'a>,
    ) -> Finder<'a>
        requires members { members.now ≡ scope.now }
        requires numbers { numbers.now ≡ scope.now }
        ensures { result ≡ scope.now }
    {
        Finder {
            scope,
            members,
            numbers,
        }
    }

    /// The scope of the files. It takes no memory.
    pub fn scope(&self) -> &'a Scope<'a>
        ensures { result.now ≡ self.now }
    {
        self.scope
    }

    /// The identity of the class of the file of this number; where there is no such file, the one after all. It takes no memory.
    pub fn class_id(&self, class: u32) -> Id
        ensures { result ≡ (ids_of (files_of self.now)).class_id class }
    {
        self.numbers.class_id(class)
    }

    /// The field of this name that is nearest from a class up (JLS 8.3), as `Scope::field_of` finds it. It takes no memory.
    pub fn field_of(&self, class: u32, name: &Text) -> Found<FoundField<'a>>
        ensures { Answers (IsField self.now) result (field_from (view_in self.now) class name.now) }
    {
        match self.scope.field_of(class, name) {
            Found::Found(at) => Found::Found(self.field(at)),
            Found::Outside => Found::Outside,
            Found::NotFound => Found::NotFound,
        }
    }

    /// The method of this name and number of parameters that is nearest from a class up (JLS 8.4.8, 15.12.2), as `Scope::method_of` finds
    /// it. It takes no memory.
    pub fn method_of(&self, class: u32, name: &Text, arity: u32) -> Found<FoundMethod<'a>>
        ensures { Answers (IsMethod self.now) result (method_from (view_in self.now) class name.now arity) }
    {
        match self.scope.method_of(class, name, arity) {
            Found::Found(at) => Found::Found(self.method(at, arity)),
            Found::Outside => Found::Outside,
            Found::NotFound => Found::NotFound,
        }
    }

    /// The method that is nearest from the superclass of a class up (JLS 15.12.1). Without one it is outside where the superclass is, or
    /// where `Object` has it. It takes no memory.
    pub fn super_method(&self, class: u32, name: &Text, arity: u32) -> Found<FoundMethod<'a>>
        ensures { Answers (IsMethod self.now) result (super_method (view_in self.now) class name.now arity) }
    {
        match self.scope.superclass_of(class) {
            Found::Found(above) => self.method_of(above, name, arity),
            Found::Outside => Found::Outside,
            Found::NotFound => objects_method(name, arity),
        }
    }

    /// The constructor of a class by its number of parameters (JLS 8.8.9), as `Scope::constructor_of` finds it. It takes no memory.
    pub fn constructor_of(&self, class: u32, arity: u32) -> Found<FoundConstructor<'a>>
        ensures { Answers (IsConstructor self.now) result (constructor_from (view_in self.now) class arity) }
    {
        match self.scope.constructor_of(class, arity) {
            Found::Found(Some(at)) => {
                Found::Found(FoundConstructor::Declared(self.method(at, arity)))
            },
            Found::Found(None) => Found::Found(FoundConstructor::Default(self.class_id(class))),
            Found::Outside => Found::Outside,
            Found::NotFound => Found::NotFound,
        }
    }

    /// That of the superclass of a class; outside where the superclass is (JLS 8.8.7.1). It takes no memory.
    pub fn super_constructor(&self, class: u32, arity: u32) -> Found<FoundConstructor<'a>>
        ensures { Answers (IsConstructor self.now) result (super_constructor (view_in self.now) class arity) }
    {
        match self.scope.superclass_of(class) {
            Found::Found(above) => self.constructor_of(above, arity),
            Found::Outside => Found::Outside,
            Found::NotFound => Found::NotFound,
        }
    }

    /// The identities of the parameters of a method that was found here, in their order. `Err` is want of memory.
    pub fn param_ids(&self, alloc: Global, method: &FoundMethod<'_>) -> Result<Vec<Id>, OutOfMemory>
        requires { HasMethod self.now method.now }
        ensures { IfOk result (λ ids. (declared : ViewDeclaration ℕ MemberKey) → IsMethod self.now declared method.now
            → ids.items ≡ (ids_of (files_of self.now)).param_ids declared) }
    {
        self.numbers.param_ids(alloc, method.at, method.arity)
    }

    /// The field at this place.
    fn field(&self, at: MemberRef) -> FoundField<'a>
        requires { HasMember self.now at }
        ensures { (field : ViewField ℕ MemberKey) → Contains (view_in self.now).fields field → at ≡ field_ref field
            → IsField self.now field result }
    {
        let row = self.members.row(at);
        FoundField {
            id: self.numbers.member_id(at),
            ty: &row.ty,
            is_static: row.is_static,
        }
    }

    /// The method of the declaration at this place, which takes so many arguments.
    fn method(&self, at: MemberRef, arity: u32) -> FoundMethod<'a>
        requires { HasMember self.now at }
        ensures { (declared : ViewDeclaration ℕ MemberKey) → Contains (view_in self.now).declarations declared
            → at ≡ declaration_ref declared → arity ≡ declared.arity → IsMethod self.now declared result }
    {
        let row = self.members.row(at);
        FoundMethod {
            at,
            arity,
            id: self.numbers.method_id(at),
            result: &row.ty,
            is_static: row.is_static,
        }
    }
}

/// A method that no class has: outside where `Object` has it.
fn objects_method<'a>(name: &Text, arity: u32) -> Found<FoundMethod<'a>>
    ensures { result ≡ of_object name.now arity }
{
    if is_object_method(name, arity) {
        Found::Outside
    } else {
        Found::NotFound
    }
}
