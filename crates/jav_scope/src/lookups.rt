//! The look-ups of members.
ghost use Rattle.std.specs.Prelude.{◌≡◌, suc, length, None, not};
ghost use Rattle.std.specs.List.{list_any};
ghost use Rattle.jav_names.specs.LookUps.{declares_constructor, field_from, method_from, constructor_or, constructor_from};
ghost use Rattle.jav_scope.specs.Answers.{answered, entry_ref, field_ref, declaration_ref, constructor_ref, or_of_object};
ghost use Rattle.jav_scope.specs.Climbs.{above, climb};
ghost use Rattle.jav_scope.specs.Entries.{view_in};
ghost use Rattle.jav_scope.specs.MemberLists.{found_in};

use crate::found::{Found, MemberRef};
use crate::object::is_object_method;
use crate::scope::Scope;
use jav_names::Spelling;
use jav_names::index::{Entry, Index};
use mol_base::Text;

impl Scope<'_> {
    /// The field of this name that is nearest from a class up: the class and its superclasses, up to one that was met already
    /// (JLS 8.3). Without one it is outside where they end in an outside class. It takes no memory. The time is logarithmic in the
    /// number of fields for each class from this one up to that of the field.
    pub fn field_of(&self, class: u32, name: &Text) -> Found<MemberRef>
        ensures { result ≡ answered field_ref (field_from (view_in self.now) class name.now) }
    {
        self.nearest(&self.members.fields, class, 0, name)
    }

    /// The method of this name and number of parameters that is nearest from a class up (JLS 8.4.8, 15.12.2). Without one it is
    /// outside where they end in an outside class, or where `Object` has it. It takes no memory, and as much time as `field_of`.
    pub fn method_of(&self, class: u32, name: &Text, arity: u32) -> Found<MemberRef>
        ensures { result ≡ answered declaration_ref (method_from (view_in self.now) class name.now arity) }
    {
        let found = self.nearest(&self.members.methods, class, arity as usize, name);
        or_of_object(found, is_object_method(name, arity))
    }

    /// The constructor of a class by its number of parameters; `None` is the default one, which a class has that declares none
    /// (JLS 8.8.9). It is never outside. It takes no memory, and the time is logarithmic in the number of constructors.
    pub fn constructor_of(&self, class: u32, arity: u32) -> Found<Option<MemberRef>>
        ensures { result ≡ answered constructor_ref (constructor_from (view_in self.now) class arity) }
    {
        let nameless = Spelling::Whole(&[]);
        let declared = self
            .members
            .constructors
            .first(class, arity as usize, &nameless);
        match declared {
            Some(entry) => Found::Found(Some(member_of(entry))),
            None if arity == 0 => self.default_constructor(class),
            None => Found::NotFound,
        }
    }

    /// What a class extends: a class by its number, something outside, or nothing that can be looked into (JLS 8.1.4); nothing where
    /// there is no such class. It takes no memory.
    pub fn superclass_of(&self, class: u32) -> Found<u32>
        ensures { result ≡ answered (λ number. number) (above (view_in self.now) class) }
    {
        let superclasses = self.superclasses.as_slice();
        match superclasses.get(class as usize) {
            Some(found) => *found,
            None => Found::NotFound,
        }
    }

    /// The default constructor, unless the class declares one.
    fn default_constructor(&self, class: u32) -> Found<Option<MemberRef>>
        ensures { result ≡ answered constructor_ref
            (constructor_or class None (not (list_any (declares_constructor (view_in self.now) class) (view_in self.now).declarations))) }
    {
        let nameless = Spelling::Whole(&[]);
        match self.members.constructed.first(class, 0, &nameless) {
            Some(_) => Found::NotFound,
            None => Found::Found(None),
        }
    }

    /// The nearest of the members in an index, from a class up.
    fn nearest(&self, members: &Index, class: u32, arity: usize, name: &Text) -> Found<MemberRef>
        ensures { result ≡ answered entry_ref
            (climb (suc (length self.now)) (view_in self.now) (found_in members.now arity name.now) class) }
    {
        let spelling = Spelling::Whole(name.bytes());
        let mut at = class;
        // As many steps as there are classes lead past each of them, or round a circle.
        let steps = self.superclasses.len() + 1;
        for _step in 0..steps {
            if let Some(entry) = members.first(at, arity, &spelling) {
                return Found::Found(member_of(entry));
            }
            match self.superclass_of(at) {
                Found::Found(above) => at = above,
                Found::Outside => return Found::Outside,
                Found::NotFound => return Found::NotFound,
            }
        }
        Found::NotFound
    }
}

/// A method that is found nowhere may be one of `Object`.
fn or_of_object(found: Found<MemberRef>, is_objects: bool) -> Found<MemberRef>
    ensures { result ≡ or_of_object is_objects found }
{
    match found {
        Found::NotFound if is_objects => Found::Outside,
        found => found,
    }
}

/// The member that an entry stands for.
fn member_of(entry: &Entry) -> MemberRef
    ensures { result ≡ entry_ref entry.now }
{
    MemberRef {
        unit: entry.owner,
        member: entry.place,
    }
}
