//! The look-ups of constructors.
ghost use Rattle.std.specs.Prelude.{◌≡◌, None, not};
ghost use Rattle.std.specs.List.{list_any};
ghost use Rattle.jav_scope.specs.Answers.{answered};
ghost use Rattle.jav_names.specs.LookUps.{constructor_from, constructor_or, declares_constructor};
ghost use Rattle.mol_resolve_rules.specs.ProgramViews.{program_view};
ghost use Rattle.mol_scope_members.specs.declaring.Indexed.{constructor_id};

use crate::declaring::member_index::MemberIndex;
use jav_names::Spelling;
use jav_scope::Found;
use mol_base::Id;

impl MemberIndex<'_> {
    /// The declaration of the constructor of a class by its number of parameters; `None` is the default one, which a class has that
    /// declares none (JLS 8.8.9). It is never outside. It takes no memory, and the time is logarithmic in the number of constructors.
    pub fn constructor_of(&self, class: &Id, arity: u32) -> Found<Option<Id>>
        ensures { result ≡ answered constructor_id (constructor_from (program_view self.now) class.now arity) }
    {
        let nameless = Spelling::Whole(&[]);
        match self
            .members
            .constructors
            .first(class, arity as usize, &nameless)
        {
            Some(declared) => Found::Found(Some(declared)),
            None if arity == 0 => self.default_constructor(class),
            None => Found::NotFound,
        }
    }

    /// The default constructor, unless the class declares one.
    fn default_constructor(&self, class: &Id) -> Found<Option<Id>>
        ensures { result ≡ answered constructor_id (constructor_or class.now None
            (not (list_any (declares_constructor (program_view self.now) class.now) (program_view self.now).declarations))) }
    {
        let nameless = Spelling::Whole(&[]);
        match self.members.constructed.first(class, 0, &nameless) {
            Some(_) => Found::NotFound,
            None => Found::Found(None),
        }
    }
}
