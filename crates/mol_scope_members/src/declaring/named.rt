//! Which classes declare members of a name.
ghost use Rattle.std.specs.Prelude.{◌≡◌, None};
ghost use Rattle.std.specs.List.{list_any};
ghost use Rattle.std.specs.Str.{bytes_eq};
ghost use Rattle.mol_resolve_rules.specs.ProgramViews.{program_view};
ghost use Rattle.mol_scope_members.specs.declaring.Indexed.{declared_field, declared_method};
ghost use Rattle.mol_scope_members.specs.declaring.Owners.{IsNearest};

use crate::declaring::member_index::MemberIndex;
use crate::declaring::nearest::Nearest;
use mol_base::Id;

impl MemberIndex<'_> {
    /// Whether a field that lives has this name, in whatever class. It takes no memory, and the time is logarithmic in the number of fields.
    pub fn is_field_name(&self, name: &str) -> bool
        ensures { result ≡ list_any (λ field. bytes_eq field.name name.now) (program_view self.now).fields }
    {
        self.members.field_owners.is_named(0, name)
    }

    /// Where to look next, going up from a class, for one that declares a field of this name: none of those before it does. From the
    /// superclass of the class that is answered the search goes on; so to the end it takes no more calls than the number of classes has
    /// binary digits, but where superclasses run in a circle. It takes no memory, and the time is logarithmic in the number of fields.
    pub fn nearest_field_owner(&self, class: &Id, name: &str) -> Nearest
        ensures { IsNearest self.now (λ above. declared_field (program_view self.now) above name.now ≡ None) class.now result }
    {
        self.members
            .field_owners
            .nearest(&self.paths, class, 0, name)
    }

    /// The same for a declaration of a method of this name and number of parameters. The time is logarithmic in the number of declarations.
    pub fn nearest_method_owner(&self, class: &Id, name: &str, arity: u32) -> Nearest
        ensures { IsNearest self.now (λ above. declared_method (program_view self.now) above name.now arity ≡ None) class.now result }
    {
        self.members
            .method_owners
            .nearest(&self.paths, class, arity as usize, name)
    }
}
