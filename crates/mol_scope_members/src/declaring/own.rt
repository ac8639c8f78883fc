//! What a class declares itself.
ghost use Rattle.std.specs.Prelude.{◌≡◌, option_map};
ghost use Rattle.mol_resolve_rules.specs.ProgramViews.{program_view};
ghost use Rattle.mol_scope_members.specs.declaring.Indexed.{declared_field, declared_method};

use crate::declaring::member_index::MemberIndex;
use jav_names::Spelling;
use mol_base::Id;

impl MemberIndex<'_> {
    /// The field of this name that a class declares itself, of several that of least identity. It takes no memory. The time is logarithmic
    /// in the number of fields.
    pub fn declared_field(&self, class: &Id, name: &str) -> Option<Id>
        ensures { result ≡ option_map (λ field. field.key) (declared_field (program_view self.now) class.now name.now) }
    {
        let spelling = Spelling::Whole(name.as_bytes());
        self.members.fields.first(class, 0, &spelling)
    }

    /// The declaration of a method of this name and number of parameters that a class has itself, of several that of least identity. It
    /// takes no memory. The time is logarithmic in the number of declarations.
    pub fn declared_method(&self, class: &Id, name: &str, arity: u32) -> Option<Id>
        ensures { result ≡ option_map (λ declared. declared.key) (declared_method (program_view self.now) class.now name.now arity) }
    {
        let spelling = Spelling::Whole(name.as_bytes());
        self.members.methods.first(class, arity as usize, &spelling)
    }
}
