//! Where methods are declared.
ghost use Rattle.std.specs.Prelude.{◌≡◌};
ghost use Rattle.mol_resolve_rules.specs.StaticTypes.{class_of_only_declaration};

use crate::declaring::member_index::MemberIndex;
use jav_names::Spelling;
use mol_base::Id;
use mol_scope_classes::owner_of;

impl MemberIndex<'_> {
    /// The class in which a static method or a constructor is declared, which need not live. It takes no memory. The time is logarithmic in
    /// the number of declarations.
    pub fn declaring_class(&self, method: &Id) -> Option<Id>
        ensures { result ≡ class_of_only_declaration self.now method.now }
    {
        let nameless = Spelling::Whole(&[]);
        match self.members.declared.first(method, 0, &nameless) {
            Some(declaration) => owner_of(self.classes.table(), &declaration),
            None => None,
        }
    }
}
