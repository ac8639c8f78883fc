//! Declarations of methods and constructors (JLS 8.4, 8.8).
ghost use Rattle.std.specs.Prelude.{◌≡◌, IfOk};
ghost use Rattle.std.specs.FinMap as map;
ghost use Rattle.mol_spell_rules.specs.SpelledUnits.{declaration_member};
ghost use Rattle.mol_spell.specs.units.MemberTrees.{member_of_kind};

use crate::units::unit_writer::UnitWriter;
use jav_tree::Member;
use mol_base::{Id, OutOfMemory};
use mol_spell_names::FileNames;
use mol_values_types::{Known, MethodKind};

impl<F: FileNames> UnitWriter<'_, F> {
    /// A declaration of a method as a member, if this is one of a method.
    pub(crate) fn declaration(&self, id: &Id, method: &Id) -> Result<Option<Member>, OutOfMemory>
        ensures { let program = self.now.index.now in
            IfOk result (λ member. member
            ≡ declaration_member program self.now.class id.now method.now (map.get program.known method.now)) }
    {
        match self.known(method) {
            Some(Known::Method(kind)) => {
                let member = self.member_of(id, method, kind)?;
                Ok(Some(member))
            },
            _ => Ok(None),
        }
    }

    /// A declaration of a method of this kind.
    fn member_of(&self, id: &Id, method: &Id, kind: MethodKind) -> Result<Member, OutOfMemory>
        ensures { IfOk result (λ member. member ≡ member_of_kind self.now.index.now self.now.class id.now method.now kind) }
    {
        match kind {
            MethodKind::Instance => self.method(id, method, false),
            MethodKind::Static => self.method(id, method, true),
            MethodKind::Constructor => self.constructor(id, method),
        }
    }
}
