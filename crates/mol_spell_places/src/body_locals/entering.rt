//! How locals come into scope.
ghost use Rattle.std.specs.Prelude.{◌≡◌, ◌++◌, ◌∷◌, [], OnOk, OnErr, length};
ghost use Rattle.mol_spell_places.specs.body_locals.Kept.{AreNamed};

use crate::body_locals::body_local::BodyLocal;
use crate::scope_names::ScopeNames;
use mol_base::OutOfMemory;

/// A local is declared, and comes into scope by its number, which is the next. For want of memory nothing changes.
pub(crate) fn enter<'a>(
    declared: &mut Vec<BodyLocal<'a>>,
    in_scope: &mut Vec<usize>,
    names: &mut ScopeNames<'a>,
    local: BodyLocal<'a>,
) -> Result<(), OutOfMemory>
    requires { AreNamed declared.old.items in_scope.old.items names.old }
    ensures stands { AreNamed declared.new.items in_scope.new.items names.new }
    ensures ok { OnOk result ((declared.new.items ≡ declared.old.items ++ local.entry ∷ [])
        × (in_scope.new.items ≡ in_scope.old.items ++ length declared.old.items ∷ [])) }
    ensures err { OnErr result ((declared.new.items ≡ declared.old.items) × (in_scope.new.items ≡ in_scope.old.items)) }
{
    let number = declared.len();
    declared.reserve(1)?;
    in_scope.reserve(1)?;
    names.enter(local.name.as_str())?;
    declared.push(local).unwrap();
    in_scope.push(number).unwrap();
    Ok(())
}
