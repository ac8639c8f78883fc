//! The items of arrays.
ghost use Rattle.std.specs.Prelude.{◌≡◌, option_copied, option_map};
ghost use Rattle.mol_resolve_rules.specs.ProgramViews.{seen};
ghost use Rattle.mol_scope.specs.types.Items.{item_at};

use mol_values_types::IType;

/// The type of the items, so many dimensions into an array type; the type itself where that is 0.
pub(crate) fn item_at(ty: &IType, dimensions: usize) -> Option<&IType>
    ensures { option_map seen (option_copied result) ≡ item_at dimensions (seen ty.now) }
{
    let mut at = ty;
    for _dimension in 0..dimensions {
        match item_of(at) {
            Some(item) => at = item,
            None => return None,
        }
    }
    Some(at)
}

/// The type of the items of an array type.
fn item_of(ty: &IType) -> Option<&IType>
    ensures { option_map seen (option_copied result) ≡ item_at 1 (seen ty.now) }
{
    match ty {
        IType::Array(item) => Some(item.get()),
        _ => None,
    }
}
