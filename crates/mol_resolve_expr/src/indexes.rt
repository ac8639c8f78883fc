//! Items of arrays (JLS 15.10.3).
ghost use Rattle.std.specs.Prelude.{◌≡◌, ℕ, IfOk};
ghost use Rattle.jav_names.specs.seen.Kept.{view_value};
ghost use Rattle.jav_names.specs.LookUps.{index_on};
ghost use Rattle.jav_names.specs.UnitViews.{MemberKey};
ghost use Rattle.mol_resolve_expr.specs.Indexes.{index_faults, is_indexed};
ghost use Rattle.mol_resolve_readings.specs.meant.Kept.{view_part};
ghost use Rattle.mol_resolve_faults.specs.First.{all_noted};
ghost use Rattle.mol_resolve_readings.specs.reads.Reads.{Reads};
ghost use Rattle.mol_resolve_rules.specs.Outcomes.{given};
ghost use Rattle.mol_resolve_rules.specs.Readers.{Reader};
ghost use Rattle.mol_resolve_rules.specs.ReadTrees as trees;

use jav_names::StaticType;
use mol_base::OutOfMemory;
use mol_resolve_faults::{FaultKind, FirstFault};
use mol_resolve_readings::Meant;
use mol_resolve_readings::meant::arrays;
use std::alloc::Global;

/// An item of an array at an index. Whether it has items, the static type of the array alone decides.
pub(crate) fn item_at(
    alloc: Global,
    faults: &mut FirstFault,
    at: u32,
    array: Option<Meant>,
    index: Option<Meant>,
) -> Result<Option<Meant>, OutOfMemory>
    ensures { IfOk result (λ value. (reader : Reader ℕ MemberKey)
        → Reads (given (view_part array) (λ array. trees.index_meant reader at array (view_part index)
        (index_on array.static_type))) (view_part value) faults.old faults.new) }
{
    let Some(array) = array else {
        return Ok(None);
    };
    if has_items(&array.ty, faults, at) {
        arrays::item_of(alloc, array, index)
    } else {
        Ok(None)
    }
}

/// Whether a value of a static type has items. Where it has none, that is noted; of a type whose name reads as nothing, nothing is.
fn has_items(ty: &StaticType, faults: &mut FirstFault, at: u32) -> bool
    ensures holds { result ≡ is_indexed (index_on (view_value ty.now)) }
    ensures noted { faults.new ≡ all_noted faults.old (index_faults at (index_on (view_value ty.now))) }
{
    match ty {
        StaticType::Array(_) => true,
        StaticType::Outside => true,
        StaticType::Unread => false,
        _ => {
            faults.note(FaultKind::ReceiverType, at);
            false
        },
    }
}
