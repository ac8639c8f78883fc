//! Tests of the parameters of an operation: their identities, and what their types mention.
ghost use Rattle.std.specs.Prelude.{◌≡◌, ◌||◌, []};
ghost use Rattle.std.specs.List.{list_any};
ghost use Rattle.mol_values_types.specs.Order.{id_eq};
ghost use Rattle.mol_values_types.specs.declared.known.Known.TheVariants as knowns;
ghost use Rattle.mol_op.specs.Rows.{param_tests};
ghost use Rattle.mol_op.specs.Tests.{IsVerdict, tests_fault, makes, lists};

use crate::OpFault;
use crate::conditions::{fresh, listed};
use crate::mentions::{Seen, check_type, entity_of, is_listed};
use mol_base::{Id, Tag};
use mol_table::Table;
use mol_values_types::{Known, Param};

/// The parameters of a method that is added are new. The entities are those that are named before them.
pub fn new_params(
    table: &Table,
    tag: &Tag,
    entities: &[(Id, Known)],
    method: &Id,
    params: &[Param],
) -> Result<(), OpFault>
    ensures { IsVerdict
        (tests_fault tag.now entities.now table.now.known (param_tests (makes (knowns.Param method.now)) params.now))
        result }
{
    let seen = Seen::of(table, method);
    for at in 0..params.len() {
        let param = &params[at];
        let named = is_named(entities, &params[..at], &param.id);
        fresh(table, tag, &param.id, named)?;
        check_type(&seen, &param.ty)?;
    }
    Ok(())
}

/// The parameters of a method that is known are known as its own, or new.
pub fn known_params(table: &Table, tag: &Tag, method: &Id, params: &[Param]) -> Result<(), OpFault>
    ensures { IsVerdict (tests_fault tag.now [] table.now.known (param_tests (lists method.now) params.now)) result }
{
    let seen = Seen::of(table, method);
    for at in 0..params.len() {
        let param = &params[at];
        let named = is_listed(&params[..at], &param.id);
        listed(table, tag, method, &param.id, named)?;
        check_type(&seen, &param.ty)?;
    }
    Ok(())
}

/// Whether one of the entities or one of the parameters has this identity.
#[tactic(auto, using(crate::specs::Names::some_named))]
fn is_named(entities: &[(Id, Known)], params: &[Param], id: &Id) -> bool
    ensures { result
        ≡ (list_any (λ entity. id_eq id.now entity.0) entities.now || list_any (λ param. id_eq id.now param.id) params.now) }
{
    entity_of(entities, id).is_some() || is_listed(params, id)
}
