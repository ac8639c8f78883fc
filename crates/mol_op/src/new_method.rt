//! What a method and a constructor that are added have in common.
ghost use Rattle.mol_op.specs.Rows.{new_method_fault};
ghost use Rattle.mol_op.specs.Tests.{IsVerdict};

use crate::OpFault;
use crate::conditions::has_block;
use crate::mentions::{Seen, check_body};
use crate::params::new_params;
use mol_base::{Id, Tag};
use mol_table::Table;
use mol_values_types::{IBody, Known, MethodKind, Param};

/// The parameters of a method that is added are new, its declaration has a block or is one of an instance
/// method, and what the body mentions may be mentioned.
#[tactic(auto, using(crate::proofs::ConditionParts::new_method_parts))]
pub fn check_new_method(
    table: &Table,
    tag: &Tag,
    method: &Id,
    decl: &Id,
    kind: MethodKind,
    params: &[Param],
    body: &Option<IBody>,
) -> Result<(), OpFault>
    ensures { IsVerdict (new_method_fault tag.now table.now.known method.now decl.now kind params.now body.now) result }
{
    let entities = [
        (*method, Known::Method(kind)),
        (*decl, Known::Decl(*method)),
    ];
    new_params(table, tag, &entities, method, params)?;
    has_block(body, kind, decl)?;
    let seen = Seen {
        table,
        entities: &entities,
        method: *method,
        params,
    };
    check_body(&seen, body)
}
