//! What the values of cells mention.
ghost use Rattle.std.specs.Prelude.{◌≡◌, ◌++◌, IfOk, OnOk};
ghost use Rattle.std.specs.List.{flat_map};
ghost use Rattle.mol_table_rules.specs.Mentions.{maybe_mentions, mentions as mentioned, param_mentions, type_mentions};

use crate::mentions::body::add_body;
use crate::mentions::expressions::{add_maybe, add_parent, add_type};
use crate::mentions::mention::Role;
use crate::mentions::mentions::Mentions;
use mol_base::OutOfMemory;
use mol_values_types::{IExpr, IType, Param, Value};
use std::alloc::Global;

/// What the value of a cell mentions, as often and in the order in which its words name it. The parameters to which a call gives its
/// arguments do not count. The time is linear in the size of the value. `Err` is want of memory.
pub fn mentions_of(alloc: Global, value: &Value) -> Result<Mentions, OutOfMemory>
    ensures { IfOk result (λ all. all ≡ mentioned value.now) }
{
    let mut all = Mentions::new(alloc);
    add_value(&mut all, value)?;
    Ok(all)
}

/// Adds what a value mentions.
fn add_value(mentions: &mut Mentions, value: &Value) -> Result<(), OutOfMemory>
    ensures { OnOk result (mentions.new ≡ mentions.old ++ mentioned value.now) }
{
    match value {
        Value::Live(_) => Ok(()),
        Value::Package(_) => Ok(()),
        Value::Owner(owner) => mentions.add(Role::Class, owner),
        Value::Method(method) => mentions.add(Role::Method, method),
        Value::Name(_) => Ok(()),
        Value::Super(parent) => add_parent(mentions, parent),
        Value::Result(ty) => add_type(mentions, ty),
        Value::Params(params) => add_params(mentions, params.items()),
        Value::Kind(_) => Ok(()),
        Value::Fixed(_) => Ok(()),
        Value::Words(_) => Ok(()),
        Value::Notes(_) => Ok(()),
        Value::Body(body) => add_body(mentions, body),
        Value::Value(ty, init) => add_field(mentions, ty, init.get()),
    }
}

/// Adds what the type and the first value of a field mention.
fn add_field(mentions: &mut Mentions, ty: &IType, init: &Option<IExpr>) -> Result<(), OutOfMemory>
    ensures { OnOk result (mentions.new ≡ mentions.old ++ (type_mentions ty.now ++ maybe_mentions init.now)) }
{
    add_type(mentions, ty)?;
    add_maybe(mentions, init)
}

/// Adds what a parameter mentions: itself, and what its type does.
fn add_param(mentions: &mut Mentions, param: &Param) -> Result<(), OutOfMemory>
    ensures { OnOk result (mentions.new ≡ mentions.old ++ param_mentions param.now) }
{
    mentions.add(Role::ListedParam, &param.id)?;
    add_type(mentions, &param.ty)
}

/// Adds what parameters mention, one after the other.
fn add_params(mentions: &mut Mentions, params: &[Param]) -> Result<(), OutOfMemory>
    ensures { OnOk result (mentions.new ≡ mentions.old ++ flat_map param_mentions params.now) }
{
    for param in params {
        add_param(mentions, param)?;
    }
    Ok(())
}
