//! Values of cells.
ghost use Rattle.std.specs.Prelude.{◌≡◌, ◌++◌, IfOk, OnOk};
ghost use Rattle.mol_spell_rules.specs.DefaultCreations.{default_creations, maybe_creations};

use crate::creations::bodies::add_block;
use crate::creations::exprs::add_maybe;
use mol_base::{Id, OutOfMemory};
use mol_values_types::Value;
use std::alloc::Global;

/// The classes that a value creates by their default constructors (JLS 8.8.9, 15.9), each as often as it does so and in the order in which
/// they print. The time is linear in the size of the value. `Err` is want of memory.
pub fn default_creations(alloc: Global, value: &Value) -> Result<Vec<Id>, OutOfMemory>
    ensures { IfOk result (λ classes. classes.items ≡ default_creations value.now) }
{
    let mut classes = Vec::new(alloc);
    add_value(&mut classes, value)?;
    Ok(classes)
}

fn add_value(classes: &mut Vec<Id>, value: &Value) -> Result<(), OutOfMemory>
    ensures { OnOk result (classes.new.items ≡ classes.old.items ++ default_creations value.now) }
{
    match value {
        Value::Body(Some(body)) => add_block(classes, &body.block),
        Value::Value(_, init) => add_maybe(classes, init.get()),
        _ => Ok(()),
    }
}
