//! Values of cells.
ghost use Rattle.std.specs.Prelude.{◌≡◌, ◌++◌, OnOk, Some, option_copied};
ghost use Rattle.mol_spell_uses.specs.body_uses.PartUses.{first_value_uses, params_uses, value_uses};
ghost use Rattle.mol_spell_rules.specs.Writers.{Writer};
ghost use Rattle.mol_values_types.specs.declared.value.Value.TheVariants as values;

use crate::body_uses::body_uses::BodyUses;
use crate::body_uses::types::add_declared_type;
use crate::uses::Uses;
use mol_base::OutOfMemory;
use mol_spell_places::{BodyLocals, Places};
use mol_values_types::{IBody, IExpr, IType, Param, Value};

impl<P: Places> BodyUses<'_, P> {
    /// Adds what the names in the value of a cell use, in the order in which they print; nothing where the cell has no value. The time is
    /// linear in its size, but for what names cost.
    pub fn add_value(&self, uses: &mut Uses, value: Option<&Value>) -> Result<(), OutOfMemory>
        ensures { OnOk result (uses.new ≡ uses.old ++ value_uses (P.writer self.now.places.now) (option_copied value.entry)) }
    {
        match value {
            Some(held) => self.add_held(uses, held),
            None => Ok(()),
        }
    }

    /// Adds what the names in a value use.
    fn add_held(&self, uses: &mut Uses, value: &Value) -> Result<(), OutOfMemory>
        ensures { OnOk result (uses.new ≡ uses.old ++ value_uses (P.writer self.now.places.now) (Some value.now)) }
    {
        match value {
            Value::Live(_) => Ok(()),
            Value::Package(_) => Ok(()),
            Value::Owner(_) => Ok(()),
            Value::Method(_) => Ok(()),
            Value::Name(_) => Ok(()),
            Value::Super(parent) => add_parent(uses, parent),
            Value::Result(ty) => add_declared_type(uses, ty),
            Value::Params(params) => add_params(uses, params.items()),
            Value::Kind(_) => Ok(()),
            Value::Fixed(_) => Ok(()),
            Value::Words(_) => Ok(()),
            Value::Notes(_) => Ok(()),
            Value::Body(body) => self.add_maybe_body(uses, body),
            Value::Value(ty, init) => self.add_first_value(uses, ty, init.get()),
        }
    }

    /// Adds what the body of a declaration uses; nothing of an abstract one.
    fn add_maybe_body(&self, uses: &mut Uses, body: &Option<IBody>) -> Result<(), OutOfMemory>
        ensures { OnOk result (uses.new ≡ uses.old ++ value_uses (P.writer self.now.places.now) (Some (values.Body body.now))) }
    {
        match body {
            Some(body) => self.add_body(uses, body),
            None => Ok(()),
        }
    }

    /// Adds what the type and the first value of a field use.
    fn add_first_value(
        &self,
        uses: &mut Uses,
        ty: &IType,
        init: &Option<IExpr>,
    ) -> Result<(), OutOfMemory>
        ensures { OnOk result (uses.new ≡ uses.old ++ first_value_uses (P.writer self.now.places.now) ty.now init.now) }
    {
        add_declared_type(uses, ty)?;
        let locals = BodyLocals::new(self.alloc);
        self.add_maybe(uses, &locals, init)
    }
}

/// Adds what the type after `extends` uses, if there is one.
fn add_parent(uses: &mut Uses, parent: &Option<IType>) -> Result<(), OutOfMemory>
    ensures { OnOk result ((writer : Writer) → uses.new ≡ uses.old ++ value_uses writer (Some (values.Super parent.now))) }
{
    match parent {
        Some(ty) => add_declared_type(uses, ty),
        None => Ok(()),
    }
}

/// Adds what the types of parameters use, one after the other.
fn add_params(uses: &mut Uses, params: &[Param]) -> Result<(), OutOfMemory>
    ensures { OnOk result ((writer : Writer) → uses.new ≡ uses.old ++ params_uses writer params.now) }
{
    for param in params {
        add_declared_type(uses, &param.ty)?;
    }
    Ok(())
}
