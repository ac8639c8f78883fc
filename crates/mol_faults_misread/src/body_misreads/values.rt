//! Values of cells.
ghost use Rattle.std.specs.Prelude.{◌≡◌, Some, OnOk, option_copied};
ghost use Rattle.mol_faults_misread.specs.body_misreads.CellPlaces.{IsReadAt};
ghost use Rattle.mol_faults_misread.specs.body_misreads.PartReferences.{declared_references, params_references};
ghost use Rattle.mol_faults_expr.specs.Noted.{noted_after};
ghost use Rattle.mol_resolve_rules.specs.Locals.{no_locals};
ghost use Rattle.mol_spell_rules.specs.UnitCells.{references_in};
ghost use Rattle.mol_values_types.specs.declared.value.Value.TheVariants as values;

use crate::body_misreads::body_reader::BodyReader;
use mol_base::OutOfMemory;
use mol_faults_expr::Misreads;
use mol_spell_places::{BodyLocals, Places};
use mol_values_types::{IBody, IExpr, IType, Param, Value};

impl<'a, P: Places> BodyReader<'a, '_, P> {
    /// Notes the names in the value of a cell, in the order in which they print; nothing where the cell has no value. The time is linear
    /// in its size, but for what names cost.
    pub fn note_value(
        &self,
        misreads: &mut Misreads,
        value: Option<&'a Value>,
    ) -> Result<(), OutOfMemory>
        requires { IsReadAt (P.writer self.now.places.now) self.now.place }
        ensures { let writer = P.writer self.now.places.now in
            OnOk result (misreads.new ≡ noted_after writer misreads.old (references_in writer (option_copied value.entry))) }
    {
        match value {
            Some(held) => self.note_held(misreads, held),
            None => Ok(()),
        }
    }

    /// Notes the names in a value.
    fn note_held(&self, misreads: &mut Misreads, value: &'a Value) -> Result<(), OutOfMemory>
        requires { IsReadAt (P.writer self.now.places.now) self.now.place }
        ensures { let writer = P.writer self.now.places.now in
            OnOk result (misreads.new ≡ noted_after writer misreads.old (references_in writer (Some value.now))) }
    {
        match value {
            Value::Live(_) => Ok(()),
            Value::Package(_) => Ok(()),
            Value::Owner(_) => Ok(()),
            Value::Method(_) => Ok(()),
            Value::Name(_) => Ok(()),
            Value::Super(parent) => self.note_parent(misreads, parent),
            Value::Result(ty) => self.note_header_type(misreads, ty),
            Value::Params(params) => self.note_params(misreads, params.items()),
            Value::Kind(_) => Ok(()),
            Value::Fixed(_) => Ok(()),
            Value::Words(_) => Ok(()),
            Value::Notes(_) => Ok(()),
            Value::Body(body) => self.note_maybe_body(misreads, body),
            Value::Value(ty, init) => self.note_first_value(misreads, ty, init.get()),
        }
    }

    /// Notes the names of the type after `extends`, if there is one.
    fn note_parent(
        &self,
        misreads: &mut Misreads,
        parent: &Option<IType>,
    ) -> Result<(), OutOfMemory>
        requires { IsReadAt (P.writer self.now.places.now) self.now.place }
        ensures { let writer = P.writer self.now.places.now in OnOk result (misreads.new
            ≡ noted_after writer misreads.old (references_in writer (Some (values.Super parent.now)))) }
    {
        match parent {
            Some(ty) => self.note_header_type(misreads, ty),
            None => Ok(()),
        }
    }

    /// Notes the names of the types of parameters, one after the other.
    fn note_params(&self, misreads: &mut Misreads, params: &[Param]) -> Result<(), OutOfMemory>
        requires { IsReadAt (P.writer self.now.places.now) self.now.place }
        ensures { let writer = P.writer self.now.places.now in
            OnOk result (misreads.new ≡ noted_after writer misreads.old (params_references writer params.now)) }
    {
        for param in params {
            self.note_header_type(misreads, &param.ty)?;
        }
        Ok(())
    }

    /// Notes the names of a body; nothing of an abstract method.
    fn note_maybe_body(
        &self,
        misreads: &mut Misreads,
        body: &'a Option<IBody>,
    ) -> Result<(), OutOfMemory>
        requires { IsReadAt (P.writer self.now.places.now) self.now.place }
        ensures { let writer = P.writer self.now.places.now in OnOk result (misreads.new
            ≡ noted_after writer misreads.old (references_in writer (Some (values.Body body.now)))) }
    {
        match body {
            Some(body) => self.note_body(misreads, body),
            None => Ok(()),
        }
    }

    /// Notes the names of the type and the first value of a field.
    fn note_first_value(
        &self,
        misreads: &mut Misreads,
        ty: &IType,
        init: &'a Option<IExpr>,
    ) -> Result<(), OutOfMemory>
        requires { IsReadAt (P.writer self.now.places.now) self.now.place }
        ensures { let writer = P.writer self.now.places.now in OnOk result (misreads.new
            ≡ noted_after writer misreads.old (references_in writer (Some (values.Value ty.now init.now)))) }
    {
        self.note_header_type(misreads, ty)?;
        let locals = BodyLocals::new(self.alloc);
        self.note_maybe(misreads, &locals, init)
    }

    /// Notes the names of a type beside which no locals are declared.
    fn note_header_type(&self, misreads: &mut Misreads, ty: &IType) -> Result<(), OutOfMemory>
        requires { IsReadAt (P.writer self.now.places.now) self.now.place }
        ensures { let writer = P.writer self.now.places.now in
            OnOk result (misreads.new ≡ noted_after writer misreads.old (declared_references writer no_locals ty.now)) }
    {
        let locals = BodyLocals::new(self.alloc);
        self.note_declared_type(misreads, &locals, ty)
    }
}
