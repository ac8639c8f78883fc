//! Variables as expressions.
ghost use Rattle.std.specs.Prelude.{◌≡◌, IfOk};
ghost use Rattle.mol_resolve_readings.specs.meant.Kept.{view_meant};
ghost use Rattle.mol_resolve_names.specs.lone_names.Variables.{value_of};

use crate::lone_names::variable::Variable;
use mol_base::OutOfMemory;
use mol_resolve_readings::Meant;
use mol_resolve_readings::meant::fields;
use mol_values_types::IExpr;
use std::alloc::Global;

/// A variable as it is read.
pub(crate) fn value(alloc: Global, variable: &Variable<'_>) -> Result<Meant, OutOfMemory>
    ensures { IfOk result (λ value. view_meant value ≡ value_of variable.now) }
{
    match variable {
        Variable::Local(number, ty) => Meant::of_type(alloc, IExpr::Local(*number), ty),
        Variable::Parameter(param) => Meant::of_type(alloc, IExpr::Param(param.id), &param.ty),
        Variable::Field(field) => fields::own_field(alloc, field.is_static, field.id, field.ty),
    }
}
