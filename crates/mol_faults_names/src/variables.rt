//! Names of variables before a dot, and their static types (JLS 6.5.6.1).
ghost use Rattle.std.specs.Prelude.{◌≡◌, IfOk, option_map, slice_get};
ghost use Rattle.std.specs.Option.{option_map_or};
ghost use Rattle.jav_names.specs.Leftmost.{Leftmost as Read};
ghost use Rattle.jav_names.specs.OnValues.{mixed_value, outside_value};
ghost use Rattle.jav_names.specs.StaticTypes.{of_type};
ghost use Rattle.jav_names.specs.Variables.{Variable as VariableRead};
ghost use Rattle.mol_base.specs.declared.ident.Id.{Id as Identity};
ghost use Rattle.mol_faults_names.specs.Kept.{leftmost_of, locals_at, program_at, reader_at, reads_of};
ghost use Rattle.mol_faults_names.specs.Reads.{first_read, local_read, outside_read, param_read, variable_read};
ghost use Rattle.mol_scope.specs.first_names.Readings.{IsRead};
ghost use Rattle.mol_resolve_rules.specs.Locals.{Local};
ghost use Rattle.mol_scope.specs.types.Kept.{view_value};
ghost use Rattle.mol_scope.specs.variables.Keys.{variable_key};

use crate::first::First;
use crate::place::InsteadPlace;
use crate::reads::Reads;
use crate::values::field_read;
use crate::word::Word;
use mol_base::{OutOfMemory, Text, number_of};
use mol_scope::{StaticType, Variable};

impl<'b> InsteadPlace<'_, '_, 'b> {
    /// What the first of several names reads as, as a value.
    pub(crate) fn first_read(
        &self,
        first: &First<'b>,
        name: &'b Text,
    ) -> Result<Option<Reads<'b>>, OutOfMemory>
        ensures { IfOk result (λ kept. (read : Read Identity Identity) → IsRead (leftmost_of first.now) read → option_map reads_of kept
            ≡ first_read (program_at self.now) (reader_at self.now) (locals_at self.now) name.now read) }
    {
        match first {
            First::Variable(variable) => self.variable(*variable),
            First::Class(_, _) => Ok(None),
            First::Imported(full) => Ok(Some(outside(full.as_str()))),
            First::Outside => Ok(Some(outside(name.as_str()))),
        }
    }

    fn variable(&self, variable: Variable) -> Result<Option<Reads<'b>>, OutOfMemory>
        ensures { IfOk result (λ kept. (read : VariableRead Identity Identity) → variable_key read ≡ variable → option_map reads_of kept
            ≡ variable_read (program_at self.now) (reader_at self.now) (locals_at self.now) read) }
    {
        match variable {
            Variable::Local(place) => self.local(place),
            Variable::Param(place) => Ok(self.param(place)),
            Variable::Field(field) => {
                let names = self.names;
                Ok(Some(field_read(names.variables.members.table(), field)))
            },
        }
    }

    /// The local at a place among those in scope.
    fn local(&self, place: usize) -> Result<Option<Reads<'b>>, OutOfMemory>
        ensures { let locals = locals_at self.now in IfOk result (λ kept. option_map reads_of kept
            ≡ option_map (local_read (program_at self.now) (reader_at self.now) locals) (slice_get locals.in_scope place)) }
    {
        match self.locals.in_scope().get(place) {
            Some(number) => {
                let short = number_of(*number)?;
                Ok(Some(self.numbered(short)))
            },
            None => Ok(None),
        }
    }

    /// The local of a number.
    fn numbered(&self, number: u32) -> Reads<'b>
        ensures { reads_of result ≡ local_read (program_at self.now) (reader_at self.now) (locals_at self.now) number }
    {
        Reads {
            word: Word::Local(number as usize),
            ty: self.local_type(number),
        }
    }

    /// The static type of the local of a number; mixed where there is none.
    fn local_type(&self, number: u32) -> StaticType<'b>
        ensures { view_value result
            ≡ option_map_or (λ (local : Local Identity). of_type local.type) (slice_get (locals_at self.now).declared number) mixed_value }
    {
        match self.locals.local(number) {
            Some(local) => StaticType::of_type(local.ty),
            None => StaticType::Mixed,
        }
    }

    /// The parameter at a place.
    fn param(&self, place: usize) -> Option<Reads<'b>>
        ensures { let reader = reader_at self.now in option_map reads_of result
            ≡ option_map (param_read (program_at self.now) reader (locals_at self.now)) (slice_get reader.params place) }
    {
        match self.names.params.get(place) {
            Some(param) => Some(Reads {
                word: Word::Param(param.id),
                ty: StaticType::of_type(&param.ty),
            }),
            None => None,
        }
    }
}

/// A value outside, by its text.
fn outside<'b>(text: &'b str) -> Reads<'b>
    ensures { reads_of result ≡ outside_read text.now outside_value }
{
    Reads {
        word: Word::Outside(text),
        ty: StaticType::Outside,
    }
}
