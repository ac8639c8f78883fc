//! What the names of variables read as (JLS 6.4.1).
ghost use Rattle.std.specs.Prelude.{◌≡◌};
ghost use Rattle.jav_scope.specs.Answers.{answered};
ghost use Rattle.jav_names.specs.LookUps.{variable};
ghost use Rattle.mol_spell_places.specs.body_locals.Kept.{locals_of};
ghost use Rattle.mol_spell_names.specs.body_names.FoundAs.{is_field_found, is_read};
ghost use Rattle.mol_spell_names.specs.body_names.FilePlaces.{reader_in};
ghost use Rattle.mol_resolve_rules.specs.Readers.{place_of};
ghost use Rattle.mol_scope.specs.variables.Keys.{found_in, variable_key};

use crate::body_names::body_names::BodyNames;
use crate::body_names::file_names::FileNames;
use crate::body_names::params::is_same;
use mol_base::Id;
use mol_scope::{Variable, VariablePlace};
use mol_spell_places::BodyLocals;

impl<F: FileNames> BodyNames<'_, F> {
    /// The variable that a name reads as, if it reads as one, beside these locals.
    pub(crate) fn variable(&self, locals: &BodyLocals<'_>, name: &str) -> Option<Variable>
        ensures { let reader = reader_in self.now.members.now (F.imports self.now.file.now) self.now.class self.now.method in
            result ≡ found_in (answered variable_key (variable reader.view (place_of reader (locals_of locals.now)) name.now)) }
    {
        let place = VariablePlace {
            members: self.members,
            class: self.class,
            locals: locals.names(),
            params: &self.params,
        };
        place.found(name)
    }
}

/// Whether a variable is found, and is this field.
pub(crate) fn is_field(field: &Id, found: Option<Variable>) -> bool
    ensures { result ≡ is_field_found field.now found }
{
    match found {
        Some(variable) => is_read(field, &variable),
        None => false,
    }
}

/// Whether a variable is this field.
fn is_read(field: &Id, variable: &Variable) -> bool
    ensures { result ≡ is_read field.now variable.now }
{
    match variable {
        Variable::Local(_) => false,
        Variable::Param(_) => false,
        Variable::Field(read) => is_same(field, read),
    }
}
