//! Where the names of variables are read.
ghost use Rattle.std.specs.Prelude.{◌≡◌};
ghost use Rattle.jav_scope.specs.Answers.{answered};
ghost use Rattle.jav_names.specs.LookUps.{first_place, last_place, variable};
ghost use Rattle.jav_names.specs.Types.{Header};
ghost use Rattle.mol_base.specs.declared.ident.Id.{Id};
ghost use Rattle.mol_resolve_rules.specs.ProgramViews.{program_view};
ghost use Rattle.mol_scope.specs.variables.Keys.{found_in, in_scope, place_in, variable_key};

use crate::variables::variable::Variable;
use jav_scope::Found;
use mol_base::Id;
use mol_scope_members::{MemberIndex, field_of};
use mol_spell_places::{ParamNames, ScopeNames};

/// A place in a class of a table, which need not live: the locals in scope there, and the parameters of the method or constructor.
#[derive(Clone, Copy)]
pub struct VariablePlace<'a, 'b> {
    pub members: &'b MemberIndex<'a>,
    pub class: Id,
    pub locals: &'b ScopeNames<'a>,
    pub params: &'b ParamNames<'a>,
}

impl VariablePlace<'_, '_> {
    /// What the name of a variable reads as, whatever the imports of the file: the nearest local, a parameter, a field of the class or of
    /// one above it, in this order (JLS 6.4.1, 8.3). It takes no memory. The time is that of a look-up of a name and of `field_of`,
    /// however many locals and parameters there are.
    pub fn variable(&self, name: &str) -> Found<Variable>
        ensures { (header : Header Id) → result
            ≡ answered variable_key (variable (program_view self.now.members.now) (place_in header self.now) name.now) }
    {
        if let Some(variable) = self.in_scope(name) {
            return Found::Found(variable);
        }
        match field_of(self.members, &self.class, name) {
            Found::Found(field) => Found::Found(Variable::Field(field)),
            Found::Outside => Found::Outside,
            Found::NotFound => Found::NotFound,
        }
    }

    /// The variable that `variable` finds, if it finds one. It takes no memory. Where no field that lives has this name, in whatever class,
    /// the time is that of look-ups of a name, however many classes stand above this one; else it is that of `variable`.
    pub fn found(&self, name: &str) -> Option<Variable>
        ensures { (header : Header Id) → result ≡ found_in
            (answered variable_key (variable (program_view self.now.members.now) (place_in header self.now) name.now)) }
    {
        if self.members.is_field_name(name) {
            found_in(self.variable(name))
        } else {
            self.in_scope(name)
        }
    }

    /// The nearest local of a name, else the parameter.
    fn in_scope(&self, name: &str) -> Option<Variable>
        ensures { result ≡ in_scope (last_place name.now self.now.locals.now) (first_place name.now self.now.params.now) }
    {
        if let Some(place) = self.locals.place_of(name) {
            return Some(Variable::Local(place));
        }
        match self.params.place_of(name) {
            Some(place) => Some(Variable::Param(place)),
            None => None,
        }
    }
}

/// The variable that an answer has found, if it has found one.
fn found_in(answer: Found<Variable>) -> Option<Variable>
    ensures { result ≡ found_in answer }
{
    match answer {
        Found::Found(variable) => Some(variable),
        Found::Outside => None,
        Found::NotFound => None,
    }
}
