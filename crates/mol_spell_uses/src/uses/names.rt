//! What single names use.
ghost use Rattle.std.specs.Prelude.{◌≡◌, ◌++◌, ◌∷◌, [], OnOk, if◌then◌else◌};
ghost use Rattle.mol_resolve_rules.specs.StaticTypes.{class_of_only_declaration};
ghost use Rattle.mol_spell_rules.specs.SpelledExpressions.{by_name, on_owner, static_call_form, static_form};
ghost use Rattle.mol_spell_rules.specs.Writers.{outside_import, program_class};
ghost use Rattle.mol_spell_uses.specs.uses.Uses.{created_uses, form_uses, named_use, type_uses};

use crate::uses::expr_uses::ExprUses;
use crate::uses::uses::Uses;
use jav_scope::simple_name;
use mol_base::{Id, OutOfMemory, Text, number_of};
use mol_spell_expr::Names;
use mol_values_types::IType;

impl<N: Names> ExprUses<'_, N> {
    /// Adds what a static field uses: its class, where it is printed after it.
    pub(crate) fn add_static_field(&self, uses: &mut Uses, field: &Id) -> Result<(), OutOfMemory>
        ensures { let writer = N.writer self.now.names.now in
            let locals = N.locals self.now.names.now in
            OnOk result (uses.new ≡ uses.old ++ form_uses writer locals (static_form writer locals field.now)) }
    {
        let owner = self.names.owner_of(field);
        self.add_static(uses, self.names.reads_field(field), owner)
    }

    /// Adds what a static method of so many arguments uses: its class, where it is printed after it.
    pub(crate) fn add_static_method(
        &self,
        uses: &mut Uses,
        method: &Id,
        arity: usize,
    ) -> Result<(), OutOfMemory>
        ensures { let writer = N.writer self.now.names.now in
            let locals = N.locals self.now.names.now in
            OnOk result (uses.new ≡ uses.old ++ form_uses writer locals (static_call_form writer locals method.now arity)) }
    {
        let arity = number_of(arity)?;
        let class = self.names.declaring_class(method);
        self.add_static(uses, self.names.reads_method(method, arity), class)
    }

    /// Adds what a static member uses: nothing where its simple name reads as it, else its class, where there is one.
    fn add_static(&self, uses: &mut Uses, reads: bool, class: Option<Id>) -> Result<(), OutOfMemory>
        ensures { OnOk result (uses.new ≡ uses.old ++ form_uses (N.writer self.now.names.now) (N.locals self.now.names.now)
            (if reads then by_name else on_owner class)) }
    {
        if reads {
            return Ok(());
        }
        match class {
            Some(class) => self.add_class(uses, &class),
            None => Ok(()),
        }
    }

    /// Adds what a creation by a constructor uses: the class that declares it, if one does.
    pub(crate) fn add_created(&self, uses: &mut Uses, constructor: &Id) -> Result<(), OutOfMemory>
        ensures { let writer = N.writer self.now.names.now in
            OnOk result (uses.new ≡ uses.old
            ++ created_uses writer (N.locals self.now.names.now) (class_of_only_declaration writer.program constructor.now)) }
    {
        match self.names.declaring_class(constructor) {
            Some(class) => self.add_class(uses, &class),
            None => Ok(()),
        }
    }

    /// Adds a class of the program.
    pub(crate) fn add_class(&self, uses: &mut Uses, class: &Id) -> Result<(), OutOfMemory>
        ensures { OnOk result (uses.new ≡ uses.old
            ++ named_use (N.writer self.now.names.now) (N.locals self.now.names.now) (program_class class.now)) }
    {
        let hidden = self.names.is_variable(self.names.name_of(class));
        uses.add_class(*class, hidden)
    }

    /// Adds an imported type.
    pub(crate) fn add_import(&self, uses: &mut Uses, full: &Text) -> Result<(), OutOfMemory>
        ensures { OnOk result (uses.new ≡ uses.old
            ++ named_use (N.writer self.now.names.now) (N.locals self.now.names.now) (outside_import full.now)) }
    {
        let hidden = self.names.is_variable(simple_name(full.as_str()));
        uses.add_import(full, hidden)
    }

    /// Adds what a type in an expression uses.
    pub fn add_type(&self, uses: &mut Uses, ty: &IType) -> Result<(), OutOfMemory>
        ensures { OnOk result (uses.new ≡ uses.old ++ type_uses (N.writer self.now.names.now) (N.locals self.now.names.now) ty.now) }
    {
        match ty {
            IType::Boolean => Ok(()),
            IType::Byte => Ok(()),
            IType::Short => Ok(()),
            IType::Char => Ok(()),
            IType::Int => Ok(()),
            IType::Long => Ok(()),
            IType::Void => Ok(()),
            IType::Class(class) => self.add_class(uses, class),
            IType::Imported(full, _) => self.add_import(uses, full),
            IType::Written(text) => uses.add_written(text),
            IType::Array(item) => self.add_type(uses, item.get()),
        }
    }
}
