//! What single cells of a table hold, as it is written in the file of a class.
ghost use Rattle.std.specs.Prelude.{◌≡◌, IfOk, option_copied};
ghost use Rattle.std.specs.FinMap as map;
ghost use Rattle.mol_spell_names.specs.body_names.FilePlaces.{writer_of};
ghost use Rattle.mol_spell_rules.specs.SimpleNames.{unit_writer};
ghost use Rattle.mol_spell_rules.specs.SpelledStatements.{spelled_body};
ghost use Rattle.mol_spell_rules.specs.SpelledUnits.{body_tree, params_of, parent_tree, result_tree};
ghost use Rattle.mol_table_rules.specs.Program.{cell, value_at};
ghost use Rattle.mol_spell.specs.units.MemberTrees.{type_tree};
ghost use Rattle.mol_values_types.specs.declared.cell.Slot.{Slot as Place};
ghost use Rattle.mol_values_types.specs.declared.cell.Slot.TheVariants as slots;

use crate::units::trees::{body_tree, param_trees, type_tree};
use crate::units::unit_writer::UnitWriter;
use jav_tree::{Block, Param as ParamName, TypeName};
use mol_base::{Id, List, OutOfMemory};
use mol_scope_classes::params_of;
use mol_spell_names::{BodyNames, FileNames};
use mol_values_types::{Cell, IBody, IType, Known, Slot, Value};

impl<'a, F: FileNames> UnitWriter<'a, F> {
    /// The value of a cell of an entity.
    pub(crate) fn value(&self, id: &Id, slot: Slot) -> Option<&Value>
        ensures { option_copied result ≡ value_at self.now.index.now id.now slot }
    {
        let cell = Cell { id: *id, slot };
        self.index.table().get(&cell)
    }

    /// What an identity is known as.
    pub(crate) fn known(&self, id: &Id) -> Option<Known>
        ensures { result ≡ map.get self.now.index.now.known id.now }
    {
        self.index.table().known(*id)
    }

    /// The names where the cells of an entity are written.
    pub(crate) fn names_at(&self, id: &Id) -> Result<BodyNames<'a, F>, OutOfMemory>
        ensures { IfOk result (λ names. (slot : Place) → writer_of names.members.now (F.imports names.file.now) (F.simple names.file.now)
            names.class names.method ≡ unit_writer self.now.index.now self.now.class (cell id.now slot)) }
    {
        BodyNames::new(self.alloc, self.index, self.file, self.class, id)
    }

    /// What the class extends, if it names a class.
    pub(crate) fn parent(&self) -> Result<Option<TypeName>, OutOfMemory>
        ensures { let program = self.now.index.now in let class = self.now.class in
            IfOk result (λ tree. tree ≡ parent_tree program class (value_at program class slots.Super)) }
    {
        match self.value(&self.class, Slot::Super) {
            Some(Value::Super(Some(parent))) => {
                let parent = self.type_at(&self.class, parent)?;
                Ok(Some(parent))
            },
            _ => Ok(None),
        }
    }

    /// The type of what a method gives.
    pub(crate) fn result_of(&self, method: &Id) -> Result<TypeName, OutOfMemory>
        ensures { let program = self.now.index.now in
            IfOk result (λ tree. tree ≡ result_tree program self.now.class method.now (value_at program method.now slots.Result)) }
    {
        match self.value(method, Slot::Result) {
            Some(Value::Result(ty)) => self.type_at(method, ty),
            _ => Ok(TypeName::Void),
        }
    }

    /// The present parameters of a method.
    pub(crate) fn params_of(&self, method: &Id) -> Result<List<ParamName>, OutOfMemory>
        ensures { IfOk result (λ trees. trees ≡ params_of self.now.index.now self.now.class method.now) }
    {
        let names = self.names_at(method)?;
        param_trees(self.alloc, &names, params_of(self.index.table(), method))
    }

    /// The body of a declaration, if it has one.
    pub(crate) fn body_of(&self, id: &Id) -> Result<Option<Block>, OutOfMemory>
        ensures { IfOk result (λ tree. tree ≡ body_tree self.now.index.now self.now.class id.now) }
    {
        match self.value(id, Slot::Body) {
            Some(Value::Body(Some(body))) => {
                let block = self.body_at(id, body)?;
                Ok(Some(block))
            },
            _ => Ok(None),
        }
    }

    /// A type in a cell of an entity.
    fn type_at(&self, id: &Id, ty: &IType) -> Result<TypeName, OutOfMemory>
        ensures { IfOk result (λ tree. (slot : Place)
            → tree ≡ type_tree (unit_writer self.now.index.now self.now.class (cell id.now slot)) ty.now) }
    {
        let names = self.names_at(id)?;
        type_tree(self.alloc, &names, ty)
    }

    /// A body in a cell of an entity.
    fn body_at(&self, id: &Id, body: &IBody) -> Result<Block, OutOfMemory>
        ensures { IfOk result (λ tree. (slot : Place)
            → tree ≡ (spelled_body (unit_writer self.now.index.now self.now.class (cell id.now slot)) body.now).tree) }
    {
        let names = self.names_at(id)?;
        body_tree(self.alloc, &names, body)
    }
}
