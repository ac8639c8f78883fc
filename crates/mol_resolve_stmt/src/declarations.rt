//! Declarations of local variables (JLS 14.4).
ghost use Rattle.std.specs.Prelude.{◌≡◌, ◌++◌, IfOk, OnOk, map};
ghost use Rattle.std.specs.List.{list_any};
ghost use Rattle.std.specs.Str.{bytes_eq};
ghost use Rattle.jav_names.specs.seen.Kept.{view_type};
ghost use Rattle.mol_resolve_readings.specs.locals.Scoped.{locals_of};
ghost use Rattle.mol_resolve_faults.specs.First.{all_noted};
ghost use Rattle.mol_resolve_rules.specs.Locals.{names_in_scope};
ghost use Rattle.mol_resolve_rules.specs.Readers.{param_names};
ghost use Rattle.mol_resolve_rules.specs.ReadStatements.{declaring, each, mapped_on, read_declarator, read_let, read_start, redeclared_faults};
ghost use Rattle.mol_resolve_rules.specs.ReadTypes.{seen_type};
ghost use Rattle.mol_resolve_stmt.specs.GoesOn.{GoesOn};
ghost use Rattle.mol_values_types.specs.declared.iblock.IStmtNode.TheVariants as nodes;

use crate::parts;
use crate::stmt_reader::StmtReader;
use jav_tree::{Declarator, ForStart, Let, TypeName};
use mol_base::{List, OutOfMemory, Text};
use mol_resolve_faults::{FaultKind, FirstFault};
use mol_resolve_readings::{Locals, Names};
use mol_values_types::{IDeclarator, IForStart, ILet, IStmtNode};

impl<N: Names> StmtReader<'_, N> {
    /// Notes a name that a local or parameter has in whose scope it is declared (JLS 6.4).
    fn note_redeclared(&self, locals: &Locals, faults: &mut FirstFault, at: u32, name: &Text)
        ensures { faults.new ≡ all_noted faults.old (redeclared_faults (N.reader self.now.names.now) at name.now (locals_of locals.now)) }
    {
        if self.is_taken(locals, name) {
            faults.note(FaultKind::Redeclared, at);
        }
    }

    /// Whether a local or a parameter in scope has a name. It takes no memory.
    fn is_taken(&self, locals: &Locals, name: &Text) -> bool
        ensures { result ≡ list_any (bytes_eq name.now)
            (names_in_scope (locals_of locals.now) ++ param_names (N.reader self.now.names.now)) }
    {
        locals.find(name).is_some() || self.names.is_param(name)
    }

    /// A local of a type is declared. Its name may be one that is not free.
    pub(crate) fn declare(
        &self,
        locals: &mut Locals,
        faults: &mut FirstFault,
        at: u32,
        ty: &TypeName,
        name: &Text,
    ) -> Result<(), OutOfMemory>
        ensures locals { let reader = N.reader self.now.names.now in
            OnOk result (locals_of locals.new ≡ declaring reader (seen_type reader ty.now) name.now (locals_of locals.old)) }
        ensures faults { OnOk result (faults.new
            ≡ all_noted faults.old (redeclared_faults (N.reader self.now.names.now) at name.now (locals_of locals.old))) }
    {
        self.note_redeclared(locals, faults, at, name);
        let seen = self.names.seen_type(self.alloc, ty)?;
        locals.declare(self.alloc, name, seen)
    }

    /// A declaration of variables as a statement.
    pub(crate) fn declared(
        &self,
        locals: &mut Locals,
        faults: &mut FirstFault,
        at: u32,
        declared: &Let,
    ) -> Result<Option<IStmtNode>, OutOfMemory>
        ensures { IfOk result (λ node. GoesOn
            (mapped_on (λ declared. nodes.Let declared) (read_let (N.reader self.now.names.now) at declared.now (locals_of locals.old)))
            node (locals_of locals.old) (locals_of locals.new) faults.old faults.new) }
    {
        let read = self.declaration(locals, faults, at, declared)?;
        Ok(parts::let_statement(read))
    }

    /// A declaration of variables of one type.
    fn declaration(
        &self,
        locals: &mut Locals,
        faults: &mut FirstFault,
        at: u32,
        declared: &Let,
    ) -> Result<Option<ILet>, OutOfMemory>
        ensures { IfOk result (λ value. GoesOn (read_let (N.reader self.now.names.now) at declared.now (locals_of locals.old))
            value (locals_of locals.old) (locals_of locals.new) faults.old faults.new) }
    {
        let ty = self.names.read_type(self.alloc, faults, at, &declared.ty)?;
        let names = self.declarators(locals, faults, at, declared)?;
        Ok(parts::declaration(declared.is_final, ty, names))
    }

    /// The variables of a declaration, one after the other.
    fn declarators(
        &self,
        locals: &mut Locals,
        faults: &mut FirstFault,
        at: u32,
        declared: &Let,
    ) -> Result<Option<List<IDeclarator>>, OutOfMemory>
        ensures { let reader = N.reader self.now.names.now in
            IfOk result (λ value. GoesOn
            (each (map (read_declarator reader at (seen_type reader declared.now.ty)) declared.now.names) (locals_of locals.old))
            value (locals_of locals.old) (locals_of locals.new) faults.old faults.new) }
    {
        let mut all = Some(List::new(self.alloc));
        for item in declared.names.items() {
            let read = self.declarator(locals, faults, at, &declared.ty, item)?;
            all = parts::with_item(all, read)?;
        }
        Ok(all)
    }

    /// A variable of a declaration. Its first value is read in its own scope.
    fn declarator(
        &self,
        locals: &mut Locals,
        faults: &mut FirstFault,
        at: u32,
        ty: &TypeName,
        declarator: &Declarator,
    ) -> Result<Option<IDeclarator>, OutOfMemory>
        ensures { let reader = N.reader self.now.names.now in
            IfOk result (λ value. GoesOn
            (read_declarator reader at (seen_type reader ty.now) declarator.now (locals_of locals.old))
            value (locals_of locals.old) (locals_of locals.new) faults.old faults.new) }
    {
        self.declare(locals, faults, at, ty, &declarator.name)?;
        let init = self.maybe(locals, faults, &declarator.init)?;
        parts::declarator(self.alloc, &declarator.name, init)
    }

    /// What stands before the first `;` in the header of a `for`.
    pub(crate) fn start(
        &self,
        locals: &mut Locals,
        faults: &mut FirstFault,
        at: u32,
        start: &ForStart,
    ) -> Result<Option<IForStart>, OutOfMemory>
        ensures { IfOk result (λ value. GoesOn (read_start (N.reader self.now.names.now) at start.now (locals_of locals.old))
            value (locals_of locals.old) (locals_of locals.new) faults.old faults.new) }
    {
        match start {
            ForStart::None => Ok(Some(IForStart::None)),
            ForStart::Let(declared) => {
                let read = self.declaration(locals, faults, at, declared)?;
                Ok(parts::start_of_let(read))
            },
            ForStart::Do(items) => {
                let values = self.exprs(locals, faults, items.items())?;
                Ok(parts::start_of_values(values))
            },
        }
    }
}
