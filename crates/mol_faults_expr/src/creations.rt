//! Creations of objects and arrays (JLS 10.6, 15.9, 15.10.1) with what stands in them.
ghost use Rattle.std.specs.Prelude.{◌≡◌, ◌+◌, IfOk, length};
ghost use Rattle.jav_names.specs.OnValues.{mixed_value, outside_value};
ghost use Rattle.jav_names.specs.StaticTypes.{of_type};
ghost use Rattle.mol_faults_expr.specs.Names.{created_value};
ghost use Rattle.mol_faults_expr.specs.Noted.{IsRead};
ghost use Rattle.mol_faults_expr.specs.Places.{AreReadAt};
ghost use Rattle.mol_faults_expr.specs.References.{all_references, creation_references, typed_references};
ghost use Rattle.mol_resolve_rules.specs.ProgramViews.{seen};
ghost use Rattle.mol_resolve_rules.specs.ReadTrees.{arrays};
ghost use Rattle.mol_resolve_rules.specs.StaticTypes.{class_of_only_declaration};

use crate::expr_reader::ExprReader;
use crate::misreads::Misreads;
use mol_base::{Id, OutOfMemory};
use mol_scope::StaticType;
use mol_spell_expr::{Names, TypePlace};
use mol_values_types::{Argument, IExpr, IType};

impl<'a: 'n, 'n, N: Names> ExprReader<'a, 'n, N> {
    /// Reads a creation by a constructor.
    #[cycle(expr_misreads)]
    pub(crate) fn creation(
        &self,
        misreads: &mut Misreads,
        constructor: &'a Id,
        args: &'a [Argument],
    ) -> Result<StaticType<'a>, OutOfMemory>
        requires { AreReadAt (N.writer self.now.names.now) (N.locals self.now.names.now) self.now.place self.now.locals.now }
        ensures { let writer = N.writer self.now.names.now in
            let locals = N.locals self.now.names.now in
            IfOk result (λ kept. IsRead writer misreads.old misreads.new (creation_references writer locals constructor.now args.now)
            (created_value (class_of_only_declaration writer.program constructor.now)) kept) }
    {
        let Ok(ty) = self.constructor(misreads, constructor, args.len()) else {
            return Err(OutOfMemory);
        };
        self.arguments(misreads, args)?;
        Ok(ty)
    }

    /// Reads a creation of an object of a type outside.
    #[cycle(expr_misreads)]
    pub(crate) fn outside_creation(
        &self,
        misreads: &mut Misreads,
        ty: &'a IType,
        args: &'a [IExpr],
    ) -> Result<StaticType<'a>, OutOfMemory>
        requires { AreReadAt (N.writer self.now.names.now) (N.locals self.now.names.now) self.now.place self.now.locals.now }
        ensures { let writer = N.writer self.now.names.now in
            let locals = N.locals self.now.names.now in
            IfOk result (λ kept. IsRead writer misreads.old misreads.new (typed_references writer locals ty.now args.now)
            outside_value kept) }
    {
        self.note_type(misreads, TypePlace::Expression, ty)?;
        self.all(misreads, args)?;
        Ok(StaticType::Outside)
    }

    /// Reads a new array of a type with its sizes, and so many pairs of brackets after them.
    #[cycle(expr_misreads)]
    pub(crate) fn new_array(
        &self,
        misreads: &mut Misreads,
        ty: &'a IType,
        sizes: &'a [IExpr],
        pairs: u32,
    ) -> Result<StaticType<'a>, OutOfMemory>
        requires { AreReadAt (N.writer self.now.names.now) (N.locals self.now.names.now) self.now.place self.now.locals.now }
        ensures { let writer = N.writer self.now.names.now in
            let locals = N.locals self.now.names.now in
            IfOk result (λ kept. IsRead writer misreads.old misreads.new (typed_references writer locals ty.now sizes.now)
            (of_type (arrays (length sizes.now + pairs) (seen ty.now))) kept) }
    {
        self.note_type(misreads, TypePlace::Expression, ty)?;
        self.all(misreads, sizes)?;
        Ok(StaticType::of_arrays(ty, sizes.len() + pairs as usize))
    }

    /// Reads an array of a type with its items.
    #[cycle(expr_misreads)]
    pub(crate) fn array_of(
        &self,
        misreads: &mut Misreads,
        ty: &'a IType,
        items: &'a [IExpr],
    ) -> Result<StaticType<'a>, OutOfMemory>
        requires { AreReadAt (N.writer self.now.names.now) (N.locals self.now.names.now) self.now.place self.now.locals.now }
        ensures { let writer = N.writer self.now.names.now in
            let locals = N.locals self.now.names.now in
            IfOk result (λ kept. IsRead writer misreads.old misreads.new (typed_references writer locals ty.now items.now)
            (of_type (seen ty.now)) kept) }
    {
        self.note_type(misreads, TypePlace::Expression, ty)?;
        self.all(misreads, items)?;
        Ok(StaticType::of_type(ty))
    }

    /// Reads items in braces.
    #[cycle(expr_misreads)]
    pub(crate) fn braces(
        &self,
        misreads: &mut Misreads,
        items: &'a [IExpr],
    ) -> Result<StaticType<'a>, OutOfMemory>
        requires { AreReadAt (N.writer self.now.names.now) (N.locals self.now.names.now) self.now.place self.now.locals.now }
        ensures { let writer = N.writer self.now.names.now in
            let locals = N.locals self.now.names.now in
            IfOk result (λ kept. IsRead writer misreads.old misreads.new (all_references writer locals items.now) mixed_value kept) }
    {
        self.all(misreads, items)?;
        Ok(StaticType::Mixed)
    }
}
