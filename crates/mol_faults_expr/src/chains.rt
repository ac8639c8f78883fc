//! Fields of values, and the names that follow a value after dots (JLS 6.5.2, 15.11). What the first of several names reads as may depend
//! on those that follow it; they are handed down.
ghost use Rattle.std.specs.Prelude.{◌≡◌, [], IfOk, None, Some};
ghost use Rattle.jav_names.specs.StaticTypes.{outside_field};
ghost use Rattle.mol_faults_expr.specs.Noted.{IsRead};
ghost use Rattle.mol_faults_expr.specs.Places.{AreReadAt};
ghost use Rattle.mol_faults_expr.specs.References.{field_references, outside_field_references, references_as, static_type, value_field_references};
ghost use Rattle.mol_resolve_rules.specs.StaticTypes.{field_value};

use crate::expr_reader::ExprReader;
use crate::followers::Followers;
use crate::misreads::Misreads;
use crate::values::field_value;
use mol_base::{Id, OutOfMemory, Text};
use mol_scope::StaticType;
use mol_spell_expr::Names;
use mol_values_types::IExpr;

impl<'a: 'n, 'n, N: Names> ExprReader<'a, 'n, N> {
    /// Reads an expression before a dot and names that follow it.
    #[cycle(expr_misreads)]
    fn before(
        &self,
        misreads: &mut Misreads,
        e: &'a IExpr,
        follow: &mut Followers<'n>,
    ) -> Result<StaticType<'a>, OutOfMemory>
        requires { AreReadAt (N.writer self.now.names.now) (N.locals self.now.names.now) self.now.place self.now.locals.now }
        ensures { let writer = N.writer self.now.names.now in
            let locals = N.locals self.now.names.now in
            IfOk result (λ kept. IsRead writer misreads.old misreads.new (references_as writer locals e.now (Some follow.old))
            (static_type writer locals e.now) kept) }
    {
        match e {
            IExpr::Field(field, on) => self.field(misreads, field, on.get(), follow),
            IExpr::OutsideField(name, on) => self.outside_field(misreads, name, on.get(), follow),
            IExpr::Local(number) => self.local(misreads, *number, Some(&*follow)),
            IExpr::Param(id) => self.param(misreads, id, Some(&*follow)),
            IExpr::Own(field) => self.own_field(misreads, field, Some(&*follow)),
            IExpr::StaticField(field) => self.static_field(misreads, field, Some(&*follow)),
            IExpr::OutsideName(name) => self.outside_name(misreads, name, Some(&*follow)),
            IExpr::OutsideClass(full) => self.outside_class_before(misreads, full, follow),
            _ => self.expr(misreads, e),
        }
    }

    /// Reads what a method is called on.
    #[cycle(expr_misreads)]
    pub(crate) fn receiver(
        &self,
        misreads: &mut Misreads,
        on: &'a IExpr,
    ) -> Result<StaticType<'a>, OutOfMemory>
        requires { AreReadAt (N.writer self.now.names.now) (N.locals self.now.names.now) self.now.place self.now.locals.now }
        ensures { let writer = N.writer self.now.names.now in
            let locals = N.locals self.now.names.now in
            IfOk result (λ kept. IsRead writer misreads.old misreads.new (references_as writer locals on.now (Some []))
            (static_type writer locals on.now) kept) }
    {
        let mut follow = Followers::new(self.alloc);
        self.before(misreads, on, &mut follow)
    }

    /// Reads a field of what an expression gives, where nothing follows it.
    #[cycle(expr_misreads)]
    pub(crate) fn field_alone(
        &self,
        misreads: &mut Misreads,
        field: &'a Id,
        on: &'a IExpr,
    ) -> Result<StaticType<'a>, OutOfMemory>
        requires { AreReadAt (N.writer self.now.names.now) (N.locals self.now.names.now) self.now.place self.now.locals.now }
        ensures { let writer = N.writer self.now.names.now in
            let locals = N.locals self.now.names.now in
            IfOk result (λ kept. IsRead writer misreads.old misreads.new (field_references writer locals field.now on.now None)
            (field_value writer.program field.now) kept) }
    {
        match on {
            IExpr::This => self.own_field(misreads, field, None),
            _ => {
                let mut follow = Followers::new(self.alloc);
                self.value_field(misreads, field, on, &mut follow)
            },
        }
    }

    /// Reads a field of what an expression gives, before a dot and names that follow it.
    #[cycle(expr_misreads)]
    fn field(
        &self,
        misreads: &mut Misreads,
        field: &'a Id,
        on: &'a IExpr,
        follow: &mut Followers<'n>,
    ) -> Result<StaticType<'a>, OutOfMemory>
        requires { AreReadAt (N.writer self.now.names.now) (N.locals self.now.names.now) self.now.place self.now.locals.now }
        ensures { let writer = N.writer self.now.names.now in
            let locals = N.locals self.now.names.now in
            IfOk result (λ kept. IsRead writer misreads.old misreads.new
            (field_references writer locals field.now on.now (Some follow.old))
            (field_value writer.program field.now) kept) }
    {
        match on {
            IExpr::This => self.own_field(misreads, field, Some(&*follow)),
            _ => self.value_field(misreads, field, on, follow),
        }
    }

    /// Reads a field of a value, before a dot and names that follow it.
    #[cycle(expr_misreads)]
    fn value_field(
        &self,
        misreads: &mut Misreads,
        field: &'a Id,
        on: &'a IExpr,
        follow: &mut Followers<'n>,
    ) -> Result<StaticType<'a>, OutOfMemory>
        requires { AreReadAt (N.writer self.now.names.now) (N.locals self.now.names.now) self.now.place self.now.locals.now }
        ensures { let writer = N.writer self.now.names.now in
            let locals = N.locals self.now.names.now in
            IfOk result (λ kept. IsRead writer misreads.old misreads.new
            (value_field_references writer locals field.now on.now (Some follow.old))
            (field_value writer.program field.now) kept) }
    {
        follow.push_front(self.names.name_of(field))?;
        let Ok(ty) = self.before(misreads, on, follow) else {
            return Err(OutOfMemory);
        };
        self.note_field_on(misreads, &ty, field)?;
        Ok(field_value(self.table(), field))
    }

    /// Reads a field outside of what an expression gives, where nothing follows it.
    #[cycle(expr_misreads)]
    pub(crate) fn outside_field_alone(
        &self,
        misreads: &mut Misreads,
        name: &'a Text,
        on: &'a IExpr,
    ) -> Result<StaticType<'a>, OutOfMemory>
        requires { AreReadAt (N.writer self.now.names.now) (N.locals self.now.names.now) self.now.place self.now.locals.now }
        ensures { let writer = N.writer self.now.names.now in
            let locals = N.locals self.now.names.now in
            IfOk result (λ kept. IsRead writer misreads.old misreads.new (outside_field_references writer locals name.now on.now None)
            (outside_field (static_type writer locals on.now) name.now) kept) }
    {
        let mut follow = Followers::new(self.alloc);
        self.outside_field(misreads, name, on, &mut follow)
    }

    /// Reads a field outside of what an expression gives, before a dot and names that follow it.
    #[cycle(expr_misreads)]
    fn outside_field(
        &self,
        misreads: &mut Misreads,
        name: &'a Text,
        on: &'a IExpr,
        follow: &mut Followers<'n>,
    ) -> Result<StaticType<'a>, OutOfMemory>
        requires { AreReadAt (N.writer self.now.names.now) (N.locals self.now.names.now) self.now.place self.now.locals.now }
        ensures { let writer = N.writer self.now.names.now in
            let locals = N.locals self.now.names.now in
            IfOk result (λ kept. IsRead writer misreads.old misreads.new
            (outside_field_references writer locals name.now on.now (Some follow.old))
            (outside_field (static_type writer locals on.now) name.now) kept) }
    {
        follow.push_front(name.as_str())?;
        let Ok(ty) = self.before(misreads, on, follow) else {
            return Err(OutOfMemory);
        };
        self.note_outside_field(misreads, &ty, name)?;
        Ok(ty.outside_field(name))
    }
}
