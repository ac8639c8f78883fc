//! Calls of methods (JLS 15.12), and the default creation of a class (JLS 15.9).
ghost use Rattle.std.specs.Prelude.{◌≡◌, IfOk, Some, [], map};
ghost use Rattle.mol_spell_rules.specs.SpelledExpressions.{call_form, class_text, created_tree, spelled_expr, static_call_form};
ghost use Rattle.mol_spell_expr.specs.Calls.{call_node, receiver};
ghost use Rattle.mol_spell_expr.specs.Parts.{argument_tree, method_on, own_call, static_call, tree_of};

use crate::expr_writer::ExprWriter;
use crate::importable::Importable;
use crate::listed::Listed;
use crate::names::Names;
use crate::trees::{call, call_on, created};
use crate::type_place::TypePlace;
use jav_tree::Expr;
use mol_base::{Boxed, Id, List, OutOfMemory, number_of};
use mol_values_types::{Argument, IExpr};

impl<N: Names> ExprWriter<'_, N> {
    /// A call of a method of the program on what an expression gives.
    #[cycle(write_expr)]
    pub(crate) fn method_on(
        &self,
        method: &Id,
        on: &IExpr,
        args: &[Argument],
    ) -> Result<Expr, OutOfMemory>
        ensures { let writer = N.writer self.now.names.now in
            let locals = N.locals self.now.names.now in
            IfOk result (λ tree. tree
            ≡ method_on writer locals method.now (spelled_expr writer locals on.now) (map (argument_tree writer locals) args.now)) }
    {
        match on {
            IExpr::This => self.called(Listed::Own(method), args),
            _ => {
                let on = self.operand(on)?;
                let name = self.names.name_of(method);
                call_on(self.alloc, on, name, self.arguments(args))
            },
        }
    }

    /// A call of a method outside on what an expression gives.
    #[cycle(write_expr)]
    pub(crate) fn outside_on(
        &self,
        name: &str,
        on: &IExpr,
        args: &[IExpr],
    ) -> Result<Expr, OutOfMemory>
        ensures { let writer = N.writer self.now.names.now in
            let locals = N.locals self.now.names.now in
            IfOk result (λ tree. tree
            ≡ call_node (Some (tree_of writer locals on.now)) name.now (map (tree_of writer locals) args.now)) }
    {
        let on = self.operand(on)?;
        call_on(self.alloc, on, name, self.exprs(args))
    }

    /// A call of a method of `this`, of arguments that are written.
    pub(crate) fn own_call(&self, method: &Id, args: List<Expr>) -> Result<Expr, OutOfMemory>
        ensures { let writer = N.writer self.now.names.now in
            let locals = N.locals self.now.names.now in
            IfOk result (λ tree. tree ≡ own_call writer locals method.now args) }
    {
        let on = self.before_own(method, args.items().len())?;
        call(self.alloc, on, self.names.name_of(method), args)
    }

    /// A call of a static method, of arguments that are written.
    pub(crate) fn static_call(&self, method: &Id, args: List<Expr>) -> Result<Expr, OutOfMemory>
        ensures { let writer = N.writer self.now.names.now in
            let locals = N.locals self.now.names.now in
            IfOk result (λ tree. tree ≡ static_call writer locals method.now args) }
    {
        let on = self.before_static(method, args.items().len())?;
        call(self.alloc, on, self.names.name_of(method), args)
    }

    /// What stands before the name of a method of `this`, of so many arguments.
    fn before_own(&self, method: &Id, arity: usize) -> Result<Option<Boxed<Expr>>, OutOfMemory>
        ensures { let writer = N.writer self.now.names.now in
            let locals = N.locals self.now.names.now in
            IfOk result (λ on. on ≡ receiver writer locals (call_form writer locals method.now arity)) }
    {
        let arity = number_of(arity)?;
        self.own_receiver(self.names.reads_method(method, arity))
    }

    /// What stands before the name of a static method, of so many arguments.
    fn before_static(&self, method: &Id, arity: usize) -> Result<Option<Boxed<Expr>>, OutOfMemory>
        ensures { let writer = N.writer self.now.names.now in
            let locals = N.locals self.now.names.now in
            IfOk result (λ on. on ≡ receiver writer locals (static_call_form writer locals method.now arity)) }
    {
        let arity = number_of(arity)?;
        let class = self.names.declaring_class(method);
        self.static_receiver(self.names.reads_method(method, arity), class)
    }

    /// A creation by the default constructor of a class.
    pub(crate) fn default_creation(&self, class: &Id) -> Result<Expr, OutOfMemory>
        ensures { let writer = N.writer self.now.names.now in
            let locals = N.locals self.now.names.now in
            IfOk result (λ tree. tree ≡ created_tree writer locals (class_text writer locals class.now) []) }
    {
        let text = self.class_text(TypePlace::Expression, Importable::Class(class))?;
        Ok(created(text, List::new(self.alloc)))
    }
}
