//! The headers of loops.
ghost use Rattle.std.specs.Prelude.{◌≡◌, IfOk, IsOkAnd};
ghost use Rattle.mol_spell_body.specs.GoesOn.{GoesOn};
ghost use Rattle.mol_spell_places.specs.body_locals.Kept.{locals_of};
ghost use Rattle.mol_spell_body.specs.Loops.{each_header, for_header, loop_node, while_header};
ghost use Rattle.mol_spell_rules.specs.SpelledStatements.{spelled_start};

use crate::body_writer::BodyWriter;
use jav_tree::{Block, Expr, ForStart, StmtNode, TypeName};
use mol_base::{Boxed, List, OutOfMemory, Text};
use mol_spell_places::{BodyLocals, Places};
use mol_values_types::{IExpr, IForStart, IType};
use std::alloc::Global;

/// The header of a loop, as it is written.
#[derive(Drop)]
pub(crate) enum Header {
    While(Expr),
    /// What stands before the first `;`, the test and the steps.
    For(ForStart, Option<Expr>, List<Expr>),
    /// Whether the local is final, its type and its name, and the value.
    Each(bool, TypeName, Text, Expr),
}

impl Header {
    /// The loop with its body. It takes no memory.
    fn with_body(self, body: Block) -> StmtNode
        ensures { result ≡ loop_node (self, body) }
    {
        match self {
            Header::While(test) => StmtNode::While(test, body),
            Header::For(start, test, steps) => StmtNode::For(start, test, steps, body),
            Header::Each(is_final, ty, name, e) => StmtNode::Each(is_final, ty, name, e, body),
        }
    }
}

/// The loop of a header and of the body that was written after it. The header is in a box, so that letting go of it is one step.
pub(crate) fn looped(
    header: Boxed<Header>,
    body: Result<Block, OutOfMemory>,
) -> Result<StmtNode, OutOfMemory>
    ensures { IfOk result (λ tree. IsOkAnd body (λ body. tree ≡ loop_node (header, body))) }
{
    let body = body?;
    Ok(header.into_inner().with_body(body))
}

/// The header of a `for`, the steps of which were written last.
fn for_of(
    alloc: Global,
    start: Boxed<ForStart>,
    test: Option<Expr>,
    steps: Result<List<Expr>, OutOfMemory>,
) -> Result<Boxed<Header>, OutOfMemory>
    ensures { IfOk result (λ header. IsOkAnd steps (λ steps. header ≡ Header.For start test steps)) }
{
    let steps = steps?;
    Boxed::new(alloc, Header::For(start.into_inner(), test, steps))
}

/// The header of a `for` over items, the value of which was written last.
fn each_of(
    alloc: Global,
    is_final: bool,
    ty: TypeName,
    name: Text,
    e: Result<Expr, OutOfMemory>,
) -> Result<Boxed<Header>, OutOfMemory>
    ensures { IfOk result (λ header. IsOkAnd e (λ e. header ≡ Header.Each is_final ty name e)) }
{
    let e = e?;
    Boxed::new(alloc, Header::Each(is_final, ty, name, e))
}

impl<P: Places> BodyWriter<'_, P> {
    /// The header of a `while`.
    pub(crate) fn while_header(
        &self,
        locals: &BodyLocals<'_>,
        test: &IExpr,
    ) -> Result<Boxed<Header>, OutOfMemory>
        ensures { IfOk result (λ header. header ≡ (while_header (P.writer self.now.places.now) test.now (locals_of locals.now)).tree) }
    {
        let test = self.expr(locals, test)?;
        Boxed::new(self.alloc, Header::While(test))
    }

    /// The header of a `for` with a start, a test and steps.
    pub(crate) fn for_header<'a>(
        &self,
        locals: &mut BodyLocals<'a>,
        start: &'a IForStart,
        test: &Option<IExpr>,
        steps: &[IExpr],
    ) -> Result<Boxed<Header>, OutOfMemory>
        ensures { IfOk result (λ header. GoesOn (for_header (P.writer self.now.places.now) start.now test.now steps.now) header
            (locals_of locals.old) (locals_of locals.new)) }
    {
        let start = self.boxed_start(locals, start)?;
        let test = self.maybe_expr(locals, test)?;
        for_of(self.alloc, start, test, self.exprs(locals, steps))
    }

    /// What stands before the first `;` in the header of a `for`, in a box.
    fn boxed_start<'a>(
        &self,
        locals: &mut BodyLocals<'a>,
        start: &'a IForStart,
    ) -> Result<Boxed<ForStart>, OutOfMemory>
        ensures { IfOk result (λ tree. GoesOn (spelled_start (P.writer self.now.places.now) start.now) tree
            (locals_of locals.old) (locals_of locals.new)) }
    {
        let start = self.for_start(locals, start)?;
        Boxed::new(self.alloc, start)
    }

    /// The header of a `for` over items. Its local is in scope after it.
    pub(crate) fn each_header<'a>(
        &self,
        locals: &mut BodyLocals<'a>,
        is_final: bool,
        ty: &'a IType,
        name: &'a Text,
        e: &IExpr,
    ) -> Result<Boxed<Header>, OutOfMemory>
        ensures { IfOk result (λ header. GoesOn (each_header (P.writer self.now.places.now) is_final ty.now name.now e.now) header
            (locals_of locals.old) (locals_of locals.new)) }
    {
        let header = self.each_parts(locals, is_final, ty, name, e)?;
        locals.declare(name, ty)?;
        Ok(header)
    }

    /// The header of a `for` over items, whose local is not in scope yet.
    fn each_parts(
        &self,
        locals: &BodyLocals<'_>,
        is_final: bool,
        ty: &IType,
        name: &Text,
        e: &IExpr,
    ) -> Result<Boxed<Header>, OutOfMemory>
        ensures { IfOk result (λ header. header
            ≡ (each_header (P.writer self.now.places.now) is_final ty.now name.now e.now (locals_of locals.now)).tree) }
    {
        let ty = self.type_name(locals, ty)?;
        let name = name.copy(self.alloc)?;
        each_of(self.alloc, is_final, ty, name, self.expr(locals, e))
    }
}
