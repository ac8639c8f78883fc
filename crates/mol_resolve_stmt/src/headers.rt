//! The headers of loops.
ghost use Rattle.std.specs.Prelude.{◌≡◌, IfOk, option_map};
ghost use Rattle.std.specs.Option.{option_zip};
ghost use Rattle.mol_resolve_readings.specs.locals.Scoped.{locals_of};
ghost use Rattle.mol_resolve_readings.specs.meant.Kept.{view_meant, view_part, view_read, view_reading};
ghost use Rattle.mol_resolve_readings.specs.reads.Reads.{Reads};
ghost use Rattle.mol_resolve_rules.specs.ReadStatements.{read_header};
ghost use Rattle.mol_resolve_stmt.specs.GoesOn.{GoesOn};
ghost use Rattle.mol_resolve_stmt.specs.Loops.{each_header, each_part, for_header, for_part, loop_node, while_header, while_part};
ghost use Rattle.mol_resolve_stmt.specs.Made.{tree_part};

use crate::stmt_reader::StmtReader;
use jav_tree::{Expr, ForStart, TypeName};
use mol_base::{Boxed, List, OutOfMemory, Text};
use mol_resolve_faults::FirstFault;
use mol_resolve_readings::{Locals, Meant, Names, ReadType};
use mol_values_types::{IBlock, IExpr, IForStart, IStmtNode, IType};
use std::alloc::Global;

/// The header of a loop, as it is read. It is handed on in a box: a call that may have to let go of a bare one is dear to prove.
#[derive(Drop)]
pub(crate) enum Header {
    /// `while`: the test.
    While(IExpr),
    /// `for`: what stands before its first `;`, its test if it has one, and its steps.
    For(IForStart, Option<IExpr>, List<IExpr>),
    /// `for` over the items of a value: whether the local is final, its type and its name, and the value.
    Each(bool, IType, Text, IExpr),
}

impl Header {
    /// The loop with its body. It takes no memory.
    pub(crate) fn with_body(self, body: IBlock) -> IStmtNode
        ensures { result ≡ loop_node (self, body) }
    {
        match self {
            Header::While(test) => IStmtNode::While(test, body),
            Header::For(start, test, steps) => IStmtNode::For(start, test, steps, body),
            Header::Each(is_final, ty, name, e) => IStmtNode::Each(is_final, ty, name, e, body),
        }
    }
}

impl<N: Names> StmtReader<'_, N> {
    /// The header of a `while`.
    pub(crate) fn while_header(
        &self,
        locals: &Locals,
        faults: &mut FirstFault,
        test: &Expr,
    ) -> Result<Option<Boxed<Header>>, OutOfMemory>
        ensures { IfOk result (λ header. Reads (while_header (N.reader self.now.names.now) (locals_of locals.now) test.now)
            header faults.old faults.new) }
    {
        let test = self.expr(locals, faults, test)?;
        while_of(self.alloc, test)
    }

    /// The header of a `for`.
    pub(crate) fn for_header(
        &self,
        locals: &mut Locals,
        faults: &mut FirstFault,
        at: u32,
        start: &ForStart,
        test: &Option<Expr>,
        steps: &[Expr],
    ) -> Result<Option<Boxed<Header>>, OutOfMemory>
        ensures { IfOk result (λ header. GoesOn
            (for_header (N.reader self.now.names.now) at start.now test.now steps.now (locals_of locals.old))
            header (locals_of locals.old) (locals_of locals.new) faults.old faults.new) }
    {
        let start = self.start(locals, faults, at, start)?;
        let rest = self.test_and_steps(locals, faults, test, steps)?;
        for_of(self.alloc, start, rest)
    }

    /// The test and the steps of a `for`.
    fn test_and_steps(
        &self,
        locals: &Locals,
        faults: &mut FirstFault,
        test: &Option<Expr>,
        steps: &[Expr],
    ) -> Result<Option<(Option<IExpr>, List<IExpr>)>, OutOfMemory>
        ensures { IfOk result (λ rest. Reads (read_header (N.reader self.now.names.now) (locals_of locals.now) test.now steps.now)
            rest faults.old faults.new) }
    {
        let test = self.maybe(locals, faults, test)?;
        let steps = self.exprs(locals, faults, steps)?;
        Ok(both_of(test, steps))
    }

    /// The header of a `for` over the items of a value, and the declaration of its local, which is in scope in the body alone.
    pub(crate) fn each_header(
        &self,
        locals: &mut Locals,
        faults: &mut FirstFault,
        at: u32,
        is_final: bool,
        ty: &TypeName,
        name: &Text,
        e: &Expr,
    ) -> Result<Option<Boxed<Header>>, OutOfMemory>
        ensures { IfOk result (λ header. GoesOn
            (each_header (N.reader self.now.names.now) at is_final ty.now name.now e.now (locals_of locals.old))
            header (locals_of locals.old) (locals_of locals.new) faults.old faults.new) }
    {
        let read = self.names.read_type(self.alloc, faults, at, ty)?;
        let e = self.expr(locals, faults, e)?;
        self.declare(locals, faults, at, ty, name)?;
        each_of(self.alloc, is_final, read, name, e)
    }
}

/// The header of a `while` of its test.
fn while_of(alloc: Global, test: Option<Meant>) -> Result<Option<Boxed<Header>>, OutOfMemory>
    ensures { IfOk result (λ header. header ≡ option_map while_part (tree_part (view_part test))) }
{
    match test {
        Some(test) => Ok(Some(Boxed::new(alloc, Header::While(test.into_tree()))?)),
        None => Ok(None),
    }
}

/// A test, if there is one, and steps, where both have a value.
fn both_of(
    test: Option<Option<IExpr>>,
    steps: Option<List<IExpr>>,
) -> Option<(Option<IExpr>, List<IExpr>)>
    ensures { result ≡ option_zip test steps }
{
    let Some(test) = test else {
        return None;
    };
    match steps {
        Some(steps) => Some((test, steps)),
        None => None,
    }
}

/// The header of a `for` of its parts.
fn for_of(
    alloc: Global,
    start: Option<IForStart>,
    rest: Option<(Option<IExpr>, List<IExpr>)>,
) -> Result<Option<Boxed<Header>>, OutOfMemory>
    ensures { IfOk result (λ header. header ≡ option_map for_part (option_zip start rest)) }
{
    let Some(start) = start else {
        return Ok(None);
    };
    let Some((test, steps)) = rest else {
        return Ok(None);
    };
    let header = Header::For(start, test, steps);
    Ok(Some(Boxed::new(alloc, header)?))
}

/// The header of a `for` over the items of a value, of its parts.
fn each_of(
    alloc: Global,
    is_final: bool,
    ty: Option<ReadType>,
    name: &Text,
    e: Option<Meant>,
) -> Result<Option<Boxed<Header>>, OutOfMemory>
    ensures { IfOk result (λ header. header
        ≡ option_map (each_part is_final name.now) (option_zip (view_reading ty) (view_part e))) }
{
    let Some(ty) = ty else {
        return Ok(None);
    };
    let Some(e) = e else {
        return Ok(None);
    };
    Ok(Some(named_each(alloc, is_final, ty, name, e)?))
}

/// The header of a `for` over the items of a value, with a copy of the name.
fn named_each(
    alloc: Global,
    is_final: bool,
    ty: ReadType,
    name: &Text,
    e: Meant,
) -> Result<Boxed<Header>, OutOfMemory>
    ensures { IfOk result (λ header. header ≡ each_part is_final name.now (view_read ty, view_meant e)) }
{
    let name = name.copy(alloc)?;
    let header = Header::Each(is_final, ty.into_tree(), name, e.into_tree());
    Boxed::new(alloc, header)
}
