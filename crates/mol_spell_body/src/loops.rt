//! Loops (JLS 14.12, 14.14): a header and a body.
ghost use Rattle.std.specs.Prelude.{◌≡◌, IfOk};
ghost use Rattle.mol_spell_body.specs.GoesOn.{GoesOn};
ghost use Rattle.mol_spell_places.specs.body_locals.Kept.{locals_of};
ghost use Rattle.mol_spell_body.specs.Loops.{header_of, loop_of};

use crate::body_writer::BodyWriter;
use crate::headers::{Header, looped};
use jav_tree::StmtNode;
use mol_base::{Boxed, OutOfMemory, Text};
use mol_spell_places::{BodyLocals, Places};
use mol_values_types::{IBlock, IExpr, IForStart, IType};

/// A loop, but for its body.
#[derive(Clone, Copy)]
pub(crate) enum Loop<'a> {
    /// `while`, by its test.
    While(&'a IExpr),
    /// `for`, by what stands before its first `;`, its test and its steps.
    For(&'a IForStart, &'a Option<IExpr>, &'a [IExpr]),
    /// `for` over the items of a value: whether the local is final, its type and its name, and the value.
    Each(bool, &'a IType, &'a Text, &'a IExpr),
}

impl<P: Places> BodyWriter<'_, P> {
    /// A loop. What its header declares is in scope up to its end.
    #[cycle(write_stmt)]
    pub(crate) fn looping<'a>(
        &self,
        locals: &mut BodyLocals<'a>,
        kind: Loop<'a>,
        body: &'a IBlock,
    ) -> Result<StmtNode, OutOfMemory>
        ensures { IfOk result (λ tree. GoesOn (loop_of (P.writer self.now.places.now) kind.entry body.now) tree
            (locals_of locals.old) (locals_of locals.new)) }
    {
        let mark = locals.mark();
        let header = self.header(locals, kind)?;
        let body = self.block(locals, body);
        locals.end_block(mark);
        looped(header, body)
    }

    /// The header of a loop. What it declares is in scope after it.
    fn header<'a>(
        &self,
        locals: &mut BodyLocals<'a>,
        kind: Loop<'a>,
    ) -> Result<Boxed<Header>, OutOfMemory>
        ensures { IfOk result (λ header. GoesOn (header_of (P.writer self.now.places.now) kind.entry) header
            (locals_of locals.old) (locals_of locals.new)) }
    {
        match kind {
            Loop::While(test) => self.while_header(locals, test),
            Loop::For(start, test, steps) => self.for_header(locals, start, test, steps),
            Loop::Each(is_final, ty, name, e) => self.each_header(locals, is_final, ty, name, e),
        }
    }
}
