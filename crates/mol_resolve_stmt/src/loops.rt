//! Loops (JLS 14.12, 14.14): a header and a body.
ghost use Rattle.std.specs.Prelude.{◌≡◌, IfOk, option_map};
ghost use Rattle.std.specs.Option.{option_zip};
ghost use Rattle.mol_resolve_readings.specs.locals.Scoped.{locals_of};
ghost use Rattle.mol_resolve_stmt.specs.GoesOn.{GoesOn};
ghost use Rattle.mol_resolve_stmt.specs.Loops.{header_of, loop_node, loop_of};

use crate::headers::Header;
use crate::stmt_reader::StmtReader;
use jav_tree::{Block, Expr, ForStart, TypeName};
use mol_base::{Boxed, OutOfMemory, Text};
use mol_resolve_faults::FirstFault;
use mol_resolve_readings::{Locals, Names};
use mol_values_types::{IBlock, IStmtNode};

/// A loop, but for its body.
#[derive(Clone, Copy)]
pub(crate) enum Loop<'a> {
    /// `while`, by its test.
    While(&'a Expr),
    /// `for`, by what stands before its first `;`, its test and its steps.
    For(&'a ForStart, &'a Option<Expr>, &'a [Expr]),
    /// `for` over the items of a value: whether the local is final, its type and its name, and the value.
    Each(bool, &'a TypeName, &'a Text, &'a Expr),
}

impl<N: Names> StmtReader<'_, N> {
    /// A loop. What its header declares is in scope up to its end.
    #[cycle(read_stmt)]
    pub(crate) fn looping(
        &self,
        locals: &mut Locals,
        faults: &mut FirstFault,
        at: u32,
        kind: Loop<'_>,
        block: &Block,
    ) -> Result<Option<IStmtNode>, OutOfMemory>
        ensures { IfOk result (λ node. GoesOn
            (loop_of (N.reader self.now.names.now) kind.entry at block.now (locals_of locals.old))
            node (locals_of locals.old) (locals_of locals.new) faults.old faults.new) }
    {
        let mark = locals.mark();
        let header = self.header(locals, faults, at, kind)?;
        let body = self.block(locals, faults, block)?;
        locals.end_block(mark);
        Ok(whole_loop(header, body))
    }

    /// The header of a loop. What it declares is in scope after it.
    fn header(
        &self,
        locals: &mut Locals,
        faults: &mut FirstFault,
        at: u32,
        kind: Loop<'_>,
    ) -> Result<Option<Boxed<Header>>, OutOfMemory>
        ensures { IfOk result (λ header. GoesOn (header_of (N.reader self.now.names.now) kind.entry at (locals_of locals.old))
            header (locals_of locals.old) (locals_of locals.new) faults.old faults.new) }
    {
        match kind {
            Loop::While(test) => self.while_header(locals, faults, test),
            Loop::For(start, test, steps) => {
                self.for_header(locals, faults, at, start, test, steps)
            },
            Loop::Each(is_final, ty, name, e) => {
                self.each_header(locals, faults, at, is_final, ty, name, e)
            },
        }
    }
}

/// A loop of its header and its body, where both have a value.
fn whole_loop(header: Option<Boxed<Header>>, body: Option<IBlock>) -> Option<IStmtNode>
    ensures { result ≡ option_map loop_node (option_zip header body) }
{
    let Some(header) = header else {
        return None;
    };
    match body {
        Some(body) => Some(header.into_inner().with_body(body)),
        None => None,
    }
}
