//! Blocks and statements.
ghost use Rattle.std.specs.Prelude.{◌≡◌, ◌++◌, OnOk, codes};
ghost use Rattle.jav_tree.specs.ExpressionText.{expr_text};
ghost use Rattle.jav_tree.specs.StatementText.{block_text, stmt_text, stmt_node_text};
ghost use Rattle.jav_print.specs.StatementParts.{else_text, stmts_text};

mod loops;
mod parts;

use crate::page::Page;
use jav_tree::{Block, Else, Expr, Stmt, StmtNode};
use mol_base::OutOfMemory;

impl Page {
    /// Appends a block whose first brace stands in a line of this depth.
    #[cycle(write_stmt)]
    pub fn block(&mut self, depth: usize, block: &Block) -> Result<(), OutOfMemory>
        ensures { OnOk result (self.new ≡ self.old ++ block_text block.now depth) }
    {
        let Some(deeper) = depth.checked_add(1) else {
            return Err(OutOfMemory);
        };
        self.put("{\n")?;
        self.stmts(deeper, block.items.items())?;
        self.comments(deeper, block.tail.items())?;
        self.indent(depth)?;
        self.put("}")
    }

    #[cycle(write_stmt)]
    fn stmts(&mut self, depth: usize, stmts: &[Stmt]) -> Result<(), OutOfMemory>
        ensures { OnOk result (self.new ≡ self.old ++ stmts_text stmts.now depth) }
    {
        for stmt in stmts {
            self.stmt(depth, stmt)?;
        }
        Ok(())
    }

    /// Appends the lines of a statement, the comments before it first.
    #[cycle(write_stmt)]
    fn stmt(&mut self, depth: usize, stmt: &Stmt) -> Result<(), OutOfMemory>
        ensures { OnOk result (self.new ≡ self.old ++ (stmt_text stmt.now).lines depth) }
    {
        self.comments(depth, stmt.notes.items())?;
        self.indent(depth)?;
        self.stmt_node(depth, &stmt.node)?;
        self.put("\n")
    }

    #[cycle(write_stmt)]
    fn stmt_node(&mut self, depth: usize, node: &StmtNode) -> Result<(), OutOfMemory>
        ensures { OnOk result (self.new ≡ self.old ++ stmt_node_text node.now depth) }
    {
        match node {
            StmtNode::Block(block) => self.block(depth, block),
            StmtNode::Let(decl) => {
                self.local_variables(decl)?;
                self.put(";")
            }
            StmtNode::Do(e) => {
                self.expr(e)?;
                self.put(";")
            }
            StmtNode::If(test, then, other) => {
                self.tested("if", test)?;
                self.block(depth, then)?;
                self.otherwise(depth, other)
            }
            StmtNode::While(test, body) => {
                self.tested("while", test)?;
                self.block(depth, body)
            }
            StmtNode::For(start, test, steps, body) => {
                self.for_header(start, test, steps.items())?;
                self.block(depth, body)
            }
            StmtNode::Each(is_final, ty, name, e, body) => {
                self.each_header(*is_final, ty, name, e)?;
                self.block(depth, body)
            }
            StmtNode::Return(value) => self.return_stmt(value),
            StmtNode::Throw(e) => self.throw_stmt(e),
            StmtNode::Break => self.put("break;"),
            StmtNode::Continue => self.put("continue;"),
            StmtNode::Empty => self.put(";"),
            StmtNode::SuperInit(args) => self.super_init(args.items()),
        }
    }

    #[cycle(write_stmt)]
    fn otherwise(&mut self, depth: usize, other: &Else) -> Result<(), OutOfMemory>
        ensures { OnOk result (self.new ≡ self.old ++ else_text other.now depth) }
    {
        match other {
            Else::None => Ok(()),
            Else::Block(block) => {
                self.put(" else ")?;
                self.block(depth, block)
            }
            Else::If(stmt) => {
                self.put(" else ")?;
                self.stmt_node(depth, &stmt.get().node)
            }
        }
    }

    /// Appends `if`, or `while`, and what it tests.
    fn tested(&mut self, word: &str, test: &Expr) -> Result<(), OutOfMemory>
        ensures { OnOk result (self.new ≡ self.old ++ (word.now ++ codes " (" ++ expr_text test.now ++ codes ") ")) }
    {
        self.put(word)?;
        self.put(" (")?;
        self.expr(test)?;
        self.put(") ")
    }
}
