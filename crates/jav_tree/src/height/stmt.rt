ghost use Rattle.std.specs.Prelude.{◌≡◌, ℕ, List, map, min};
ghost use Rattle.mol_base.specs.Token.{Token};
ghost use Rattle.jav_tree.specs.Blocks.{block_of};
ghost use Rattle.jav_tree.specs.Height as spec;
ghost use Rattle.jav_tree.specs.Statements.{ConstructorBlock};
ghost use Rattle.jav_tree.specs.declared.stmt.Stmt.{Stmt};

use crate::height::{above, height_maybe, tallest};
use crate::stmt::{Block, Declarator, Else, ForStart, Let, Stmt, StmtNode};

impl Let {
    fn height(&self) -> u32
        ensures { result ≡ spec.let_height self.now }
    {
        tallest_names(self.names.items())
    }
}

fn tallest_names(names: &[Declarator]) -> u32
    ensures { result ≡ spec.tallest (map spec.declarator_height names.now) }
{
    let mut most = 0;
    for item in names {
        most = height_maybe(&item.init).max(most);
    }
    most
}

impl ForStart {
    fn height(&self) -> u32
        ensures { result ≡ spec.start_height self.now }
    {
        match self {
            ForStart::None => 0,
            ForStart::Let(decl) => decl.height(),
            ForStart::Do(all) => tallest(all.items()),
        }
    }
}

impl Block {
    /// How high the block is: 1 where it holds no statement, else one more than the highest that it
    /// holds. The greatest `u32` stands for all that is higher.
    #[cycle(height_stmt)]
    pub fn height(&self) -> u32
        ensures value { result ≡ spec.block_height self.now }
        // It is the height that the grammar speaks of.
        ensures grammar { (most h : ℕ) (items : List Stmt) (tail : List (List ℕ)) (ts : List Token) → ConstructorBlock most h items tail ts → self.now ≡ block_of items tail → result ≡ min h 0xffff_ffff }
    {
        above(tallest_stmts(self.items.items()))
    }
}

impl Stmt {
    #[cycle(height_stmt)]
    fn height(&self) -> u32
        ensures { result ≡ spec.stmt_height self.now }
    {
        self.node.height()
    }
}

impl Else {
    #[cycle(height_stmt)]
    fn height(&self) -> u32
        ensures { result ≡ spec.else_height self.now }
    {
        match self {
            Else::None => 0,
            Else::Block(block) => block.height(),
            Else::If(stmt) => stmt.get().height(),
        }
    }
}

impl StmtNode {
    #[cycle(height_stmt)]
    fn height(&self) -> u32
        ensures { result ≡ spec.stmt_node_height self.now }
    {
        match self {
            StmtNode::Block(block) => above(block.height()),
            StmtNode::Let(decl) => above(decl.height()),
            StmtNode::Do(e) => above(e.height()),
            StmtNode::If(e, then, other) => {
                above(e.height().max(then.height().max(other.height())))
            }
            StmtNode::While(e, body) => above(e.height().max(body.height())),
            StmtNode::For(start, test, steps, body) => {
                let steps = tallest(steps.items()).max(body.height());
                above(start.height().max(height_maybe(test).max(steps)))
            }
            StmtNode::Each(_, _, _, e, body) => above(e.height().max(body.height())),
            StmtNode::Return(e) => above(height_maybe(e)),
            StmtNode::Throw(e) => above(e.height()),
            StmtNode::Break => 1,
            StmtNode::Continue => 1,
            StmtNode::Empty => 1,
            StmtNode::SuperInit(args) => above(tallest(args.items())),
        }
    }
}

#[cycle(height_stmt)]
fn tallest_stmts(items: &[Stmt]) -> u32
    ensures { result ≡ spec.tallest (map spec.stmt_height items.now) }
{
    let mut most = 0;
    for item in items {
        most = item.height().max(most);
    }
    most
}
