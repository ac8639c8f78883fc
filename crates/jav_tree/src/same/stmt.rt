ghost use Rattle.std.specs.Prelude.{◌≡◌, ◌↔◌, IsTrue, map};
ghost use Rattle.jav_tree.specs.Places as spec;

use crate::same::{same_all, same_maybe, same_text, same_texts, same_type};
use crate::stmt::{Block, Declarator, Else, ForStart, Let, Stmt, StmtNode as Node};

impl Declarator {
    fn same(&self, other: &Declarator) -> bool
        ensures { IsTrue result ↔ spec.unplaced_declarator self.now ≡ spec.unplaced_declarator other.now }
    {
        if !same_text(&self.name, &other.name) {
            return false;
        }
        same_maybe(&self.init, &other.init)
    }
}

/// Whether there are as many variables, each the same as the other at its place.
fn same_names(items: &[Declarator], others: &[Declarator]) -> bool
    ensures { IsTrue result ↔ map spec.unplaced_declarator items.now ≡ map spec.unplaced_declarator others.now }
{
    if items.len() != others.len() {
        return false;
    }
    for i in 0..items.len() {
        if !items[i].same(&others[i]) {
            return false;
        }
    }
    true
}

impl Let {
    fn same(&self, other: &Let) -> bool
        ensures { IsTrue result ↔ spec.unplaced_let self.now ≡ spec.unplaced_let other.now }
    {
        if self.is_final != other.is_final {
            return false;
        }
        if !same_type(&self.ty, &other.ty) {
            return false;
        }
        same_names(self.names.items(), other.names.items())
    }
}

impl ForStart {
    fn same(&self, other: &ForStart) -> bool
        ensures { IsTrue result ↔ spec.unplaced_start self.now ≡ spec.unplaced_start other.now }
    {
        match (self, other) {
            (ForStart::None, ForStart::None) => true,
            (ForStart::Let(decl), ForStart::Let(their)) => decl.same(their),
            (ForStart::Do(all), ForStart::Do(others)) => same_all(all.items(), others.items()),
            _ => false,
        }
    }
}

impl Block {
    /// Whether the blocks are equal but for places.
    #[cycle(same_stmt)]
    pub fn same(&self, other: &Block) -> bool
        ensures { IsTrue result ↔ spec.unplaced_block self.now ≡ spec.unplaced_block other.now }
    {
        if !same_texts(self.tail.items(), other.tail.items()) {
            return false;
        }
        same_stmts(self.items.items(), other.items.items())
    }
}

impl Stmt {
    #[cycle(same_stmt)]
    fn same(&self, other: &Stmt) -> bool
        ensures { IsTrue result ↔ spec.unplaced_stmt self.now ≡ spec.unplaced_stmt other.now }
    {
        if !same_texts(self.notes.items(), other.notes.items()) {
            return false;
        }
        self.node.same(&other.node)
    }
}

impl Else {
    #[cycle(same_stmt)]
    fn same(&self, other: &Else) -> bool
        ensures { IsTrue result ↔ spec.unplaced_else self.now ≡ spec.unplaced_else other.now }
    {
        match (self, other) {
            (Else::None, Else::None) => true,
            (Else::Block(block), Else::Block(their)) => block.same(their),
            (Else::If(stmt), Else::If(their)) => stmt.get().same(their.get()),
            _ => false,
        }
    }
}

impl Node {
    #[cycle(same_stmt)]
    fn same(&self, other: &Node) -> bool
        ensures { IsTrue result ↔ spec.unplaced_stmt_node self.now ≡ spec.unplaced_stmt_node other.now }
    {
        match (self, other) {
            (Node::Block(block), Node::Block(their)) => block.same(their),
            (Node::Let(decl), Node::Let(their)) => decl.same(their),
            (Node::Do(e), Node::Do(their)) => e.same(their),
            (Node::If(e, then, orelse), Node::If(test, their, others)) => {
                e.same(test) && then.same(their) && orelse.same(others)
            }
            (Node::While(e, body), Node::While(test, their)) => e.same(test) && body.same(their),
            (Node::For(start, test, steps, body), Node::For(begin, end, all, their)) => {
                start.same(begin)
                    && same_maybe(test, end)
                    && same_all(steps.items(), all.items())
                    && body.same(their)
            }
            (Node::Each(is_final, ty, name, e, body), Node::Each(fixed, to, word, over, their)) => {
                *is_final == *fixed
                    && same_type(ty, to)
                    && same_text(name, word)
                    && e.same(over)
                    && body.same(their)
            }
            (Node::Return(e), Node::Return(their)) => same_maybe(e, their),
            (Node::Throw(e), Node::Throw(their)) => e.same(their),
            (Node::Break, Node::Break) => true,
            (Node::Continue, Node::Continue) => true,
            (Node::Empty, Node::Empty) => true,
            (Node::SuperInit(args), Node::SuperInit(others)) => {
                same_all(args.items(), others.items())
            }
            _ => false,
        }
    }
}

/// Whether there are as many statements, each the same as the other at its place.
#[cycle(same_stmt)]
fn same_stmts(items: &[Stmt], others: &[Stmt]) -> bool
    ensures { IsTrue result ↔ map spec.unplaced_stmt items.now ≡ map spec.unplaced_stmt others.now }
{
    if items.len() != others.len() {
        return false;
    }
    for i in 0..items.len() {
        if !items[i].same(&others[i]) {
            return false;
        }
    }
    true
}
