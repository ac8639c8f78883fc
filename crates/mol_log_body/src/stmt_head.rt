//! The words with which a statement or a part of one begins.
ghost use Rattle.std.specs.Prelude.{◌≡◌};
ghost use Rattle.mol_log_body.specs.StatementHeads as spec;

/// The form of a statement.
#[derive(Clone, Copy)]
pub enum NodeHead {
    Block,
    Let,
    If,
    Loop(LoopHead),
    Simple(SimpleHead),
    Super(SuperHead),
}

#[derive(Clone, Copy)]
pub enum LoopHead {
    While,
    For,
    Each,
}

/// Statements that hold no other.
#[derive(Clone, Copy)]
pub enum SimpleHead {
    Do,
    Return,
    Throw,
    Break,
    Continue,
    Empty,
}

/// Calls of a constructor of the superclass.
#[derive(Clone, Copy)]
pub enum SuperHead {
    Constructor,
    Default,
    Outside,
}

/// What follows the branch of an `if`.
#[derive(Clone, Copy)]
pub enum ElseHead {
    None,
    Block,
    If,
}

/// What stands before the first `;` in the header of a `for`.
#[derive(Clone, Copy)]
pub enum StartHead {
    None,
    Let,
    Do,
}

/// Two words, of which the second says yes.
#[derive(Clone, Copy)]
pub enum Choice {
    /// `plain` or `final`.
    Final,
    /// `none` or `init`.
    Init,
    /// `none` or `some`.
    Some,
}

/// The form in this group that the word names.
#[tactic(auto, unfolding(crate::specs::StatementHeads::loop_head))]
fn loop_head(word: &[u8]) -> Option<LoopHead>
    ensures { result ≡ spec.loop_head word.now }
{
    if word == b"while".as_slice() {
        Some(LoopHead::While)
    } else if word == b"for".as_slice() {
        Some(LoopHead::For)
    } else if word == b"each".as_slice() {
        Some(LoopHead::Each)
    } else {
        None
    }
}

/// The form in this group that the word names.
#[tactic(auto, unfolding(crate::specs::StatementHeads::simple_head))]
fn simple_head(word: &[u8]) -> Option<SimpleHead>
    ensures { result ≡ spec.simple_head word.now }
{
    if word == b"do".as_slice() {
        Some(SimpleHead::Do)
    } else if word == b"return".as_slice() {
        Some(SimpleHead::Return)
    } else if word == b"throw".as_slice() {
        Some(SimpleHead::Throw)
    } else if word == b"break".as_slice() {
        Some(SimpleHead::Break)
    } else if word == b"continue".as_slice() {
        Some(SimpleHead::Continue)
    } else if word == b"empty".as_slice() {
        Some(SimpleHead::Empty)
    } else {
        None
    }
}

/// The form in this group that the word names.
#[tactic(auto, unfolding(crate::specs::StatementHeads::super_head))]
fn super_head(word: &[u8]) -> Option<SuperHead>
    ensures { result ≡ spec.super_head word.now }
{
    if word == b"superc".as_slice() {
        Some(SuperHead::Constructor)
    } else if word == b"superd".as_slice() {
        Some(SuperHead::Default)
    } else if word == b"superout".as_slice() {
        Some(SuperHead::Outside)
    } else {
        None
    }
}

/// A block, a declaration or an `if`, as the word says.
#[tactic(auto, unfolding(crate::specs::StatementHeads::branch_head))]
fn branch_head(word: &[u8]) -> Option<NodeHead>
    ensures { result ≡ spec.branch_head word.now }
{
    if word == b"block".as_slice() {
        Some(NodeHead::Block)
    } else if word == b"let".as_slice() {
        Some(NodeHead::Let)
    } else if word == b"if".as_slice() {
        Some(NodeHead::If)
    } else {
        None
    }
}

/// The form that the word names.
#[tactic(auto, unfolding(crate::specs::StatementHeads::any_node_head))]
fn any_node_head(word: &[u8]) -> Option<NodeHead>
    ensures { result ≡ spec.any_node_head word.now }
{
    if let Some(head) = loop_head(word) {
        return Some(NodeHead::Loop(head));
    }
    if let Some(head) = simple_head(word) {
        return Some(NodeHead::Simple(head));
    }
    if let Some(head) = super_head(word) {
        return Some(NodeHead::Super(head));
    }
    branch_head(word)
}

/// Whether there is a statement of this form here with parts no higher than `depth`.
fn node_fits(first: bool, depth: u32, head: NodeHead) -> bool
    ensures { result ≡ spec.node_fits first depth head }
{
    match head {
        NodeHead::Let => true,
        NodeHead::Simple(simple) => {
            0 < depth || !matches!(simple, SimpleHead::Do | SimpleHead::Throw)
        }
        NodeHead::Super(_) => first,
        NodeHead::Block | NodeHead::If | NodeHead::Loop(_) => 0 < depth,
    }
}

/// The form that the word names, if a statement of that form may stand here with parts no higher than
/// `depth`; `super(..)` only as the first statement of a body.
pub fn node_head_of(first: bool, depth: u32, word: &[u8]) -> Option<NodeHead>
    ensures { result ≡ spec.node_head_of first depth word.now }
{
    match any_node_head(word) {
        Some(head) => {
            if node_fits(first, depth, head) {
                Some(head)
            } else {
                None
            }
        }
        None => None,
    }
}

/// What the word says of what follows the branch of an `if`, where parts are no higher than `depth`.
pub fn else_head_of(depth: u32, word: &[u8]) -> Option<ElseHead>
    ensures { result ≡ spec.else_head_of depth word.now }
{
    if word == b"none".as_slice() {
        Some(ElseHead::None)
    } else if word == b"else".as_slice() {
        Some(ElseHead::Block)
    } else if word == b"elif".as_slice() {
        if 0 < depth { Some(ElseHead::If) } else { None }
    } else {
        None
    }
}

/// What the word says of the start of a `for`, where parts are no higher than `depth`.
pub fn start_head_of(depth: u32, word: &[u8]) -> Option<StartHead>
    ensures { result ≡ spec.start_head_of depth word.now }
{
    if word == b"none".as_slice() {
        Some(StartHead::None)
    } else if word == b"let".as_slice() {
        Some(StartHead::Let)
    } else if word == b"do".as_slice() {
        if 0 < depth { Some(StartHead::Do) } else { None }
    } else {
        None
    }
}

/// The word that says yes or no.
pub fn choice_word(choice: Choice, chosen: bool) -> &'static str
    ensures { result.now ≡ spec.choice_spelled choice chosen }
{
    match (choice, chosen) {
        (Choice::Final, false) => "plain",
        (Choice::Final, true) => "final",
        (Choice::Init | Choice::Some, false) => "none",
        (Choice::Init, true) => "init",
        (Choice::Some, true) => "some",
    }
}

/// Whether the word says yes or no; yes only where `deeper` holds.
pub fn choice_of(choice: Choice, deeper: bool, word: &[u8]) -> Option<bool>
    ensures { result ≡ spec.choice_of choice deeper word.now }
{
    if word == choice_word(choice, false).as_bytes() {
        Some(false)
    } else if word == choice_word(choice, true).as_bytes() {
        if deeper { Some(true) } else { None }
    } else {
        None
    }
}

/// Whether the word is `block`.
pub fn is_block(word: &[u8]) -> bool
    ensures { result ≡ spec.is_block word.now }
{
    word == b"block".as_slice()
}

/// Whether the word is `note`.
pub fn is_note(word: &[u8]) -> bool
    ensures { result ≡ spec.is_note word.now }
{
    word == b"note".as_slice()
}
