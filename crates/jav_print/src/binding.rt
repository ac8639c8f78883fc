//! What decides whether an operand needs parentheses.
ghost use Rattle.std.specs.Prelude.{◌≡◌, ◌||◌, ◌&&◌, not, nat_lt};
ghost use Rattle.mol_base.specs.Operators as spec;
ghost use Rattle.jav_tree.specs.WithParens.{begins_with_digit};
ghost use Rattle.jav_print.specs.Written.{binding_of, left_level, own_level, prefix_level, right_level, written, written_node};

use jav_tree::{Expr, ExprNode};
use mol_base::{Text, binary_level, is_sign, is_step};

/// How an expression binds as it is printed, without parentheses round it.
#[derive(Clone, Copy)]
pub struct Binding {
    /// The level of its loosest operator: 1 the loosest, 15 the tightest.
    pub level: u8,
    /// Whether that operator is a prefix `+`, `-`, `++` or `--`.
    pub is_signed: bool,
    /// Whether the expression is a number literal.
    pub is_number: bool,
}

impl Binding {
    /// How an expression binds whose loosest operator is of this level.
    fn of_level(level: u8) -> Binding
        ensures { result ≡ binding_of level }
    {
        Binding {
            level,
            is_signed: false,
            is_number: false,
        }
    }

    /// Whether the expression needs parentheses where this level or a greater one is needed.
    pub fn is_below(self, level: u8) -> bool
        ensures { result ≡ nat_lt self.level level }
    {
        self.level < level
    }

    /// Whether it needs them before a dot.
    pub fn needs_before_dot(self) -> bool
        ensures { result ≡ (nat_lt self.level 15 || self.is_number) }
    {
        self.level < 15 || self.is_number
    }

    /// Whether it needs them as the operand of a cast.
    pub fn needs_in_cast(self, is_primitive: bool) -> bool
        ensures { result ≡ (nat_lt self.level 13 || (not is_primitive && self.is_signed)) }
    {
        self.level < 13 || (!is_primitive && self.is_signed)
    }
}

/// How an expression binds.
#[cycle(binding)]
pub fn binding_of_expr(e: &Expr) -> Binding
    ensures { result ≡ (written e.now).binding }
{
    binding_of_node(&e.node)
}

#[cycle(binding)]
fn binding_of_node(node: &ExprNode) -> Binding
    ensures { result ≡ (written_node node.now).binding }
{
    match node {
        ExprNode::Lit(text) => Binding {
            level: 15,
            is_signed: false,
            is_number: begins_with_digit(text),
        },
        ExprNode::This => Binding::of_level(15),
        ExprNode::Name(_) => Binding::of_level(15),
        ExprNode::Dot(_, _) => Binding::of_level(15),
        ExprNode::Call(_, _, _) => Binding::of_level(15),
        ExprNode::SuperCall(_, _) => Binding::of_level(15),
        ExprNode::New(_, _) => Binding::of_level(15),
        ExprNode::NewArray(_, _, _) => Binding::of_level(14),
        ExprNode::ArrayLit(_, _) => Binding::of_level(14),
        ExprNode::Braces(_) => Binding::of_level(15),
        ExprNode::Index(_, _) => Binding::of_level(15),
        ExprNode::Unary(op, _) => Binding {
            level: 13,
            is_signed: is_sign(op.bytes()),
            is_number: false,
        },
        ExprNode::Post(_, _) => Binding::of_level(14),
        ExprNode::Binary(_, op, _) => Binding::of_level(level_between(op)),
        ExprNode::Assign(_, _, _) => Binding::of_level(1),
        ExprNode::Cond(_, _, _) => Binding::of_level(2),
        ExprNode::Cast(_, _) => Binding::of_level(13),
        ExprNode::InstanceOf(_, _) => Binding::of_level(9),
        ExprNode::Paren(inner) => binding_of_expr(inner.get()),
    }
}

/// The level of an operator between two operands; 1 where the text is none.
fn level_between(op: &Text) -> u8
    ensures { result ≡ own_level (spec.binary_level op.now) }
{
    match binary_level(op.bytes()) {
        Some(level) => level,
        None => 1,
    }
}

/// The level that the left operand of such an operator needs.
pub fn level_on_left(op: &Text) -> u8
    ensures { result ≡ left_level (spec.binary_level op.now) }
{
    match binary_level(op.bytes()) {
        Some(level) => level,
        None => 15,
    }
}

/// The level that its right operand needs.
pub fn level_on_right(op: &Text) -> u8
    ensures { result ≡ right_level (spec.binary_level op.now) }
{
    match binary_level(op.bytes()) {
        Some(level) => level + 1,
        None => 15,
    }
}

/// The level that the operand of a prefix operator needs.
pub fn level_after_prefix(op: &Text) -> u8
    ensures { result ≡ prefix_level op.now }
{
    if is_step(op.bytes()) { 15 } else { 13 }
}

/// Whether a literal begins with a digit.
fn begins_with_digit(text: &Text) -> bool
    ensures { result ≡ begins_with_digit text.now }
{
    match text.bytes() {
        [c, ..] => 48 <= *c && *c <= 57,
        [] => false,
    }
}
