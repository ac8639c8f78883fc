//! Expressions, each with the parentheses that it needs and no others.
ghost use Rattle.std.specs.Prelude.{◌≡◌, ◌++◌, OnOk, codes, map, option_map};
ghost use Rattle.jav_tree.specs.ExpressionText as spec;
ghost use Rattle.jav_tree.specs.Lines.{listed};
ghost use Rattle.jav_tree.specs.TypeText.{type_text};
ghost use Rattle.jav_print.specs.Written.{after_operator, after_prefix, before_dot as text_before_dot, cast_operand as of_cast, from, parenthesized, prefix_level, text_of, texts, written, written_node};

mod lists;

use crate::binding::{binding_of_expr, level_after_prefix, level_on_left, level_on_right};
use crate::first::gap_before;
use crate::page::Page;
use crate::types::is_primitive;
use jav_tree::{Expr, ExprNode, TypeName};
use mol_base::{Boxed, OutOfMemory, Text};

impl Page {
    /// Appends an expression as it is printed.
    pub fn expr(&mut self, e: &Expr) -> Result<(), OutOfMemory>
        ensures { OnOk result (self.new ≡ self.old ++ spec.expr_text e.now) }
    {
        self.tree(e)
    }

    /// Appends expressions with `, ` between two.
    pub fn exprs(&mut self, items: &[Expr]) -> Result<(), OutOfMemory>
        ensures { OnOk result (self.new ≡ self.old ++ listed (map spec.expr_text items.now)) }
    {
        self.trees(items)
    }

    /// Appends an expression, the parentheses aside that stand round it in the tree.
    #[cycle(write)]
    pub fn tree(&mut self, e: &Expr) -> Result<(), OutOfMemory>
        ensures { OnOk result (self.new ≡ self.old ++ text_of (written e.now)) }
    {
        self.front_of(&e.node)?;
        self.rest_of(&e.node)
    }

    /// Appends a node up to the end of its first part.
    #[cycle(write)]
    fn front_of(&mut self, node: &ExprNode) -> Result<(), OutOfMemory>
        ensures { OnOk result (self.new ≡ self.old ++ (written_node node.now).front) }
    {
        match node {
            ExprNode::Lit(text) => self.put(text.as_str()),
            ExprNode::This => self.put("this"),
            ExprNode::Name(name) => self.put(name.as_str()),
            ExprNode::Dot(e, _) => self.before_dot(e.get()),
            ExprNode::Call(on, _, _) => self.receiver(on),
            ExprNode::SuperCall(_, _) => self.put("super."),
            ExprNode::New(ty, _) => self.new_type(ty),
            ExprNode::NewArray(ty, _, _) => self.new_type(ty),
            ExprNode::ArrayLit(ty, _) => self.new_type(ty),
            ExprNode::Braces(_) => Ok(()),
            ExprNode::Index(e, _) => self.operand_from(15, e.get()),
            ExprNode::Unary(op, _) => self.put(op.as_str()),
            ExprNode::Post(e, _) => self.operand_from(15, e.get()),
            ExprNode::Binary(a, op, _) => self.operand_from(level_on_left(op), a.get()),
            ExprNode::Assign(a, _, _) => self.operand_from(15, a.get()),
            ExprNode::Cond(test, _, _) => self.operand_from(3, test.get()),
            ExprNode::Cast(ty, _) => self.cast_type(ty),
            ExprNode::InstanceOf(e, _) => self.operand_from(9, e.get()),
            ExprNode::Paren(e) => self.front_of(&e.get().node),
        }
    }

    /// Appends a node from there on.
    #[cycle(write)]
    fn rest_of(&mut self, node: &ExprNode) -> Result<(), OutOfMemory>
        ensures { OnOk result (self.new ≡ self.old ++ (written_node node.now).rest) }
    {
        match node {
            ExprNode::Lit(_) => Ok(()),
            ExprNode::This => Ok(()),
            ExprNode::Name(_) => Ok(()),
            ExprNode::Dot(_, name) => self.dot_name(name),
            ExprNode::Call(_, name, args) => self.named_call(name, args.items()),
            ExprNode::SuperCall(name, args) => self.named_call(name, args.items()),
            ExprNode::New(_, args) => self.in_parens(args.items()),
            ExprNode::NewArray(_, sizes, open) => self.dimensions(sizes.items(), *open),
            ExprNode::ArrayLit(_, items) => self.array_items(items.items()),
            ExprNode::Braces(items) => self.in_braces(items.items()),
            ExprNode::Index(_, i) => self.in_brackets(i.get()),
            ExprNode::Unary(op, e) => self.after_prefix(op, e.get()),
            ExprNode::Post(_, op) => self.put(op.as_str()),
            ExprNode::Binary(_, op, b) => {
                let in_parens = binding_of_expr(b.get()).is_below(level_on_right(op));
                self.after_operator(op.as_str(), b.get(), in_parens)
            }
            ExprNode::Assign(_, op, b) => self.after_operator(op.as_str(), b.get(), false),
            ExprNode::Cond(_, a, b) => {
                self.after_operator("?", a.get(), false)?;
                self.after_colon(b.get())
            }
            ExprNode::Cast(ty, e) => self.cast_operand(is_primitive(ty), e.get()),
            ExprNode::InstanceOf(_, ty) => self.instanceof_type(ty),
            ExprNode::Paren(e) => self.rest_of(&e.get().node),
        }
    }

    /// Appends an operand, in parentheses where it needs them.
    #[cycle(write)]
    fn operand(&mut self, e: &Expr, in_parens: bool) -> Result<(), OutOfMemory>
        ensures { OnOk result (self.new ≡ self.old ++ parenthesized in_parens (text_of (written e.now))) }
    {
        if in_parens {
            self.put("(")?;
            self.tree(e)?;
            self.put(")")
        } else {
            self.tree(e)
        }
    }

    /// Appends an operand where this level or a greater one is needed.
    #[cycle(write)]
    fn operand_from(&mut self, level: u8, e: &Expr) -> Result<(), OutOfMemory>
        ensures { OnOk result (self.new ≡ self.old ++ from level (written e.now)) }
    {
        self.operand(e, binding_of_expr(e).is_below(level))
    }

    #[cycle(write)]
    fn before_dot(&mut self, e: &Expr) -> Result<(), OutOfMemory>
        ensures { OnOk result (self.new ≡ self.old ++ text_before_dot (written e.now)) }
    {
        self.operand(e, binding_of_expr(e).needs_before_dot())
    }

    #[cycle(write)]
    fn cast_operand(&mut self, is_primitive: bool, e: &Expr) -> Result<(), OutOfMemory>
        ensures { OnOk result (self.new ≡ self.old ++ of_cast is_primitive (written e.now)) }
    {
        self.operand(e, binding_of_expr(e).needs_in_cast(is_primitive))
    }

    /// Appends what a call is on, and the dot.
    #[cycle(write)]
    fn receiver(&mut self, on: &Option<Boxed<Expr>>) -> Result<(), OutOfMemory>
        ensures { OnOk result (self.new ≡ self.old ++ spec.on_text (option_map text_before_dot (option_map written on.now))) }
    {
        match on {
            Some(e) => {
                self.before_dot(e.get())?;
                self.put(".")
            }
            None => Ok(()),
        }
    }

    /// Appends what follows a prefix operator: its operand, with a space before it where it needs one.
    #[cycle(write)]
    fn after_prefix(&mut self, op: &Text, e: &Expr) -> Result<(), OutOfMemory>
        ensures { OnOk result (self.new ≡ self.old ++ after_prefix op.now (from (prefix_level op.now) (written e.now))) }
    {
        let in_parens = binding_of_expr(e).is_below(level_after_prefix(op));
        self.put(gap_before(op, e, in_parens))?;
        self.operand(e, in_parens)
    }

    /// Appends an operator with a space on each side, and the operand after it.
    #[cycle(write)]
    fn after_operator(&mut self, op: &str, e: &Expr, in_parens: bool) -> Result<(), OutOfMemory>
        ensures { OnOk result (self.new ≡ self.old ++ after_operator op.now (parenthesized in_parens (text_of (written e.now)))) }
    {
        self.put(" ")?;
        self.put(op)?;
        self.put(" ")?;
        self.operand(e, in_parens)
    }

    #[cycle(write)]
    fn after_colon(&mut self, e: &Expr) -> Result<(), OutOfMemory>
        ensures { OnOk result (self.new ≡ self.old ++ after_operator (codes ":") (from 2 (written e.now))) }
    {
        self.after_operator(":", e, binding_of_expr(e).is_below(2))
    }
}
