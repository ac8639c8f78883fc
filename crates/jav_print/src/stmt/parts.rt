ghost use Rattle.std.specs.Prelude.{◌≡◌, ◌++◌, OnOk, codes, map};
ghost use Rattle.jav_tree.specs.ExpressionText.{expr_text};
ghost use Rattle.jav_tree.specs.Lines.{comment_lines, listed};
ghost use Rattle.jav_tree.specs.StatementText as spec;
ghost use Rattle.jav_tree.specs.StatementText.{declarator_text, final_text, let_text, valued_text};

use crate::page::Page;
use jav_tree::{Declarator, Expr, Let};
use mol_base::{OutOfMemory, Text};

impl Page {
    /// Appends comments, each on a line of its own at this depth.
    pub fn comments(&mut self, depth: usize, comments: &[Text]) -> Result<(), OutOfMemory>
        ensures { OnOk result (self.new ≡ self.old ++ comment_lines depth comments.now) }
    {
        for comment in comments {
            self.indent(depth)?;
            self.put(comment.as_str())?;
            self.put("\n")?;
        }
        Ok(())
    }

    /// Appends `final` and a space, or nothing.
    pub fn final_word(&mut self, is_final: bool) -> Result<(), OutOfMemory>
        ensures { OnOk result (self.new ≡ self.old ++ final_text is_final) }
    {
        self.put(if is_final { "final " } else { "" })
    }

    /// Appends a name, and its first value if it has one.
    pub fn valued(&mut self, name: &Text, init: &Option<Expr>) -> Result<(), OutOfMemory>
        ensures { OnOk result (self.new ≡ self.old ++ valued_text name.now init.now) }
    {
        self.put(name.as_str())?;
        if let Some(e) = init {
            self.put(" = ")?;
            self.expr(e)?;
        }
        Ok(())
    }

    /// Appends a declaration of local variables.
    pub fn local_variables(&mut self, decl: &Let) -> Result<(), OutOfMemory>
        ensures { OnOk result (self.new ≡ self.old ++ let_text decl.now) }
    {
        self.final_word(decl.is_final)?;
        self.type_name(&decl.ty)?;
        self.put(" ")?;
        self.declarators(decl.names.items())
    }

    fn declarators(&mut self, names: &[Declarator]) -> Result<(), OutOfMemory>
        ensures { OnOk result (self.new ≡ self.old ++ listed (map declarator_text names.now)) }
    {
        if let [first, rest @ ..] = names {
            self.valued(&first.name, &first.init)?;
            for each in rest {
                self.put(", ")?;
                self.valued(&each.name, &each.init)?;
            }
        }
        Ok(())
    }

    /// Appends a space and an expression, or nothing.
    pub fn spaced_maybe(&mut self, e: &Option<Expr>) -> Result<(), OutOfMemory>
        ensures { OnOk result (self.new ≡ self.old ++ spec.spaced_maybe e.now) }
    {
        match e {
            Some(e) => {
                self.put(" ")?;
                self.expr(e)
            }
            None => Ok(()),
        }
    }

    pub fn return_stmt(&mut self, value: &Option<Expr>) -> Result<(), OutOfMemory>
        ensures { OnOk result (self.new ≡ self.old ++ (codes "return" ++ spec.spaced_maybe value.now ++ codes ";")) }
    {
        self.put("return")?;
        self.spaced_maybe(value)?;
        self.put(";")
    }

    pub fn throw_stmt(&mut self, e: &Expr) -> Result<(), OutOfMemory>
        ensures { OnOk result (self.new ≡ self.old ++ (codes "throw " ++ expr_text e.now ++ codes ";")) }
    {
        self.put("throw ")?;
        self.expr(e)?;
        self.put(";")
    }

    pub fn super_init(&mut self, args: &[Expr]) -> Result<(), OutOfMemory>
        ensures { OnOk result (self.new ≡ self.old ++ (codes "super(" ++ listed (map expr_text args.now) ++ codes ");")) }
    {
        self.put("super(")?;
        self.exprs(args)?;
        self.put(");")
    }
}
