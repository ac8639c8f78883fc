ghost use Rattle.std.specs.Prelude.{◌≡◌, ◌++◌, OnOk, codes};
ghost use Rattle.jav_tree.specs.ExpressionText.{expr_text};
ghost use Rattle.jav_tree.specs.StatementText.{final_text, spaced_list, spaced_maybe, start_text};
ghost use Rattle.jav_tree.specs.TypeText.{type_text};

use crate::page::Page;
use jav_tree::{Expr, ForStart, TypeName};
use mol_base::{OutOfMemory, Text};

impl Page {
    /// Appends what stands before the body of a `for` with semicolons.
    pub fn for_header(
        &mut self,
        start: &ForStart,
        test: &Option<Expr>,
        steps: &[Expr],
    ) -> Result<(), OutOfMemory>
        ensures { OnOk result (self.new ≡ self.old ++ (codes "for (" ++ start_text start.now ++ codes ";" ++ spaced_maybe test.now ++ codes ";" ++ spaced_list steps.now ++ codes ") ")) }
    {
        self.put("for (")?;
        self.for_start(start)?;
        self.put(";")?;
        self.spaced_maybe(test)?;
        self.put(";")?;
        self.spaced_exprs(steps)?;
        self.put(") ")
    }

    fn for_start(&mut self, start: &ForStart) -> Result<(), OutOfMemory>
        ensures { OnOk result (self.new ≡ self.old ++ start_text start.now) }
    {
        match start {
            ForStart::None => Ok(()),
            ForStart::Let(decl) => self.local_variables(decl),
            ForStart::Do(all) => self.exprs(all.items()),
        }
    }

    /// Appends a space and a list of expressions, or nothing.
    fn spaced_exprs(&mut self, exprs: &[Expr]) -> Result<(), OutOfMemory>
        ensures { OnOk result (self.new ≡ self.old ++ spaced_list exprs.now) }
    {
        match exprs {
            [] => Ok(()),
            [_, ..] => {
                self.put(" ")?;
                self.exprs(exprs)
            }
        }
    }

    /// Appends what stands before the body of a `for` over items.
    pub fn each_header(
        &mut self,
        is_final: bool,
        ty: &TypeName,
        name: &Text,
        e: &Expr,
    ) -> Result<(), OutOfMemory>
        ensures { OnOk result (self.new ≡ self.old ++ (codes "for (" ++ final_text is_final ++ type_text ty.now ++ codes " " ++ name.now ++ codes " : " ++ expr_text e.now ++ codes ") ")) }
    {
        self.put("for (")?;
        self.final_word(is_final)?;
        self.type_name(ty)?;
        self.put(" ")?;
        self.put(name.as_str())?;
        self.put(" : ")?;
        self.expr(e)?;
        self.put(") ")
    }
}
