ghost use Rattle.std.specs.Prelude.{◌≡◌, ◌++◌, OnOk, codes, map};
ghost use Rattle.jav_tree.specs.ExpressionText as spec;
ghost use Rattle.jav_tree.specs.Lines.{listed};
ghost use Rattle.jav_tree.specs.TypeText.{type_text};
ghost use Rattle.jav_print.specs.Written.{text_of, texts, written};

use crate::page::Page;
use jav_tree::{Expr, TypeName};
use mol_base::{OutOfMemory, Text};

impl Page {
    /// Appends expressions with `, ` between two.
    #[cycle(write)]
    pub fn trees(&mut self, items: &[Expr]) -> Result<(), OutOfMemory>
        ensures { OnOk result (self.new ≡ self.old ++ listed (texts (map written items.now))) }
    {
        if let [first, rest @ ..] = items {
            self.tree(first)?;
            for item in rest {
                self.put(", ")?;
                self.tree(item)?;
            }
        }
        Ok(())
    }

    #[cycle(write)]
    pub fn in_parens(&mut self, items: &[Expr]) -> Result<(), OutOfMemory>
        ensures { OnOk result (self.new ≡ self.old ++ spec.in_parens (texts (map written items.now))) }
    {
        self.put("(")?;
        self.trees(items)?;
        self.put(")")
    }

    #[cycle(write)]
    pub fn in_braces(&mut self, items: &[Expr]) -> Result<(), OutOfMemory>
        ensures { OnOk result (self.new ≡ self.old ++ spec.in_braces (texts (map written items.now))) }
    {
        self.put("{")?;
        self.trees(items)?;
        self.put("}")
    }

    #[cycle(write)]
    pub fn in_brackets(&mut self, e: &Expr) -> Result<(), OutOfMemory>
        ensures { OnOk result (self.new ≡ self.old ++ (codes "[" ++ text_of (written e.now) ++ codes "]")) }
    {
        self.put("[")?;
        self.tree(e)?;
        self.put("]")
    }

    /// Appends the name of a method and arguments.
    #[cycle(write)]
    pub fn named_call(&mut self, name: &Text, args: &[Expr]) -> Result<(), OutOfMemory>
        ensures { OnOk result (self.new ≡ self.old ++ (name.now ++ spec.in_parens (texts (map written args.now)))) }
    {
        self.put(name.as_str())?;
        self.in_parens(args)
    }

    /// Appends the items of an array that is written out, with the space before them.
    #[cycle(write)]
    pub fn array_items(&mut self, items: &[Expr]) -> Result<(), OutOfMemory>
        ensures { OnOk result (self.new ≡ self.old ++ (codes " " ++ spec.in_braces (texts (map written items.now)))) }
    {
        self.put(" ")?;
        self.in_braces(items)
    }

    /// Appends sizes, each in brackets, and pairs of empty brackets.
    #[cycle(write)]
    pub fn dimensions(&mut self, sizes: &[Expr], pairs: u32) -> Result<(), OutOfMemory>
        ensures { OnOk result (self.new ≡ self.old ++ (spec.sizes_text (texts (map written sizes.now)) ++ spec.brackets_text pairs)) }
    {
        self.sizes(sizes)?;
        self.brackets(pairs)
    }

    #[cycle(write)]
    fn sizes(&mut self, sizes: &[Expr]) -> Result<(), OutOfMemory>
        ensures { OnOk result (self.new ≡ self.old ++ spec.sizes_text (texts (map written sizes.now))) }
    {
        for size in sizes {
            self.in_brackets(size)?;
        }
        Ok(())
    }

    fn brackets(&mut self, pairs: u32) -> Result<(), OutOfMemory>
        ensures { OnOk result (self.new ≡ self.old ++ spec.brackets_text pairs) }
    {
        for _pair in 0..pairs {
            self.put("[]")?;
        }
        Ok(())
    }

    pub fn dot_name(&mut self, name: &Text) -> Result<(), OutOfMemory>
        ensures { OnOk result (self.new ≡ self.old ++ (codes "." ++ name.now)) }
    {
        self.put(".")?;
        self.put(name.as_str())
    }

    pub fn new_type(&mut self, ty: &TypeName) -> Result<(), OutOfMemory>
        ensures { OnOk result (self.new ≡ self.old ++ (codes "new " ++ type_text ty.now)) }
    {
        self.put("new ")?;
        self.type_name(ty)
    }

    pub fn cast_type(&mut self, ty: &TypeName) -> Result<(), OutOfMemory>
        ensures { OnOk result (self.new ≡ self.old ++ (codes "(" ++ type_text ty.now ++ codes ") ")) }
    {
        self.put("(")?;
        self.type_name(ty)?;
        self.put(") ")
    }

    pub fn instanceof_type(&mut self, ty: &TypeName) -> Result<(), OutOfMemory>
        ensures { OnOk result (self.new ≡ self.old ++ (codes " instanceof " ++ type_text ty.now)) }
    {
        self.put(" instanceof ")?;
        self.type_name(ty)
    }
}
