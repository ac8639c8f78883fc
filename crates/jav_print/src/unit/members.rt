ghost use Rattle.std.specs.Prelude.{◌≡◌, ◌++◌, OnOk, codes, map};
ghost use Rattle.jav_tree.specs.Layout as spec;
ghost use Rattle.jav_tree.specs.Lines.{listed};

use crate::page::Page;
use crate::unit::modifiers::has;
use jav_tree::{Block, Ctor, Field, Member, Method, Param};
use mol_base::{OutOfMemory, Text};

impl Page {
    /// Appends a member of the class of this name.
    pub fn class_member(&mut self, class: &Text, member: &Member) -> Result<(), OutOfMemory>
        ensures { OnOk result (self.new ≡ self.old ++ spec.member_lines class.now member.now) }
    {
        match member {
            Member::Field(field) => self.field(field),
            Member::Method(method) => self.method(method),
            Member::Ctor(ctor) => self.constructor(class, ctor),
        }
    }

    fn field(&mut self, field: &Field) -> Result<(), OutOfMemory>
        ensures { OnOk result (self.new ≡ self.old ++ spec.field_lines field.now) }
    {
        self.comments(1, field.front.items())?;
        self.indent(1)?;
        self.modifiers(field.words.items(), false, false)?;
        self.type_name(&field.ty)?;
        self.put(" ")?;
        self.valued(&field.name, &field.init)?;
        self.put(";\n")
    }

    fn method(&mut self, method: &Method) -> Result<(), OutOfMemory>
        ensures { OnOk result (self.new ≡ self.old ++ spec.method_lines method.now) }
    {
        self.comments(1, method.front.items())?;
        self.override_line(method.words.items())?;
        self.indent(1)?;
        self.method_words(method)?;
        self.type_name(&method.result)?;
        self.put(" ")?;
        self.put(method.name.as_str())?;
        self.params(method.params.items())?;
        self.body(&method.block)?;
        self.put("\n")
    }

    /// Appends the line `@Override`, where that stands among the modifiers.
    fn override_line(&mut self, words: &[Text]) -> Result<(), OutOfMemory>
        ensures { OnOk result (self.new ≡ self.old ++ spec.override_line words.now) }
    {
        if has(words, "@Override") {
            self.indent(1)?;
            self.put("@Override\n")?;
        }
        Ok(())
    }

    /// Appends the modifiers of a method, with those that its tree keeps elsewhere.
    fn method_words(&mut self, method: &Method) -> Result<(), OutOfMemory>
        ensures { OnOk result (self.new ≡ self.old ++ spec.words_text (spec.method_words method.now)) }
    {
        let is_abstract = match &method.block {
            Some(_) => false,
            None => true,
        };
        self.modifiers(method.words.items(), method.is_static, is_abstract)
    }

    fn params(&mut self, params: &[Param]) -> Result<(), OutOfMemory>
        ensures { OnOk result (self.new ≡ self.old ++ spec.params_text params.now) }
    {
        self.put("(")?;
        self.listed_params(params)?;
        self.put(")")
    }

    fn listed_params(&mut self, params: &[Param]) -> Result<(), OutOfMemory>
        ensures { OnOk result (self.new ≡ self.old ++ listed (map spec.param_text params.now)) }
    {
        if let [first, rest @ ..] = params {
            self.param(first)?;
            for each in rest {
                self.put(", ")?;
                self.param(each)?;
            }
        }
        Ok(())
    }

    fn param(&mut self, param: &Param) -> Result<(), OutOfMemory>
        ensures { OnOk result (self.new ≡ self.old ++ spec.param_text param.now) }
    {
        self.type_name(&param.ty)?;
        self.put(" ")?;
        self.put(param.name.as_str())
    }

    /// Appends a block after a header, or the semicolon of an abstract method.
    fn body(&mut self, block: &Option<Block>) -> Result<(), OutOfMemory>
        ensures { OnOk result (self.new ≡ self.old ++ spec.body_text block.now) }
    {
        match block {
            Some(block) => {
                self.put(" ")?;
                self.block(1, block)
            }
            None => self.put(";"),
        }
    }

    fn constructor(&mut self, class: &Text, ctor: &Ctor) -> Result<(), OutOfMemory>
        ensures { OnOk result (self.new ≡ self.old ++ spec.ctor_lines class.now ctor.now) }
    {
        self.comments(1, ctor.front.items())?;
        self.indent(1)?;
        self.modifiers(ctor.words.items(), false, false)?;
        self.put(class.as_str())?;
        self.params(ctor.params.items())?;
        self.put(" ")?;
        self.block(1, &ctor.block)?;
        self.put("\n")
    }
}
