//! What names read as.
ghost use Rattle.std.specs.Prelude.{◌≡◌};
ghost use Rattle.mol_scope.specs.asked.Answers.{answer_of, is_answer, target_of};
ghost use Rattle.mol_table_rules.specs.Program.{same_id};
ghost use Rattle.mol_spell_rules.specs.references.References.{class_target, default_target, field_target, local_target, method_target, outside_target, param_target};

use crate::asked::dotted_text::DottedText;
use crate::asked::target::Target;
use mol_base::Id;

/// What a printed name reads as.
#[derive(Clone, Copy)]
pub enum Answer<'a> {
    /// A class.
    Class(Id),
    /// A field.
    Field(Id),
    /// A method or a declared constructor.
    Method(Id),
    /// A parameter.
    Param(Id),
    /// The default constructor of a class.
    Default(Id),
    /// A local, by its number, from 0.
    Local(usize),
    /// Something outside, by its text.
    Outside(DottedText<'a>),
    /// Nothing.
    Nothing,
}

impl Answer<'_> {
    /// Whether a name that reads so reads as what it is the name of. It takes no memory. The time is linear in the length of a text.
    pub fn is(&self, target: &Target<'_>) -> bool
        ensures { result ≡ is_answer (target_of target.now) (answer_of self.now) }
    {
        match target {
            Target::Class(class) => self.is_class(class),
            Target::Field(field) => self.is_field(field),
            Target::Method(method) => self.is_method(method),
            Target::Param(param) => self.is_param(param),
            Target::Default(class) => self.is_default(class),
            Target::Local(number) => self.is_local(*number),
            Target::Outside(text) => self.is_outside(text),
        }
    }

    /// Whether this class is read.
    fn is_class(&self, class: &Id) -> bool
        ensures { result ≡ is_answer (class_target class.now) (answer_of self.now) }
    {
        match self {
            Answer::Class(read) => same_id(class, read),
            _ => false,
        }
    }

    /// Whether this field is read.
    fn is_field(&self, field: &Id) -> bool
        ensures { result ≡ is_answer (field_target field.now) (answer_of self.now) }
    {
        match self {
            Answer::Field(read) => same_id(field, read),
            _ => false,
        }
    }

    /// Whether this method or declared constructor is read.
    fn is_method(&self, method: &Id) -> bool
        ensures { result ≡ is_answer (method_target method.now) (answer_of self.now) }
    {
        match self {
            Answer::Method(read) => same_id(method, read),
            _ => false,
        }
    }

    /// Whether this parameter is read.
    fn is_param(&self, param: &Id) -> bool
        ensures { result ≡ is_answer (param_target param.now) (answer_of self.now) }
    {
        match self {
            Answer::Param(read) => same_id(param, read),
            _ => false,
        }
    }

    /// Whether the default constructor of this class is read.
    fn is_default(&self, class: &Id) -> bool
        ensures { result ≡ is_answer (default_target class.now) (answer_of self.now) }
    {
        match self {
            Answer::Default(read) => same_id(class, read),
            _ => false,
        }
    }

    /// Whether the local of this number is read.
    fn is_local(&self, number: u32) -> bool
        ensures { result ≡ is_answer (local_target number) (answer_of self.now) }
    {
        match self {
            Answer::Local(read) => number as usize == *read,
            _ => false,
        }
    }

    /// Whether something outside of this text is read.
    fn is_outside(&self, text: &str) -> bool
        ensures { result ≡ is_answer (outside_target text.now) (answer_of self.now) }
    {
        match self {
            Answer::Outside(read) => read.is(text),
            _ => false,
        }
    }
}

/// Whether two identities are one.
fn same_id(first: &Id, second: &Id) -> bool
    ensures { result ≡ same_id first.now second.now }
{
    first == second
}
