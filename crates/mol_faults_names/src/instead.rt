//! What names read as instead: names that are to spell a class or something outside, and static members after the names of a class.
ghost use Rattle.std.specs.Prelude.{◌≡◌, ◌≤◌, ◌<◌, ◌∷◌, ◌++◌, IfOk, length, option_map, suc};
ghost use Rattle.jav_names.specs.DottedNames.{Dotted, Name, Names};
ghost use Rattle.jav_names.specs.Leftmost.{Leftmost as Read};
ghost use Rattle.mol_scope.specs.asked.Answers.{answer_of};
ghost use Rattle.mol_base.specs.declared.ident.Id.{Id as Identity};
ghost use Rattle.mol_faults_names.specs.Kept.{leftmost_of, locals_at, program_at, reader_at, reads_of, IsPlace};
ghost use Rattle.mol_faults_names.specs.Reads.{method_read, target_read, Reads as Value};
ghost use Rattle.mol_scope.specs.first_names.Readings.{IsRead};
ghost use Rattle.mol_spell_rules.specs.ReadInstead.{asked_instead, class_begun};
ghost use Rattle.mol_spell_rules.specs.Writers.{path_asked, static_field_asked, static_method_asked};

use crate::class_path::{ClassPath, spelled};
use crate::first::First;
use crate::place::InsteadPlace;
use crate::reads::Reads;
use mol_base::{OutOfMemory, Text};
use mol_scope::Answer;

impl<'b> InsteadPlace<'_, '_, 'b> {
    /// What the first so many of these names read as, which stand before a dot and the others: the class that they spell or whose full name
    /// they begin, or what the last of them is the name of. The time is that of the look-up of a field for each of them. `Err` comes where
    /// a local has no number of 32 bits.
    pub fn path(&self, names: &'b [Text], count: usize) -> Result<Answer<'b>, OutOfMemory>
        requires some { 1 ≤ count }
        requires within { count ≤ length names.now }
        requires at { IsPlace self.now }
        ensures { IfOk result (λ answer. (path : Dotted) (follow : Names) → names.now ≡ path.first ∷ (path.rest ++ follow)
            → count ≡ suc (length path.rest)
            → answer_of answer ≡ asked_instead (reader_at self.now) (locals_at self.now) (path_asked path follow)) }
    {
        let first = self.first(names);
        match spelled(&first, count) {
            ClassPath::Whole(class) => Ok(Answer::Class(class)),
            ClassPath::Front => Ok(self.class_begun(&first)),
            ClassPath::Neither => self.last_read(&first, &names[0], &names[1..count]),
        }
    }

    /// What the name of a static field reads as after the first so many of these names, which are to spell its class: the name at this
    /// place among them, before the others. The time is that of the look-up of a field for each of them. `Err` comes where a local has no
    /// number of 32 bits.
    pub fn static_field(&self, names: &'b [Text], count: usize) -> Result<Answer<'b>, OutOfMemory>
        requires some { 1 ≤ count }
        requires within { count < length names.now }
        requires at { IsPlace self.now }
        ensures { IfOk result (λ answer. (path : Dotted) (name : Name) (follow : Names)
            → names.now ≡ path.first ∷ (path.rest ++ name ∷ follow) → count ≡ suc (length path.rest)
            → answer_of answer ≡ asked_instead (reader_at self.now) (locals_at self.now) (static_field_asked path name follow)) }
    {
        let first = self.first(names);
        self.last_read(&first, &names[0], &names[1..count + 1])
    }

    /// What the name of a static method with so many arguments reads as after these names, which are to spell its class. The time is that
    /// of the look-up of a method and of a field for each of the names. `Err` comes where a local has no number of 32 bits.
    pub fn static_method(
        &self,
        path: &'b [Text],
        name: &'b Text,
        arity: u32,
    ) -> Result<Answer<'b>, OutOfMemory>
        requires some { 1 ≤ length path.now }
        requires at { IsPlace self.now }
        ensures { IfOk result (λ answer. (names : Dotted) → path.now ≡ names.first ∷ names.rest
            → answer_of answer ≡ asked_instead (reader_at self.now) (locals_at self.now) (static_method_asked names name.now arity)) }
    {
        let first = self.first(path);
        match spelled(&first, path.len()) {
            ClassPath::Whole(_) => Ok(self.names.static_method(path, name, arity)),
            ClassPath::Front => Ok(Answer::Nothing),
            ClassPath::Neither => match self.names_read(&first, &path[0], &path[1..]) {
                Ok(read) => Ok(self.method_of(&read, name, arity)),
                Err(OutOfMemory) => Err(OutOfMemory),
            },
        }
    }

    /// What the last of a name and those after it is the name of, where it is that of a value.
    fn last_read(
        &self,
        first: &First<'b>,
        name: &'b Text,
        rest: &'b [Text],
    ) -> Result<Answer<'b>, OutOfMemory>
        ensures { IfOk result (λ answer. (front : Read Identity Identity) → IsRead (leftmost_of first.now) front
            → answer_of answer ≡ target_read (program_at self.now) (reader_at self.now) (locals_at self.now) name.now rest.now front) }
    {
        match self.names_read(first, name, rest) {
            Ok(read) => Ok(named(&read)),
            Err(OutOfMemory) => Err(OutOfMemory),
        }
    }

    /// The class whose full name names begin that read so.
    fn class_begun(&self, first: &First<'b>) -> Answer<'b>
        ensures { (read : Read Identity Identity) → IsRead (leftmost_of first.now) read
            → answer_of result ≡ class_begun (reader_at self.now) (locals_at self.now) read }
    {
        match first {
            First::Class(class, _) => Answer::Class(*class),
            _ => Answer::Nothing,
        }
    }

    /// What the name of a method with so many arguments reads as after names that read so.
    fn method_of(&self, read: &Option<Reads<'b>>, name: &'b Text, arity: u32) -> Answer<'b>
        ensures { answer_of result ≡ method_read (reader_at self.now) name.now arity (option_map reads_of read.now) }
    {
        match read {
            Some(value) => self.names.method_on(&value.ty, name, arity),
            None => Answer::Nothing,
        }
    }
}

/// What names read as whose last one is the name of this value; nothing without one.
fn named<'b>(read: &Option<Reads<'b>>) -> Answer<'b>
    ensures { answer_of result ≡ option_map (λ (value : Value). value.target) (option_map reads_of read.now) }
{
    match read {
        Some(value) => value.word.answer(),
        None => Answer::Nothing,
    }
}
