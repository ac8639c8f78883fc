//! Where the names of expressions are read.
ghost use Rattle.std.specs.Prelude.{◌≡◌, IfOk, OnOk, false, option_map};
ghost use Rattle.std.specs.Option.{option_and_then};
ghost use Rattle.mol_scope.specs.asked.Answers.{is_answer, target_of};
ghost use Rattle.mol_faults_expr.specs.Noted.{note};
ghost use Rattle.mol_faults_expr.specs.Places.{AreReadAt};
ghost use Rattle.mol_faults_expr.specs.Readings.{kept_reading, program_target, reads_as};
ghost use Rattle.mol_faults_rules.specs.Kept.{kept_target};
ghost use Rattle.mol_spell_rules.specs.Answers.{answered};
ghost use Rattle.mol_spell_rules.specs.FaultList.{fault_target, outside_of};
ghost use Rattle.mol_spell_rules.specs.NameFaults.{is_gone};
ghost use Rattle.mol_spell_rules.specs.ReadInstead.{instead as read_instead};
ghost use Rattle.mol_spell_rules.specs.Writers.{Reference};
ghost use Rattle.mol_faults_rules.specs.Met.{kept_met};

use crate::misreads::Misreads;
use crate::reading::{Reading, met_in};
use mol_base::{OutOfMemory, Text};
use mol_faults_names::InsteadPlace;
use mol_faults_rules::{Met, Target as FaultTarget};
use mol_scope::{NamePlace, Target};
use mol_spell_expr::Names;
use mol_spell_places::BodyLocals;
use mol_table::Table;
use std::alloc::Global;

/// Reads the names of expressions of a program as they are printed in the file of a class: at this place, beside these locals. `names`
/// knows how they are spelled there. `Err` of its calls is want of memory.
#[derive(Clone, Copy)]
pub struct ExprReader<'a, 'n, N> {
    pub alloc: Global,
    pub names: &'n N,
    pub place: NamePlace<'a, 'n>,
    pub locals: &'n BodyLocals<'a>,
}

impl<'a, 'n, N: Names> ExprReader<'a, 'n, N> {
    /// The table of the program.
    pub(crate) fn table(&self) -> &'a Table
        requires { AreReadAt (N.writer self.now.names.now) (N.locals self.now.names.now) self.now.place self.now.locals.now }
        ensures { result.now ≡ (N.writer self.now.names.now).program }
    {
        self.place.variables.members.table()
    }

    /// The place, with the locals that were declared up to it.
    pub(crate) fn instead_place(&self) -> InsteadPlace<'_, 'a, 'n>
        ensures names { result.names.now ≡ self.now.place }
        ensures locals { result.locals.now ≡ self.now.locals.now }
    {
        InsteadPlace {
            names: &self.place,
            locals: self.locals,
        }
    }

    /// Notes the next name by what it is the name of, and how it reads.
    pub(crate) fn note(
        &self,
        misreads: &mut Misreads,
        target: &Target<'_>,
        reads: Reading,
    ) -> Result<(), OutOfMemory>
        requires { AreReadAt (N.writer self.now.names.now) (N.locals self.now.names.now) self.now.place self.now.locals.now }
        ensures { let writer = N.writer self.now.names.now in
            OnOk result ((reference : Reference) → target_of target.now ≡ reference.target
            → kept_reading reads ≡ reads_as writer.reader reference.locals reference.target reference.asked
            → misreads.new ≡ note writer misreads.old reference) }
    {
        match reads {
            Reading::AsNamed => misreads.add_read(),
            Reading::Instead(instead) => self.note_misread(misreads, target, instead),
        }
    }

    /// Notes the next name, which reads as something else than what it is the name of, and of the program as this.
    fn note_misread(
        &self,
        misreads: &mut Misreads,
        target: &Target<'_>,
        instead: Option<Met>,
    ) -> Result<(), OutOfMemory>
        requires { AreReadAt (N.writer self.now.names.now) (N.locals self.now.names.now) self.now.place self.now.locals.now }
        ensures { let writer = N.writer self.now.names.now in
            OnOk result ((reference : Reference) → target_of target.now ≡ reference.target
            → is_answer reference.target (answered writer.reader reference) ≡ false
            → option_map kept_met instead ≡ option_and_then program_target (read_instead writer.reader reference)
            → misreads.new ≡ note writer misreads.old reference) }
    {
        if self.is_gone(target) {
            return misreads.add_read();
        }
        let kept = fault_target(self.alloc, target)?;
        misreads.add_misread(kept, met_in(target), instead)
    }

    /// Whether a name is that of what does not live.
    fn is_gone(&self, target: &Target<'_>) -> bool
        requires { AreReadAt (N.writer self.now.names.now) (N.locals self.now.names.now) self.now.place self.now.locals.now }
        ensures { result ≡ is_gone (N.writer self.now.names.now).program (target_of target.now) }
    {
        match target {
            Target::Class(class) => !self.table().lives(*class),
            Target::Field(field) => !self.table().lives(*field),
            Target::Method(method) => !self.table().lives(*method),
            Target::Default(class) => !self.table().lives(*class),
            Target::Param(_) => false,
            Target::Local(_) => false,
            Target::Outside(_) => false,
        }
    }
}

/// What a name is the name of, as a fault has it.
fn fault_target(alloc: Global, target: &Target<'_>) -> Result<FaultTarget, OutOfMemory>
    ensures { IfOk result (λ kept. kept_target kept ≡ fault_target (target_of target.now)) }
{
    match target {
        Target::Class(class) => Ok(FaultTarget::Entity(*class)),
        Target::Field(field) => Ok(FaultTarget::Entity(*field)),
        Target::Method(method) => Ok(FaultTarget::Entity(*method)),
        Target::Param(param) => Ok(FaultTarget::Entity(*param)),
        Target::Default(class) => Ok(FaultTarget::Default(*class)),
        Target::Local(number) => Ok(FaultTarget::Local(*number)),
        Target::Outside(text) => outside(alloc, text),
    }
}

/// Something outside, by its text.
fn outside(alloc: Global, text: &str) -> Result<FaultTarget, OutOfMemory>
    ensures { IfOk result (λ kept. kept_target kept ≡ outside_of text.now) }
{
    let text = Text::from_str(alloc, text)?;
    Ok(FaultTarget::Outside(text))
}
