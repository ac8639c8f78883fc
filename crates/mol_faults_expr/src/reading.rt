//! How a name reads, beside what it is the name of.
ghost use Rattle.std.specs.Prelude.{◌≡◌, option_map};
ghost use Rattle.std.specs.Option.{option_and_then};
ghost use Rattle.mol_scope.specs.asked.Answers.{answer_of, target_of};
ghost use Rattle.mol_faults_expr.specs.Readings.{kept_reading, program_target, reading};
ghost use Rattle.mol_faults_rules.specs.Met.{kept_met};

use mol_faults_rules::Met;
use mol_scope::{Answer, Target};

/// How a name reads.
#[derive(Clone, Copy)]
pub(crate) enum Reading {
    /// As what it is the name of.
    AsNamed,
    /// As this of the program; as nothing, or as a local or something outside, where there is none.
    Instead(Option<Met>),
}

impl Reading {
    /// How a name of this target reads that reads so. It takes no memory.
    pub fn of(answer: &Answer<'_>, target: &Target<'_>) -> Reading
        ensures { kept_reading result ≡ reading (target_of target.now) (answer_of answer.now) (answer_of answer.now) }
    {
        if answer.is(target) {
            Reading::AsNamed
        } else {
            Reading::Instead(met_by(answer))
        }
    }
}

/// What of the program a name reads as, and no local.
pub(crate) fn met_by(answer: &Answer<'_>) -> Option<Met>
    ensures { option_map kept_met result ≡ option_and_then program_target (answer_of answer.now) }
{
    match answer {
        Answer::Class(class) => Some(Met::Class(*class)),
        Answer::Field(field) => Some(Met::Field(*field)),
        Answer::Method(method) => Some(Met::Method(*method)),
        Answer::Param(param) => Some(Met::Param(*param)),
        Answer::Default(class) => Some(Met::Default(*class)),
        Answer::Local(_) => None,
        Answer::Outside(_) => None,
        Answer::Nothing => None,
    }
}

/// What of the program a name is the name of, and no local.
pub(crate) fn met_in(target: &Target<'_>) -> Option<Met>
    ensures { option_map kept_met result ≡ program_target (target_of target.now) }
{
    match target {
        Target::Class(class) => Some(Met::Class(*class)),
        Target::Field(field) => Some(Met::Field(*field)),
        Target::Method(method) => Some(Met::Method(*method)),
        Target::Param(param) => Some(Met::Param(*param)),
        Target::Default(class) => Some(Met::Default(*class)),
        Target::Local(_) => None,
        Target::Outside(_) => None,
    }
}
