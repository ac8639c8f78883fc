//! Laws of the definitions.
ghost use Rattle.std.specs.Prelude.{◌≡◌, Option, Some};
ghost use Rattle.std.specs.Bool.{Decides};
ghost use Rattle.mol_scope.specs.asked.Answers.{is_answer};
ghost use Rattle.mol_spell_rules.specs.references.References.{Target as Named};

/// The law of answers: the test of whether a name reads as its target is yes exactly where that is the answer.
#[tactic(auto, using(crate::proofs::asked_lemmas::AnswersTested::tested))]
pub fn answers_decided()
    ensures { (target : Named) (read : Option Named) → Decides (is_answer target read) (read ≡ Some target) }
{}
