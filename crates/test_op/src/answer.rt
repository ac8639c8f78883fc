//! What is printed of a step.
use mol_base::Id;
use mol_op::OpFault;
use mol_values_types::{Known, MethodKind};

/// What a step answers: words, and for some an identity behind them.
#[derive(Clone, Copy)]
pub struct Answer {
    pub words: &'static str,
    pub id: Option<Id>,
}

impl Answer {
    /// Words alone.
    pub fn plain(words: &'static str) -> Answer {
        Answer { words, id: None }
    }

    /// `yes` or `no`.
    pub fn truth(holds: bool) -> Answer {
        Answer::plain(if holds { "yes" } else { "no" })
    }

    /// Words and an identity.
    fn of(words: &'static str, id: Id) -> Answer {
        Answer {
            words,
            id: Some(id),
        }
    }

    /// Why an operation is refused.
    pub fn refused(fault: OpFault) -> Answer {
        match fault {
            OpFault::Unknown(id) => Answer::of("unknown", id),
            OpFault::WrongKind(id) => Answer::of("wrong-kind", id),
            OpFault::NotStatic(id) => Answer::of("not-static", id),
            OpFault::BadTag(id) => Answer::of("bad-tag", id),
            OpFault::NotFresh(id) => Answer::of("not-fresh", id),
        }
    }

    /// What an identity is known as.
    pub fn known(known: Option<Known>) -> Answer {
        match known {
            None => Answer::plain("unknown"),
            Some(Known::Class) => Answer::plain("class"),
            Some(Known::Field) => Answer::plain("field"),
            Some(Known::Method(MethodKind::Instance)) => Answer::plain("method of instances"),
            Some(Known::Method(MethodKind::Static)) => Answer::plain("static method"),
            Some(Known::Method(MethodKind::Constructor)) => Answer::plain("constructor"),
            Some(Known::Decl(method)) => Answer::of("declaration of", method),
            Some(Known::Param(method)) => Answer::of("parameter of", method),
        }
    }
}
