//! The parts of an `if` (JLS 14.9), put together.
//!
//! The functions here let go of the parts that were read where a later one is not. So the readers of statements, which are proved
//! together, hold no tree where they stop.
ghost use Rattle.std.specs.Prelude.{◌≡◌};
ghost use Rattle.mol_log_body.specs.BodyReader as reader;
ghost use Rattle.mol_log_body.specs.ReadsIn.{result_map};

use mol_log_words::Fault;
use mol_values_types::{IBlock, IElse, IExpr, IIf};

/// The branch of an `if`, and what follows it.
#[derive(Drop)]
pub struct Branches {
    pub then: IBlock,
    pub rest: IElse,
}

/// The branch, and what was read after it.
pub fn branches_of(then: IBlock, rest: Result<IElse, Fault>) -> Result<Branches, Fault>
    ensures { result ≡ result_map (reader.branches_of then) rest }
{
    let rest = rest?;
    Ok(Branches { then, rest })
}

/// The `if` of this test and the branches that were read after it.
pub fn if_of(test: IExpr, branches: Result<Branches, Fault>) -> Result<IIf, Fault>
    ensures { result ≡ result_map (reader.if_of test) branches }
{
    let Branches { then, rest } = branches?;
    Ok(IIf { test, then, rest })
}
