//! Why nothing is read.
use mol_base::OutOfMemory;

/// Why a part of a tree is not read.
#[derive(Clone, Copy, Debug, PartialEq, Eq)]
pub enum Fault {
    OutOfMemory,
    /// The next word is bad, or there is none.
    Bad,
}

impl From<OutOfMemory> for Fault {
    ghost use Rattle.std.specs.Prelude.{◌≡◌};
    ghost use Rattle.mol_log_words.specs.declared.fault.Fault.TheVariants.{OutOfMemory as Wants};

    ghost from_gives = { λ _ fault. fault ≡ Wants };

    fn from(_: OutOfMemory) -> Fault {
        Fault::OutOfMemory
    }
}

/// Why words are no tree.
#[derive(Clone, Copy, Debug, PartialEq, Eq)]
pub enum BadWord {
    OutOfMemory,
    /// The first bad word, counted from 0, or how many words there are where they end early.
    Bad(usize),
}
