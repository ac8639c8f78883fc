//! Why a rule reads nothing.
use mol_base::OutOfMemory;

/// Why a rule reads nothing.
#[derive(Clone, Copy)]
pub enum Stop {
    OutOfMemory,
    /// The next token is bad, or there is none.
    Bad,
}

impl From<OutOfMemory> for Stop {
    ghost use Rattle.std.specs.Prelude.{◌≡◌};
    ghost use Rattle.jav_parse_cursor.specs.declared.stop.Stop.TheVariants.{OutOfMemory as Wants};

    ghost from_gives = { λ _ stop. stop ≡ Wants };

    fn from(_: OutOfMemory) -> Stop {
        Stop::OutOfMemory
    }
}
