//! In what namesakes differ.
ghost use Rattle.std.specs.Prelude.{◌≡◌, false};

/// Whether some of the namesakes of a declaration differ from it.
#[derive(Clone, Copy)]
pub struct Differences {
    /// One takes other types.
    pub types: bool,
    /// One gives another type.
    pub result: bool,
}

/// None differs.
pub(crate) fn alike() -> Differences
    ensures { result ≡ record { types = false; result = false } }
{
    Differences {
        types: false,
        result: false,
    }
}
