//! The numbers that inputs and results may not pass.
ghost use Rattle.std.specs.Prelude.{◌≡◌};

/// The greatest number of parameters of a method, of arguments of a call, and of dimensions of an array
/// (JVMS 4.11).
pub const MAX_ITEMS: usize = 255;

/// The greatest number of bytes of a name.
pub const MAX_NAME_BYTES: usize = 255;

/// What is counted.
#[derive(Clone, Copy, Debug, PartialEq, Eq)]
pub enum Which {
    /// Files of a base or of a result.
    Files,
    /// Bytes of one source file.
    FileBytes,
    /// Bytes of all source files together.
    SourceBytes,
    /// Height of a tree, parentheses counted.
    Height,
    /// Entries of a log.
    Operations,
    /// Bytes of a log.
    LogBytes,
    /// Bytes of a script.
    ScriptBytes,
}

impl Which {
    ghost use Rattle.mol_base.specs.Limits.{most};

    /// The greatest number that is within the limit.
    pub fn most(self) -> u64
        ensures { result ≡ most self }
    {
        match self {
            Which::Files => 4_096,
            Which::FileBytes => 1_048_576,
            Which::SourceBytes => 16_777_216,
            Which::Height => 500,
            Which::Operations => 65_535,
            Which::LogBytes => 16_777_216,
            Which::ScriptBytes => 16_777_216,
        }
    }
}
