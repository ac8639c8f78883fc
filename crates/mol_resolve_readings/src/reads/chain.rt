//! Names with dots between them (JLS 6.5.2).
ghost use Rattle.std.specs.Prelude.{◌≡◌};
ghost use Rattle.mol_resolve_readings.specs.reads.Chains.{before_last, path_in};

/// What names with dots between them begin with, together with those that follow them after further dots.
#[derive(Clone, Copy)]
pub enum Chain {
    /// The expression is something else than names.
    NoNames,
    /// They begin with the full name of a class: the number of its file, how many names spell it, and how many names the expression is.
    Class(u32, usize, usize),
    /// The first of them is a variable, an import of an outside class, or outside.
    NoClass,
}

/// Names before a dot spell a class as a whole, by the number of its file; or they are the front of more names that do; or neither.
#[derive(Clone, Copy)]
pub enum ClassPath {
    Whole(u32),
    Front,
    NoPath,
}

impl Chain {
    /// The names without the last of them.
    pub fn before_last(self) -> Chain
        ensures { result ≡ before_last self }
    {
        match self {
            Chain::Class(class, spelling, count) => Chain::Class(
                class,
                spelling,
                count.saturating_sub(1),
            ),
            _ => self,
        }
    }

    /// What the names spell.
    pub fn path(self) -> ClassPath
        ensures { result ≡ path_in self }
    {
        match self {
            Chain::Class(class, spelling, count) if spelling == count => ClassPath::Whole(class),
            Chain::Class(_, spelling, count) if count < spelling => ClassPath::Front,
            _ => ClassPath::NoPath,
        }
    }
}
