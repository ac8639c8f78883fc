//! Keys of files.
ghost use Rattle.std.specs.Prelude.{◌≡◌};
ghost use Rattle.mol_spell_rules.specs.SpelledUnits.{unit_key_cmp};
ghost use Rattle.mol_spell.specs.keys.Keys.{key_of};

use mol_base::{Id, Text};
use std::cmp::Ordering;

/// What the source file of a class goes by.
#[derive(Drop)]
pub struct UnitKey {
    /// The path of the file, relative to the folder of the sources.
    pub path: Text,
    pub class: Id,
}

impl UnitKey {
    /// Files go by their paths, byte by byte, and those of one path by their classes.
    pub(crate) fn compare(&self, key: &UnitKey) -> Ordering
        ensures { result ≡ unit_key_cmp (key_of self.now) (key_of key.now) }
    {
        self.path.cmp(&key.path).then(self.class.cmp(&key.class))
    }
}
