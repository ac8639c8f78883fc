//! What an index lists.
ghost use Rattle.std.specs.Prelude.{◌≡◌};
ghost use Rattle.jav_names.specs.index.Spelled.{spelled};
ghost use Rattle.jav_names.specs.index.Seeking.{sought_of, sought_cmp};

use crate::index::spelling::Spelling;
use mol_base::Text;
use std::cmp::Ordering;

/// What is found by its owner, its number of parameters and its name, and its place among those of the owner.
#[derive(Drop)]
pub struct Entry {
    pub owner: u32,
    pub arity: usize,
    pub name: Text,
    pub place: u32,
}

impl Entry {
    /// How its owner, number of parameters and name compare with these, in this order. Names compare byte by byte.
    pub fn compare(&self, owner: u32, arity: usize, name: &Spelling<'_>) -> Ordering
        ensures { result ≡ sought_cmp (sought_of self.now) (record { owner = owner; arity = arity; name = spelled name.now }) }
    {
        match self.owner.cmp(&owner).then(self.arity.cmp(&arity)) {
            Ordering::Equal => name.compare(self.name.bytes()),
            order => order,
        }
    }
}
